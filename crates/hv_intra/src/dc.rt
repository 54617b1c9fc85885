//! Intra_DC, in lanes.
//!
//! It reads the line itself, each side of the block at once.

ghost use Rattle.std.specs.Prelude.{◌≡◌, ◌+◌, ◌*◌, ◌/◌, ◌^◌, ◌<◌, ◌≤◌, length, map};
ghost use Rattle.std.specs.Prelude.{slice_index, cond, nat_eq};
ghost use Rattle.std.specs.Simd.Lanes.{sum_l};
ghost use Rattle.hv_intra.specs.Blocks.{IsRow, HasRows};
ghost use Rattle.hv_intra.specs.Lines.{edge_of};
ghost use Rattle.hv_sample_model.specs.IntraPrediction.{dc, dcVal, edged};

use crate::neighbours::Neighbours;
use std::simd::prelude::*;

/// The sum of the samples.
#[inline(always)]
fn total<const N: usize>(samples: Simd<u8, N>) -> u16
    requires { N ≤ 32 }
    ensures value { result ≡ sum_l samples.entry }
    ensures most { result ≤ 255 * N }
{
    samples.cast::<u16>().strict_reduce_sum()
}

/// dcVal (8.4.4.2.5): the mean of the neighbours beside the block, a half rounded up.
#[inline(always)]
fn mean<const N: usize>(neighbours: Neighbours<'_>) -> u8
    requires side { N ≡ 2 ^ neighbours.side.log2 }
    requires most { N ≤ 32 }
    ensures { result ≡ dcVal neighbours.entry.side.log2 neighbours.entry.line.now }
{
    let above = Simd::<u8, N>::from_slice(&neighbours.line[2 * N + 1..3 * N + 1]);
    let left = Simd::<u8, N>::from_slice(&neighbours.line[N..2 * N]);
    ((total(above) + total(left) + N as u16) >> (neighbours.side.log2 + 1)) as u8
}

/// The corner of a block whose edges are smoothed, between its two neighbours.
#[inline(always)]
fn corner(left: u8, value: u8, above: u8) -> u8
    ensures { result ≡ (left + 2 * value + above + 2) / 4 }
{
    ((u16::from(left) + 2 * u16::from(value) + u16::from(above) + 2) / 4) as u8
}

/// What is added to a neighbour before the division by 4.
#[inline(always)]
fn weighted(value: u8) -> u16
    ensures { result ≡ 3 * value + 2 }
{
    3 * u16::from(value) + 2
}

/// The samples of an edge that is smoothed, beside its neighbours.
#[inline(always)]
fn edges<const N: usize>(neighbours: Simd<u8, N>, more: u16) -> Simd<u8, N>
    requires { more ≤ 767 }
    ensures { result ≡ map (edge_of more) neighbours.entry }
{
    ((neighbours.cast::<u16>() + Simd::<u16, N>::splat(more)) >> Simd::<u16, N>::splat(2)).cast::<
        u8,
    >()
}

/// The upper row of a block whose edges are smoothed.
#[inline(always)]
fn fill_upper_row<const N: usize>(neighbours: Neighbours<'_>, value: u8, row: &mut [u8])
    requires side { N ≡ 2 ^ neighbours.side.log2 }
    requires room { length row.old ≡ N }
    ensures { IsRow N
        (λ x. edged value neighbours.entry.side.log2 neighbours.entry.line.now x 0) row.new }
{
    let above = Simd::<u8, N>::from_slice(&neighbours.line[2 * N + 1..3 * N + 1]);
    edges(above, weighted(value)).copy_to_slice(row);
    row[0] = corner(neighbours.left(1), value, neighbours.above(1));
}

/// The samples of the left edge of such a block, from the lowest upwards.
#[inline(always)]
fn fill_left_edge<const N: usize>(neighbours: Neighbours<'_>, value: u8, out: &mut [u8; N])
    requires { N ≡ 2 ^ neighbours.side.log2 }
    ensures { IsRow N
        (λ i. edge_of (3 * value + 2) (slice_index neighbours.entry.line.now (N + i))) out.new }
{
    let left = Simd::<u8, N>::from_slice(&neighbours.line[N..2 * N]);
    edges(left, weighted(value)).copy_to_slice(&mut out[..]);
}

/// A row below the first: its value behind a sample of the edge.
#[inline(always)]
fn fill_lower_row<const N: usize>(edge: u8, value: u8, row: &mut [u8])
    requires some { 1 ≤ N }
    requires most { N ≤ 32 }
    requires room { length row.old ≡ N }
    ensures { IsRow N (λ x. cond (nat_eq x 0) edge value) row.new }
{
    Simd::<u8, N>::splat(value).copy_to_slice(row);
    row[0] = edge;
}

/// A row of a block whose edges are smoothed.
#[inline(always)]
fn fill_row<const N: usize>(
    neighbours: Neighbours<'_>,
    value: u8,
    left_edge: &[u8; N],
    y: usize,
    row: &mut [u8],
)
    requires side { N ≡ 2 ^ neighbours.side.log2 }
    requires most { N ≤ 32 }
    requires left_edge { IsRow N
        (λ i. edge_of (3 * value + 2) (slice_index neighbours.line.now (N + i))) left_edge.now }
    requires row { y < N }
    requires room { length row.old ≡ N }
    ensures { IsRow N
        (λ x. edged value neighbours.entry.side.log2 neighbours.entry.line.now x y) row.new }
{
    if y == 0 {
        fill_upper_row::<N>(neighbours, value, row);
    } else {
        fill_lower_row::<N>(left_edge[N - 1 - y], value, row);
    }
}

/// A block whose edges are smoothed.
#[inline(always)]
fn fill_with_edges<const N: usize>(neighbours: Neighbours<'_>, value: u8, out: &mut [u8])
    requires side { N ≡ 2 ^ neighbours.side.log2 }
    requires most { N ≤ 32 }
    requires room { length out.old ≡ N * N }
    ensures { HasRows N N
        (edged value neighbours.entry.side.log2 neighbours.entry.line.now) out.new }
{
    let mut left_edge = [0; N];
    fill_left_edge(neighbours, value, &mut left_edge);
    for y in 0..N {
        fill_row(neighbours, value, &left_edge, y, &mut out[y * N..y * N + N]);
    }
}

/// A block of N columns and rows.
#[inline(always)]
fn fill_block<const N: usize>(neighbours: Neighbours<'_>, luma: bool, out: &mut [u8])
    requires side { N ≡ 2 ^ neighbours.side.log2 }
    requires most { N ≤ 32 }
    requires room { length out.old ≡ N * N }
    ensures { HasRows N N (dc neighbours.entry.side.log2 luma neighbours.entry.line.now) out.new }
{
    let value = mean::<N>(neighbours);
    if luma && neighbours.side.log2 < 5 {
        fill_with_edges::<N>(neighbours, value, out);
    } else {
        out.fill(value);
    }
}

/// Intra_DC (8.4.4.2.5).
#[inline(always)]
pub(crate) fn predict_dc(neighbours: Neighbours<'_>, luma: bool, out: &mut [u8])
    requires { length out.old ≡ 2 ^ neighbours.side.log2 * 2 ^ neighbours.side.log2 }
    ensures { HasRows (2 ^ neighbours.entry.side.log2) (2 ^ neighbours.entry.side.log2)
        (dc neighbours.entry.side.log2 luma neighbours.entry.line.now) out.new }
{
    match neighbours.side.log2 {
        2 => fill_block::<4>(neighbours, luma, out),
        3 => fill_block::<8>(neighbours, luma, out),
        4 => fill_block::<16>(neighbours, luma, out),
        _ => fill_block::<32>(neighbours, luma, out),
    }
}
