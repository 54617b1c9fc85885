//! Intra_Planar, in lanes of 16 bits, which wrap.
//!
//! The sums are 128 / N times those of the standard, so that a mean of 2 * N is one of 256. What a
//! row shares with the next is kept in lanes: each has its step from row to row.

ghost use Rattle.std.specs.Prelude.{◌≡◌, ℕ, ◌+◌, ◌-◌, ◌*◌, ◌/◌, ◌^◌, ◌<◌, ◌≤◌, length, map};
ghost use Rattle.hv_intra.specs.Blocks.{IsRow, HasRows};
ghost use Rattle.hv_intra.specs.Lanes.{first_sum, planar_step, stepped, wrapped_sum};
ghost use Rattle.hv_sample_model.specs.IntraPrediction.{planar};
ghost use lib.Lanes.{zip2};

use crate::lanes::between;
use crate::neighbours::{Neighbours, Side};
use std::simd::prelude::*;

/// The weights of the neighbour behind the row: the number of the column, from 1 on.
static RISING: [u16; 32] = [
    1, 2, 3, 4, 5, 6, 7, 8, 9, 10, 11, 12, 13, 14, 15, 16, 17, 18, 19, 20, 21, 22, 23, 24, 25, 26,
    27, 28, 29, 30, 31, 32,
];

/// The weights of the neighbour behind a row of N samples.
#[inline(always)]
fn rising<const N: usize>() -> Simd<u16, N>
    requires { N ≤ 32 }
    ensures count { length result ≡ N }
    ensures each { IsRow N (λ x. x + 1) result }
{
    Simd::<u16, N>::from_slice(&RISING[..N])
}

/// The weights of the neighbour before the row.
#[inline(always)]
fn falling<const N: usize>() -> Simd<u16, N>
    requires { N ≤ 32 }
    ensures count { length result ≡ N }
    ensures each { IsRow N (λ x. N - 1 - x) result }
{
    Simd::<u16, N>::splat(N as u16) - rising::<N>()
}

/// The sums above the first row, from the neighbours above, and the one behind the row above.
#[inline(always)]
fn first_sums<const N: usize>(above: Simd<u8, N>, rising: Simd<u16, N>, right: u16) -> Simd<u16, N>
    ensures { result ≡ zip2 (first_sum right) above.entry rising.entry }
{
    above.cast::<u16>() * Simd::<u16, N>::splat(128)
        + rising * Simd::<u16, N>::splat(right)
        + Simd::<u16, N>::splat(128)
}

/// The steps of the sums from row to row, from the neighbours above, `scale` times each, and the
/// one below the block.
#[inline(always)]
fn row_steps<const N: usize>(above: Simd<u8, N>, scale: u16, lower: u16) -> Simd<u16, N>
    ensures { result ≡ map (planar_step scale lower) above.entry }
{
    Simd::<u16, N>::splat(lower) - above.cast::<u16>() * Simd::<u16, N>::splat(scale)
}

/// Sums of lanes.
#[inline(always)]
fn sums<const N: usize>(a: Simd<u16, N>, b: Simd<u16, N>) -> Simd<u16, N>
    ensures { result ≡ zip2 wrapped_sum a.entry b.entry }
{
    a + b
}

/// A row of N samples, from its sums and the neighbour before it.
#[inline(always)]
fn put_row<const N: usize>(sums: Simd<u16, N>, falling: Simd<u16, N>, left: u16, row: &mut [u8])
    requires { length row.old ≡ N }
    ensures { row.new ≡ zip2 (stepped left) sums.entry falling.entry }
{
    between(sums, falling, Simd::<u16, N>::splat(left)).copy_to_slice(row);
}

/// The rows of a block of N columns.
#[inline(never)]
fn fill_rows<const N: usize>(side: Side, line: &[u8], out: &mut [u8])
    requires side { N ≡ 2 ^ side.log2 }
    requires most { N ≤ 32 }
    requires line { length line.now ≡ 4 * N + 1 }
    requires room { length out.old ≡ N * N }
    ensures { HasRows N N (planar side.log2 line.now) out.new }
{
    let neighbours = Neighbours { side, line };
    let scale = 128 / N as u16;
    let above = Simd::<u8, N>::from_slice(&line[2 * N + 1..3 * N + 1]);
    let lower = scale * u16::from(neighbours.left(N + 1));
    let right = scale * u16::from(neighbours.above(N + 1));
    let steps = row_steps(above, scale, lower);
    let mut all = first_sums(above, rising::<N>(), right);
    for y in 0..N {
        all = sums(all, steps);
        let left = scale * u16::from(neighbours.left(y + 1));
        put_row(all, falling::<N>(), left, &mut out[y * N..y * N + N]);
    }
}

/// Intra_Planar (8.4.4.2.4).
#[inline(always)]
pub(crate) fn predict_planar(neighbours: Neighbours<'_>, out: &mut [u8])
    requires { length out.old ≡ 2 ^ neighbours.side.log2 * 2 ^ neighbours.side.log2 }
    ensures { HasRows (2 ^ neighbours.entry.side.log2) (2 ^ neighbours.entry.side.log2)
        (planar neighbours.entry.side.log2 neighbours.entry.line.now) out.new }
{
    match neighbours.side.log2 {
        2 => fill_rows::<4>(neighbours.side, neighbours.line, out),
        3 => fill_rows::<8>(neighbours.side, neighbours.line, out),
        4 => fill_rows::<16>(neighbours.side, neighbours.line, out),
        _ => fill_rows::<32>(neighbours.side, neighbours.line, out),
    }
}
