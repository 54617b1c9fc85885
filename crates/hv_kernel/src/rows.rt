//! Sums of differences over the rows of two blocks, some rows a step.

ghost use Rattle.std.specs.Prelude.{◌≡◌, ◌+◌, ◌*◌, ◌≤◌, ◌++◌};
ghost use Rattle.std.specs.Simd.Lanes.{sum_l};
ghost use Rattle.hv_kernel.specs.Blocks.{row_of, sad_of_rows, ssd_of_rows};

use crate::lanes::{add_gaps, join_16, join_32, load, sad_of_lanes, ssd_of_lanes};
use crate::pair::Pair;
use hv_types::Window;
use std::simd::Simd;
use std::simd::prelude::*;

/// Adds the absolute differences of the rows from `from` on to those of the rows before.
#[inline(always)]
#[tactic(auto, using(crate::proofs::RowLemmas::sum_of_rows_more))]
pub(crate) fn add_sad_of_rows<const N: usize>(sum: u32, from: usize, blocks: Pair) -> u32
    requires lanes { N ≤ 64 }
    requires columns { blocks.first.columns ≡ N }
    requires begun { from ≤ blocks.first.rows }
    requires before { sum ≡ sad_of_rows blocks from }
    requires most { sum ≤ 255 * 64 * from }
    ensures { result ≡ sad_of_rows blocks.entry blocks.entry.first.rows }
{
    let mut sum = sum;
    for y in from..blocks.first.rows {
        let first = load::<N>(blocks.first.samples, y * blocks.first.stride);
        let second = load::<N>(blocks.second.samples, y * blocks.second.stride);
        sum += sad_of_lanes(first, second);
    }
    sum
}

/// Adds the squared differences of the rows from `from` on to those of the rows before.
#[inline(always)]
#[tactic(auto, using(crate::proofs::RowLemmas::sum_of_rows_more))]
pub(crate) fn add_ssd_of_rows<const N: usize>(sum: u32, from: usize, blocks: Pair) -> u32
    requires lanes { N ≤ 64 }
    requires columns { blocks.first.columns ≡ N }
    requires begun { from ≤ blocks.first.rows }
    requires before { sum ≡ ssd_of_rows blocks from }
    requires most { sum ≤ 255 * 255 * 64 * from }
    ensures { result ≡ ssd_of_rows blocks.entry blocks.entry.first.rows }
{
    let mut sum = sum;
    for y in from..blocks.first.rows {
        let first = load::<N>(blocks.first.samples, y * blocks.first.stride);
        let second = load::<N>(blocks.second.samples, y * blocks.second.stride);
        sum += ssd_of_lanes(first, second);
    }
    sum
}

/// Adds the absolute differences of four rows from row `y` on to those of the rows before, each
/// lane to the sum in its place.
#[inline(always)]
#[tactic(auto, using(crate::proofs::RowLemmas::sum_of_rows_more))]
pub(crate) fn add_gaps_of_four_rows<const N: usize>(
    sums: Simd<u32, N>,
    y: usize,
    blocks: Pair,
) -> Simd<u32, N>
    requires lanes { N ≤ 64 }
    requires columns { blocks.first.columns ≡ N }
    requires inside { y + 4 ≤ blocks.first.rows }
    requires before { sum_l sums ≡ sad_of_rows blocks y }
    requires most { sum_l sums ≤ 255 * 64 * y }
    ensures value { sum_l result ≡ sad_of_rows blocks.entry (y + 4) }
    ensures most { sum_l result ≤ 255 * 64 * (y + 4) }
{
    let mut sums = sums;
    for row in y..y + 4 {
        let first = load::<N>(blocks.first.samples, row * blocks.first.stride);
        let second = load::<N>(blocks.second.samples, row * blocks.second.stride);
        sums = add_gaps(sums, first, second);
    }
    sums
}

/// Four rows of a block of 16 columns, from row `y` on.
#[inline(always)]
fn four_rows(block: Window, y: usize) -> u8x64
    requires columns { block.columns ≡ 16 }
    requires inside { y + 4 ≤ block.rows }
    ensures { result ≡
        (row_of block.entry y ++ row_of block.entry (y + 1)) ++
        (row_of block.entry (y + 2) ++ row_of block.entry (y + 3)) }
{
    let samples = block.samples;
    let stride = block.stride;
    let upper = join_16(load(samples, y * stride), load(samples, (y + 1) * stride));
    let lower = join_16(
        load(samples, (y + 2) * stride),
        load(samples, (y + 3) * stride),
    );
    join_32(upper, lower)
}

/// The sum of absolute differences of four rows of two blocks of 16 columns, from row `y` on.
#[inline(always)]
pub(crate) fn sad_of_four_rows(blocks: Pair, y: usize) -> u32
    requires columns { blocks.first.columns ≡ 16 }
    requires inside { y + 4 ≤ blocks.first.rows }
    ensures value { sad_of_rows blocks.entry (y + 4) ≡ sad_of_rows blocks.entry y + result }
    ensures most { result ≤ 255 * 64 }
{
    sad_of_lanes(four_rows(blocks.first, y), four_rows(blocks.second, y))
}
