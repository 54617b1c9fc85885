//! The coarse stage: whole samples of the pictures of quarter size, for a coding tree block.
ghost use Rattle.std.specs.Prelude.{◌≡◌, ℕ, ◌+◌, ◌-◌, ◌*◌, ◌/◌, ◌%◌, ◌<◌, ◌≤◌, cond, nat_lt, min, length, take, drop, pos, ◌-ℤ◌, slice_index};
ghost use Rattle.std.specs.Int.{abs_diff};
ghost use Rattle.std.specs.Simd.Lanes.{zip2};
ghost use Rattle.hv_types.specs.Samples.{sample_at};
ghost use Rattle.hv_sample_model.specs.Blocks.{total_of};
ghost use Rattle.hv_search_model.specs.MotionSearch.{vector, least_around};
ghost use Rattle.hv_interp.specs.Filters.{HasFirst};
ghost use Rattle.hv_search.specs.Windows.{plane_of_grid};
ghost use Rattle.hv_search.specs.Coarse.{block_score, vector_in, IsMask, four_sums};

use crate::best::{Best, better};
use crate::grid::Grid;
use crate::lanes::{join_16, join_32, load, masked, sad_of_lanes};
use crate::nodes::four_runs;
use crate::window::{copy_window, corner};
use hv_plan::Mv;
use std::simd::prelude::*;

/// Lane `i` of a mask: 255 for a column of a block, and 0 behind them.
#[inline(always)]
fn mask_lane(columns: usize, i: usize) -> u8
    ensures { result ≡ cond (nat_lt i columns) 255 0 }
{
    if i < columns { 255 } else { 0 }
}

/// A lane of 255 for each column of a block, and of 0 behind them.
#[inline(always)]
fn mask_of(columns: usize) -> u8x16
    ensures { IsMask columns result }
{
    let mut mask = [0; 16];
    for i in 0..16usize {
        mask[i] = mask_lane(columns, i);
    }
    u8x16::from_array(mask)
}

/// Place `k` of rows of 16: the sample of a block, or 0 behind its columns.
#[inline(always)]
fn source_sample(input: Grid, left: usize, top: usize, columns: usize, k: usize) -> u8
    requires across { left + columns ≤ input.width }
    requires down { top + k / 16 < input.height }
    ensures { result ≡ cond (nat_lt (k % 16) columns)
        (sample_at (plane_of_grid input.entry) (left + k % 16) (top + k / 16)) 0 }
{
    if k % 16 < columns {
        input.samples[(top + k / 16) * input.width as usize + (left + k % 16)]
    } else {
        0
    }
}

/// Fills rows of 16 with those of a block, and with 0 behind its columns.
fn put_source(
    input: Grid,
    left: usize,
    top: usize,
    columns: usize,
    rows: usize,
    source: &mut [u8; 256],
)
    requires rows { rows ≤ 16 }
    requires across { left + columns ≤ input.width }
    requires down { top + rows ≤ input.height }
    ensures { HasFirst 0 (16 * rows) (λ k. cond (nat_lt (k % 16) columns)
        (sample_at (plane_of_grid input.entry) (left + k % 16) (top + k / 16)) 0) source.new }
{
    for k in 0..16 * rows {
        source[k] = source_sample(input, left, top, columns, k);
    }
}

/// The 16 samples of a window from place `at` on, and 0 behind the columns of a block.
#[inline(always)]
fn masked_row(window: &[u8; 2304], at: usize, mask: u8x16) -> u8x16
    requires { at + 16 ≤ 2304 }
    ensures { result ≡ zip2 min (take 16 (drop at window.now)) mask }
{
    masked(load::<16>(window, at), mask)
}

/// The sum of absolute differences of four rows of a block, from place `from` on, and those from
/// `at` on in a window of 48 columns.
#[inline(always)]
fn sum_of_four(source: &[u8; 256], mask: u8x16, from: usize, window: &[u8; 2304], at: usize) -> u32
    requires source { from + 64 ≤ 256 }
    requires window { at + 160 ≤ 2304 }
    ensures value { result ≡ four_sums source.now mask from window.now at }
    ensures small { result ≤ 255 * 64 }
{
    let upper = join_16(
        masked_row(window, at, mask),
        masked_row(window, at + 48, mask),
    );
    let lower = join_16(
        masked_row(window, at + 96, mask),
        masked_row(window, at + 144, mask),
    );
    sad_of_lanes(four_runs(source, from, 16), join_32(upper, lower))
}

/// The sum of absolute differences of the rows of a block and those from `at` on in a window of 48
/// columns, four rows a step. The number of rows comes by reference, so that the compiler doesn't
/// unroll the loops.
#[inline(never)]
fn coarse_sum(
    source: &[u8; 256],
    mask: u8x16,
    columns: usize,
    rows: &usize,
    window: &[u8; 2304],
    at: usize,
) -> u32
    requires columns { columns ≤ 16 }
    requires rows { rows.now ≤ 16 }
    requires mask { IsMask columns mask }
    requires source { (k : ℕ) → k < 16 * rows.now → columns ≤ k % 16 →
        slice_index source.now k ≡ 0 }
    requires inside { at + 48 * 15 + 16 ≤ 2304 }
    ensures { result ≡ total_of rows.now (λ j. total_of columns (λ i.
        abs_diff (slice_index source.now (16 * j + i))
        (slice_index window.now (at + 48 * j + i)))) }
{
    let mut sum = 0;
    for k in 0..*rows / 4 {
        sum += sum_of_four(source, mask, 64 * k, window, at + 192 * k);
    }
    for j in *rows / 4 * 4..*rows {
        let first = load::<16>(source, 16 * j);
        sum += sad_of_lanes(first, masked_row(window, at + 48 * j, mask));
    }
    sum
}

/// The vector to a place, whose middle one is place 16 of row 16.
fn vector_of(best: Best) -> Mv
    ensures { result ≡ vector_in 16 best.right best.down }
{
    Mv {
        x: i16::from(best.right) - 16,
        y: i16::from(best.down) - 16,
    }
}

/// The vector of the coarse stage for the block of 16x16, or what there is of it, that begins in
/// column `left` of row `top` of a picture of quarter size.
pub(crate) fn coarse_vector(input: Grid, reference: Grid, left: u32, top: u32) -> Mv
    requires across { left < input.width }
    requires down { top < input.height }
    ensures { result ≡ least_around (block_score (plane_of_grid input.entry)
        (plane_of_grid reference.entry) left top) 16 1 (vector (pos 0) (pos 0)) }
{
    let columns = (input.width - left).min(16) as usize;
    let rows = (input.height - top).min(16) as usize;
    let mut source = [0; 256];
    put_source(
        input,
        left as usize,
        top as usize,
        columns,
        rows,
        &mut source,
    );
    let mask = mask_of(columns);
    let mut window = [0; 2304];
    copy_window(
        reference,
        corner(left, 0, 16),
        corner(top, 0, 16),
        48,
        &mut window,
    );
    let sum = coarse_sum(&source, mask, columns, &rows, &window, 48 * 16 + 16);
    let mut best = Best {
        sum,
        right: 16,
        down: 16,
    };
    for down in 0..33u8 {
        for right in 0..33u8 {
            let at = 48 * usize::from(down) + usize::from(right);
            let sum = coarse_sum(&source, mask, columns, &rows, &window, at);
            best = better(best, Best { sum, right, down });
        }
    }
    vector_of(best)
}
