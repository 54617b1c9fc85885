//! The quarter picture, for the coarse stage of motion search.
ghost use Rattle.std.specs.Prelude.{◌≡◌, ℕ, ◌+◌, ◌*◌, ◌/◌, ◌%◌, ◌^◌, ◌<◌, ◌≤◌, length, take, drop, sum, slice_index, EachIndex};
ghost use Rattle.hv_kernel.specs.QuarterPicture.{sum_of_square, quarter_sample};

use crate::lanes::{add, load, sums_of_fours, total};
use std::simd::prelude::*;

/// The sum of four samples from a place on.
#[inline(always)]
#[tactic(auto, using(crate::proofs::FourLemmas::sum_l_is_sum))]
fn sum_of_four(samples: &[u8], at: usize) -> u32
    requires { at + 4 ≤ length samples.now }
    ensures value { result ≡ sum (take 4 (drop at samples.now)) }
    ensures most { result ≤ 255 * 4 }
{
    total(load::<4>(samples, at))
}

/// The sum of the square of 4x4 samples that begins at `column`.
#[inline(always)]
#[tactic(auto, using(crate::proofs::FourLemmas::sum_of_four_rows))]
fn sum_of_square(rows: &[u8], width: usize, column: usize) -> u32
    requires { 3 * width + column + 4 ≤ length rows.now }
    ensures value { result ≡ sum_of_square rows.now width column }
    ensures most { result ≤ 255 * 16 }
{
    let upper = sum_of_four(rows, column) + sum_of_four(rows, width + column);
    let lower = sum_of_four(rows, 2 * width + column) + sum_of_four(rows, 3 * width + column);
    upper + lower
}

/// The sums of four squares side by side, the first of which begins at `column`.
#[inline(always)]
fn sums_of_squares(rows: &[u8], width: usize, column: usize) -> u32x4
    requires { 3 * width + column + 16 ≤ length rows.now }
    ensures value { (j : ℕ) → j < 4 →
        slice_index result j ≡ sum_of_square rows.now width (column + 4 * j) }
    ensures most { (j : ℕ) → j < 4 → slice_index result j ≤ 255 * 16 }
{
    let first = sums_of_fours(load(rows, column));
    let second = sums_of_fours(load(rows, width + column));
    let third = sums_of_fours(load(rows, 2 * width + column));
    let fourth = sums_of_fours(load(rows, 3 * width + column));
    let upper = add(first, second);
    let lower = add(third, fourth);
    add(upper, lower)
}

/// The mean of sixteen samples, a half rounded up.
#[inline(always)]
fn mean_of(sum: u32) -> u8
    requires { sum ≤ 255 * 16 }
    ensures { result ≡ (sum + 8) / 2 ^ 4 }
{
    ((sum + 8) >> 4) as u8
}

/// Writes the four samples from `at` on, after those before them.
#[inline(always)]
fn put_four(rows: &[u8], width: usize, at: usize, out: &mut [u8])
    requires room { at + 4 ≤ length out.old }
    requires inside { 3 * width + 4 * at + 16 ≤ length rows.now }
    requires before { (k : ℕ) → k < at → slice_index out.old k ≡ quarter_sample rows.now width k }
    ensures { (k : ℕ) → k < at + 4 → slice_index out.new k ≡ quarter_sample rows.now width k }
{
    let sums = sums_of_squares(rows, width, 4 * at).to_array();
    for j in 0..4usize {
        out[at + j] = mean_of(sums[j]);
    }
}

/// Makes a row of the quarter picture of four rows of luma samples.
///
/// `rows` holds four rows of `width` samples, one after another, and `width` is a multiple of 4.
/// `out` has a sample for each four columns, and each is written: the mean of a square of 4x4
/// samples, a half rounded up. It takes no memory and always answers.
pub fn decimate(rows: &[u8], width: u32, out: &mut [u8])
    requires squares { width % 4 ≡ 0 }
    requires four { length rows.now ≡ 4 * width }
    requires room { length out.old ≡ width / 4 }
    ensures { EachIndex out.new (λ k. slice_index out.new k ≡ quarter_sample rows.now width k) }
{
    let width = width as usize;
    let groups = width / 16;
    for group in 0..groups {
        put_four(rows, width, 4 * group, out);
    }
    for k in 4 * groups..out.len() {
        out[k] = mean_of(sum_of_square(rows, width, 4 * k));
    }
}
