//! The filters of interpolation over a window.
ghost use Rattle.std.specs.Prelude.{ℕ, ◌≡◌, ◌+◌, ◌-◌, ◌*◌, ◌/◌, ◌%◌, ◌^◌, ◌<◌, ◌≤◌, length, pos, slice_index_or, ◌+ℤ◌, ◌*ℤ◌};
ghost use Rattle.std.specs.Int.{int_shr};
ghost use Rattle.std.specs.Int.RustNames.{FitsSigned, unsigned_abs};
ghost use mir.Syntax.{w16};
ghost use Rattle.hv_inter_model.specs.Interpolation.{weighted_sample};
ghost use Rattle.hv_interp.specs.Filters.{HasFirst, HoldsTaps, filtered, place_of, strided_sum, strided_total, weight_of};
ghost use Rattle.hv_interp.specs.Lanes.{AreSpread};

use crate::columns::filter_columns_in;
use crate::lanes::{eight_sums, put_16_samples, put_16_sums, put_samples, put_sums};
use crate::pairs::{sixteen_sums, spread};
use crate::totals::{eight_totals, put_totals};
use std::simd::prelude::*;

/// The product of a tap and a number.
#[inline(always)]
fn product(tap: i8, number: i16) -> i32
    ensures value { result ≡ tap *ℤ number }
    ensures most { unsigned_abs result ≤ 4194304 }
{
    i32::from(tap) * i32::from(number)
}

/// Adds the product of a tap and a number to a sum.
#[inline(always)]
fn add_product(sum: i32, tap: i8, number: i16) -> i32
    requires { unsigned_abs sum ≤ 1073741824 }
    ensures value { result ≡ sum +ℤ (tap *ℤ number) }
    ensures most { unsigned_abs result ≤ unsigned_abs sum + 4194304 }
{
    sum + product(tap, number)
}

/// The sum of taps times samples, from place `at` on, each `step` behind the other.
#[inline(always)]
#[tactic(auto, using(crate::proofs::SumLemmas::strided_sum_of_none, crate::proofs::SumLemmas::strided_sum_of_more, crate::proofs::SumLemmas::strided_sum_of_all))]
fn sum_of_samples<const T: usize>(taps: &[i8; T], samples: &[u8], at: usize, step: usize) -> i32
    requires some { 0 < T }
    requires most { T ≤ 8 }
    requires at { at < 2 ^ 48 }
    requires step { step < 2 ^ 48 }
    requires inside { at + (T - 1) * step < length samples.now }
    ensures value { result ≡ strided_sum taps.now samples.now at step }
    ensures result_most { unsigned_abs result ≤ 33554432 }
{
    let mut sum = 0;
    for k in 0..T {
        sum = add_product(sum, taps[k], i16::from(samples[at + k * step]));
    }
    sum
}

/// The same of numbers with a sign.
#[inline(always)]
#[tactic(auto, using(crate::proofs::SumLemmas::strided_total_of_none, crate::proofs::SumLemmas::strided_total_of_more, crate::proofs::SumLemmas::strided_total_of_all))]
fn sum_of_numbers<const T: usize>(taps: &[i8; T], numbers: &[i16], at: usize, step: usize) -> i32
    requires some { 0 < T }
    requires most { T ≤ 8 }
    requires at { at < 2 ^ 48 }
    requires step { step < 2 ^ 48 }
    requires inside { at + (T - 1) * step < length numbers.now }
    ensures value { result ≡ strided_total taps.now numbers.now at step }
    ensures result_most { unsigned_abs result ≤ 33554432 }
{
    let mut sum = 0;
    for k in 0..T {
        sum = add_product(sum, taps[k], numbers[at + k * step]);
    }
    sum
}

/// A sample of 14 bits, rounded to 8 (8.5.3.3.4.2).
#[inline(always)]
fn rounded(sum: i32) -> u8
    requires { unsigned_abs sum ≤ 33554432 }
    ensures { result ≡ weighted_sample sum }
{
    ((sum + 32) >> 6).clamp(0, 255) as u8
}

/// Filters a block of `size` columns and rows: along rows where the `step` is 1, and down columns
/// where it is the stride.
#[inline(always)]
fn filter<const T: usize>(
    taps: &[i8; T],
    samples: &[u8],
    stride: usize,
    step: usize,
    size: usize,
    out: &mut [u8],
)
    requires some { 0 < T }
    requires most { T ≤ 8 }
    requires light { weight_of taps.now ≤ 112 }
    requires stride { stride < 2 ^ 32 }
    requires step { step < 2 ^ 32 }
    requires size { size ≤ 64 }
    requires inside { HoldsTaps samples.now stride step T size size }
    requires room { length out.old ≡ size * size }
    ensures { HasFirst 0 (size * size) (filtered taps.now samples.now stride step size) out.new }
{
    let weights = *taps;
    for y in 0..size {
        for g in 0..size / 8 {
            let sums = eight_sums(&weights, samples, y * stride + 8 * g, step);
            put_samples(sums, &mut out[y * size + 8 * g..y * size + 8 * g + 8]);
        }
        for r in 0..size % 8 {
            let x = size / 8 * 8 + r;
            out[y * size + x] = rounded(sum_of_samples(&weights, samples, y * stride + x, step));
        }
    }
}

/// Filters a block of `size` columns and rows along rows, sixteen columns at a time.
///
/// It isn't inlined, so that the compiler doesn't know the taps, and multiplies pairs.
#[inline(never)]
fn filter_by_sixteens<const T: usize>(
    taps: &[i8; T],
    spread: &[i8; 64],
    samples: &[u8],
    stride: usize,
    size: usize,
    out: &mut [u8],
)
    requires some { 0 < T }
    requires most { T ≤ 8 }
    requires even { 2 * (T / 2) ≡ T }
    requires light { weight_of taps.now ≤ 112 }
    requires spread { AreSpread T taps.now spread.now }
    requires stride { stride < 2 ^ 32 }
    requires size { size ≤ 64 }
    requires inside { HoldsTaps samples.now stride 1 T size size }
    requires room { length out.old ≡ size * size }
    ensures { HasFirst 0 (size * size) (filtered taps.now samples.now stride 1 size) out.new }
{
    for y in 0..size {
        for g in 0..size / 16 {
            let sums = sixteen_sums(taps, spread, samples, y * stride + 16 * g);
            put_16_samples(sums, &mut out[y * size + 16 * g..y * size + 16 * g + 16]);
        }
        for r in 0..size % 16 {
            let x = size / 16 * 16 + r;
            out[y * size + x] = rounded(sum_of_samples(taps, samples, y * stride + x, 1));
        }
    }
}

/// Filters a block of `size` columns and rows along rows.
#[inline(never)]
pub(crate) fn filter_rows<const T: usize>(
    taps: &[i8; T],
    samples: &[u8],
    stride: usize,
    size: usize,
    out: &mut [u8],
)
    requires some { 0 < T }
    requires most { T ≤ 8 }
    requires even { 2 * (T / 2) ≡ T }
    requires light { weight_of taps.now ≤ 112 }
    requires stride { stride < 2 ^ 32 }
    requires size { size ≤ 64 }
    requires inside { HoldsTaps samples.now stride 1 T size size }
    requires room { length out.old ≡ size * size }
    ensures { HasFirst 0 (size * size) (filtered taps.now samples.now stride 1 size) out.new }
{
    if size < 16 {
        filter(taps, samples, stride, 1, size, out);
    } else {
        filter_by_sixteens(taps, &spread(taps), samples, stride, size, out);
    }
}

/// Filters a block of `size` columns and rows down its columns.
///
/// The usual sizes have functions with room of their own, so that no call clears more than its
/// share.
#[inline(never)]
pub(crate) fn filter_columns<const T: usize>(
    taps: &[i8; T],
    samples: &[u8],
    stride: usize,
    size: usize,
    out: &mut [u8],
)
    requires some { 0 < T }
    requires most { T ≤ 8 }
    requires even { 2 * (T / 2) ≡ T }
    requires light { weight_of taps.now ≤ 112 }
    requires stride { stride < 2 ^ 32 }
    requires size { size ≤ 64 }
    requires inside { HoldsTaps samples.now stride stride T size size }
    requires room { length out.old ≡ size * size }
    ensures { HasFirst 0 (size * size) (filtered taps.now samples.now stride stride size) out.new }
{
    if size == 16 {
        filter_columns_in::<T, 704>(taps, samples, stride, size, out);
    } else if size == 32 {
        filter_columns_in::<T, 2432>(taps, samples, stride, size, out);
    } else if size == 64 {
        filter_columns_in::<T, 8960>(taps, samples, stride, size, out);
    } else {
        filter(taps, samples, stride, stride, size, out);
    }
}

/// Sums along rows, eight columns at a time: so many rows of `size` sums, one behind the other.
#[inline(always)]
fn sum_by_eights<const T: usize>(
    taps: &[i8; T],
    samples: &[u8],
    stride: usize,
    size: usize,
    rows: usize,
    sums: &mut [i16],
)
    requires some { 0 < T }
    requires most { T ≤ 8 }
    requires light { weight_of taps.now ≤ 112 }
    requires stride { stride < 2 ^ 32 }
    requires size { size ≤ 96 }
    requires rows { rows ≤ 88 }
    requires inside { HoldsTaps samples.now stride 1 T size rows }
    requires room { rows * size ≤ length sums.old }
    ensures { HasFirst (pos 0) (rows * size)
        (λ k. strided_sum taps.now samples.now (place_of size stride k) 1) sums.new }
{
    let weights = *taps;
    for y in 0..rows {
        for g in 0..size / 8 {
            let eight = eight_sums(&weights, samples, y * stride + 8 * g, 1);
            put_sums(eight, &mut sums[y * size + 8 * g..y * size + 8 * g + 8]);
        }
        for r in 0..size % 8 {
            let x = size / 8 * 8 + r;
            sums[y * size + x] = sum_of_samples(&weights, samples, y * stride + x, 1) as i16;
        }
    }
}

/// The same, sixteen columns at a time.
///
/// It isn't inlined, so that the compiler doesn't know the taps, and multiplies pairs.
#[inline(never)]
fn sum_by_sixteens<const T: usize>(
    taps: &[i8; T],
    spread: &[i8; 64],
    samples: &[u8],
    stride: usize,
    size: usize,
    rows: usize,
    sums: &mut [i16],
)
    requires some { 0 < T }
    requires most { T ≤ 8 }
    requires even { 2 * (T / 2) ≡ T }
    requires light { weight_of taps.now ≤ 112 }
    requires spread { AreSpread T taps.now spread.now }
    requires stride { stride < 2 ^ 32 }
    requires size { size ≤ 96 }
    requires rows { rows ≤ 88 }
    requires inside { HoldsTaps samples.now stride 1 T size rows }
    requires room { rows * size ≤ length sums.old }
    ensures { HasFirst (pos 0) (rows * size)
        (λ k. strided_sum taps.now samples.now (place_of size stride k) 1) sums.new }
{
    for y in 0..rows {
        for g in 0..size / 16 {
            let part = sixteen_sums(taps, spread, samples, y * stride + 16 * g);
            put_16_sums(part, &mut sums[y * size + 16 * g..y * size + 16 * g + 16]);
        }
        for r in 0..size % 16 {
            let x = size / 16 * 16 + r;
            sums[y * size + x] = sum_of_samples(taps, samples, y * stride + x, 1) as i16;
        }
    }
}

/// Sums along rows: so many rows of `size`, one behind the other.
pub(crate) fn sum_rows<const T: usize>(
    taps: &[i8; T],
    samples: &[u8],
    stride: usize,
    size: usize,
    rows: usize,
    sums: &mut [i16],
)
    requires some { 0 < T }
    requires most { T ≤ 8 }
    requires even { 2 * (T / 2) ≡ T }
    requires light { weight_of taps.now ≤ 112 }
    requires stride { stride < 2 ^ 32 }
    requires size { size ≤ 96 }
    requires rows { rows ≤ 88 }
    requires inside { HoldsTaps samples.now stride 1 T size rows }
    requires room { rows * size ≤ length sums.old }
    ensures { HasFirst (pos 0) (rows * size)
        (λ k. strided_sum taps.now samples.now (place_of size stride k) 1) sums.new }
{
    if size < 16 {
        sum_by_eights(taps, samples, stride, size, rows, sums);
    } else {
        sum_by_sixteens(taps, &spread(taps), samples, stride, size, rows, sums);
    }
}

/// The same taps, with 16 bits.
#[inline(always)]
fn widened<const T: usize>(taps: &[i8; T]) -> [i16; T]
    requires { T ≤ 8 }
    ensures { result ≡ taps.now }
{
    let mut wide = [0; T];
    for k in 0..T {
        wide[k] = i16::from(taps[k]);
    }
    wide
}

/// Filters sums of rows down their columns, the first sixteens of so many rows of `size` columns.
///
/// It isn't inlined, so that the compiler doesn't know the taps, and multiplies pairs.
#[inline(never)]
fn filter_sixteens<const T: usize>(
    taps: &[i16; T],
    sums: &[i16],
    size: usize,
    rows: usize,
    sixteens: usize,
    out: &mut [u8],
)
    requires some { 0 < T }
    requires most { T ≤ 8 }
    requires even { 2 * (T / 2) ≡ T }
    requires light { weight_of taps.now ≤ 112 }
    requires numbers { (k : ℕ) → FitsSigned w16 (slice_index_or sums.now k (pos 0)) }
    requires size { size ≤ 96 }
    requires rows { rows ≤ 81 }
    requires sixteens { 16 * sixteens ≤ rows * size }
    requires inside { (rows + T - 1) * size ≤ length sums.now }
    requires room { length out.old ≡ rows * size }
    ensures { HasFirst 0 (16 * sixteens)
        (λ k. weighted_sample (int_shr (strided_total taps.now sums.now k size) 6)) out.new }
{
    for g in 0..sixteens {
        let first = eight_totals(taps, sums, 16 * g, size);
        let second = eight_totals(taps, sums, 16 * g + 8, size);
        put_totals(first, &mut out[16 * g..16 * g + 8]);
        put_totals(second, &mut out[16 * g + 8..16 * g + 16]);
    }
}

/// Filters sums of rows down their columns: so many rows of `size` columns.
pub(crate) fn filter_sums<const T: usize>(
    taps: &[i8; T],
    sums: &[i16],
    size: usize,
    rows: usize,
    out: &mut [u8],
)
    requires some { 0 < T }
    requires most { T ≤ 8 }
    requires even { 2 * (T / 2) ≡ T }
    requires light { weight_of taps.now ≤ 112 }
    requires numbers { (k : ℕ) → FitsSigned w16 (slice_index_or sums.now k (pos 0)) }
    requires size { size ≤ 96 }
    requires rows { rows ≤ 81 }
    requires inside { (rows + T - 1) * size ≤ length sums.now }
    requires room { length out.old ≡ rows * size }
    ensures { HasFirst 0 (rows * size)
        (λ k. weighted_sample (int_shr (strided_total taps.now sums.now k size) 6)) out.new }
{
    let sixteens = out.len() / 16;
    filter_sixteens(&widened(taps), sums, size, rows, sixteens, out);
    for k in 16 * sixteens..out.len() {
        out[k] = rounded(sum_of_numbers(taps, sums, k, size) >> 6);
    }
}

/// Copies 32 samples.
#[inline(always)]
fn copy_32(samples: &[u8], out: &mut [u8])
    requires samples { length samples.now ≡ 32 }
    requires room { length out.old ≡ 32 }
    ensures { out.new ≡ samples.now }
{
    u8x32::from_slice(samples).copy_to_slice(out);
}

/// Copies eight samples.
#[inline(always)]
fn copy_8(samples: &[u8], out: &mut [u8])
    requires samples { length samples.now ≡ 8 }
    requires room { length out.old ≡ 8 }
    ensures { out.new ≡ samples.now }
{
    u8x8::from_slice(samples).copy_to_slice(out);
}

/// Copies a block of `size` columns and rows.
pub(crate) fn copy_block(samples: &[u8], stride: usize, size: usize, out: &mut [u8])
    requires stride { stride < 2 ^ 32 }
    requires size { size ≤ 64 }
    requires inside { HoldsTaps samples.now stride 1 1 size size }
    requires room { length out.old ≡ size * size }
    ensures { HasFirst 0 (size * size)
        (λ k. slice_index_or samples.now (place_of size stride k) 0) out.new }
{
    for y in 0..size {
        let (from, to) = (y * stride, y * size);
        for g in 0..size / 32 {
            let x = 32 * g;
            copy_32(
                &samples[from + x..from + x + 32],
                &mut out[to + x..to + x + 32],
            );
        }
        for e in 0..size % 32 / 8 {
            let x = size / 32 * 32 + 8 * e;
            copy_8(
                &samples[from + x..from + x + 8],
                &mut out[to + x..to + x + 8],
            );
        }
        for r in 0..size % 8 {
            let x = size / 8 * 8 + r;
            out[to + x] = samples[from + x];
        }
    }
}
