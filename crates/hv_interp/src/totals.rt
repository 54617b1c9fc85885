//! Sums of taps times numbers with a sign, in eight lanes of 32 bits.
ghost use Rattle.std.specs.Prelude.{ℕ, ◌≡◌, ◌+◌, ◌-◌, ◌*◌, ◌/◌, ◌^◌, ◌<◌, ◌≤◌, length, map, slice_index_or, pos, ◌+ℤ◌};
ghost use Rattle.std.specs.Int.{int_shr};
ghost use Rattle.std.specs.Int.RustNames.{FitsSigned, unsigned_abs};
ghost use mir.Syntax.{w16, w32};
ghost use Rattle.hv_lemmas.specs.Clipping.{clip1};
ghost use Rattle.hv_inter_model.specs.Interpolation.{weighted_sample};
ghost use Rattle.hv_interp.specs.Filters.{strided_total, weight_of};
ghost use Rattle.hv_interp.specs.Lanes.{lane, with_pair};

use hv_lanes::clipped;
use std::simd::prelude::*;

/// Adds two taps times eight numbers each of two rows to eight sums.
#[inline(always)]
fn add_pair(sums: i32x8, taps: &[i16], first: &[i16], second: &[i16]) -> i32x8
    requires eight { length sums ≡ 8 }
    requires two { length taps.now ≡ 2 }
    requires first { length first.now ≡ 8 }
    requires second { length second.now ≡ 8 }
    requires before { (j : ℕ) → FitsSigned w32 (lane sums j) }
    requires taps { (j : ℕ) → FitsSigned w16 (lane taps.now j) }
    requires first_numbers { (j : ℕ) → FitsSigned w16 (lane first.now j) }
    requires second_numbers { (j : ℕ) → FitsSigned w16 (lane second.now j) }
    requires after { (j : ℕ) → j < 8 →
        FitsSigned w32 (with_pair sums taps.now first.now second.now j) }
    ensures count { length result ≡ 8 }
    ensures each { (j : ℕ) → j < 8 →
        lane result j ≡ with_pair sums taps.now first.now second.now j }
{
    let (first, second) = (i16x8::from_slice(first), i16x8::from_slice(second));
    let taps = i16x2::from_slice(taps)
        .swizzle([0, 1, 0, 1, 0, 1, 0, 1])
        .cast::<i32>();
    let low = first
        .shuffle(second, [0, 8, 1, 9, 2, 10, 3, 11])
        .cast::<i32>()
        * taps;
    let high = first
        .shuffle(second, [4, 12, 5, 13, 6, 14, 7, 15])
        .cast::<i32>()
        * taps;
    let low = low.swizzle([0, 2, 4, 6]) + low.swizzle([1, 3, 5, 7]);
    let high = high.swizzle([0, 2, 4, 6]) + high.swizzle([1, 3, 5, 7]);
    sums + low.shuffle(high, [0, 1, 2, 3, 4, 5, 6, 7])
}

/// Eight sums of 0.
#[inline(always)]
fn no_totals() -> i32x8
    ensures count { length result ≡ 8 }
    ensures each { (j : ℕ) → lane result j ≡ pos 0 }
{
    i32x8::splat(0)
}

/// Eight sums of taps times numbers, from place `at` and the next seven on, each `step` behind the
/// other.
#[inline(always)]
pub(crate) fn eight_totals<const T: usize>(
    taps: &[i16; T],
    numbers: &[i16],
    at: usize,
    step: usize,
) -> i32x8
    requires some { 0 < T }
    requires most { T ≤ 8 }
    requires even { 2 * (T / 2) ≡ T }
    requires light { weight_of taps.now ≤ 112 }
    requires numbers { (k : ℕ) → FitsSigned w16 (lane numbers.now k) }
    requires at { at < 2 ^ 48 }
    requires step { step < 2 ^ 48 }
    requires inside { at + (T - 1) * step + 8 ≤ length numbers.now }
    ensures count { length result ≡ 8 }
    ensures each { (j : ℕ) → j < 8 →
        lane result j ≡ strided_total taps.now numbers.now (at + j) step }
    ensures range { (j : ℕ) → unsigned_abs (lane result j) ≤ 3670016 }
{
    let all = &taps[..];
    let mut sums = no_totals();
    for p in 0..T / 2 {
        let from = at + 2 * p * step;
        let next = from + step;
        sums = add_pair(
            sums,
            &all[2 * p..2 * p + 2],
            &numbers[from..from + 8],
            &numbers[next..next + 8],
        );
    }
    sums
}

/// Means of eight sums by 2^12, rounded to the nearest, a half upwards.
#[inline(always)]
fn means(sums: i32x8) -> i32x8
    requires eight { length sums ≡ 8 }
    requires range { (j : ℕ) → unsigned_abs (lane sums j) ≤ 3670016 }
    ensures { result ≡ map (λ z. int_shr (z +ℤ pos 2048) 12) sums }
{
    (sums + i32x8::splat(2048)) >> i32x8::splat(12)
}

/// Writes eight lanes, clipped to samples.
#[inline(always)]
fn put_clipped(lanes: i16x8, out: &mut [u8])
    requires eight { length lanes ≡ 8 }
    requires numbers { (j : ℕ) → FitsSigned w16 (lane lanes j) }
    requires room { length out.old ≡ 8 }
    ensures { out.new ≡ map clip1 lanes }
{
    lanes
        .simd_clamp(i16x8::splat(0), i16x8::splat(255))
        .cast::<u8>()
        .copy_to_slice(out);
}

/// Writes eight sums of both passes as samples: shifted by 6, and then rounded to 8 bits
/// (8.5.3.3.3, 8.5.3.3.4.2).
#[inline(always)]
pub(crate) fn put_totals(sums: i32x8, out: &mut [u8])
    requires eight { length sums ≡ 8 }
    requires range { (j : ℕ) → unsigned_abs (lane sums j) ≤ 3670016 }
    requires room { length out.old ≡ 8 }
    ensures count { length out.new ≡ 8 }
    ensures each { (j : ℕ) → j < 8 →
        slice_index_or out.new j 0 ≡ weighted_sample (int_shr (lane sums j) 6) }
{
    put_clipped(clipped(means(sums)), out);
}
