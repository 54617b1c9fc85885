//! Sums of taps times samples, in eight lanes.
ghost use Rattle.std.specs.Prelude.{ℕ, ◌≡◌, ◌+◌, ◌-◌, ◌*◌, ◌^◌, ◌<◌, ◌≤◌, length, slice_index_or, pos};
ghost use Rattle.std.specs.Int.RustNames.{FitsSigned, unsigned_abs};
ghost use mir.Syntax.{w16};
ghost use Rattle.hv_inter_model.specs.Interpolation.{weighted_sample};
ghost use Rattle.hv_interp.specs.Filters.{strided_sum, weight_of};
ghost use Rattle.hv_interp.specs.Lanes.{lane, with_tap};

use std::simd::prelude::*;

/// Adds a tap times eight samples to eight sums.
#[inline(always)]
fn add_tap(sums: i16x8, tap: i16, samples: &[u8]) -> i16x8
    requires eight { length sums ≡ 8 }
    requires samples { length samples.now ≡ 8 }
    requires before { (j : ℕ) → FitsSigned w16 (lane sums j) }
    requires after { (j : ℕ) → FitsSigned w16 (with_tap sums tap samples.now j) }
    ensures count { length result ≡ 8 }
    ensures each { (j : ℕ) → j < 8 → lane result j ≡ with_tap sums tap samples.now j }
{
    sums + i16x8::splat(tap) * u8x8::from_slice(samples).cast::<i16>()
}

/// Eight sums of 0.
#[inline(always)]
pub(crate) fn no_sums() -> i16x8
    ensures count { length result ≡ 8 }
    ensures each { (j : ℕ) → lane result j ≡ pos 0 }
{
    i16x8::splat(0)
}

/// Eight sums of taps times samples, from place `at` and the next seven on, each `step` behind the
/// other.
#[inline(always)]
pub(crate) fn eight_sums<const T: usize>(
    taps: &[i8; T],
    samples: &[u8],
    at: usize,
    step: usize,
) -> i16x8
    requires some { 0 < T }
    requires most { T ≤ 8 }
    requires light { weight_of taps.now ≤ 112 }
    requires at { at < 2 ^ 48 }
    requires step { step < 2 ^ 48 }
    requires inside { at + (T - 1) * step + 8 ≤ length samples.now }
    ensures count { length result ≡ 8 }
    ensures each { (j : ℕ) → j < 8 →
        lane result j ≡ strided_sum taps.now samples.now (at + j) step }
    ensures range { (j : ℕ) → unsigned_abs (lane result j) ≤ 28560 }
{
    let mut sums = no_sums();
    for k in 0..T {
        let from = at + k * step;
        sums = add_tap(sums, i16::from(taps[k]), &samples[from..from + 8]);
    }
    sums
}

/// Writes eight samples of 14 bits, rounded to 8 (8.5.3.3.4.2).
#[inline(always)]
pub(crate) fn put_samples(sums: i16x8, out: &mut [u8])
    requires eight { length sums ≡ 8 }
    requires range { (j : ℕ) → unsigned_abs (lane sums j) ≤ 28560 }
    requires room { length out.old ≡ 8 }
    ensures count { length out.new ≡ 8 }
    ensures each { (j : ℕ) → j < 8 →
        slice_index_or out.new j 0 ≡ weighted_sample (lane sums j) }
{
    ((sums + i16x8::splat(32)) >> i16x8::splat(6))
        .simd_clamp(i16x8::splat(0), i16x8::splat(255))
        .cast::<u8>()
        .copy_to_slice(out);
}

/// The same of sixteen.
#[inline(always)]
pub(crate) fn put_16_samples(sums: i16x16, out: &mut [u8])
    requires sixteen { length sums ≡ 16 }
    requires range { (j : ℕ) → unsigned_abs (lane sums j) ≤ 28560 }
    requires room { length out.old ≡ 16 }
    ensures count { length out.new ≡ 16 }
    ensures each { (j : ℕ) → j < 16 →
        slice_index_or out.new j 0 ≡ weighted_sample (lane sums j) }
{
    ((sums + i16x16::splat(32)) >> i16x16::splat(6))
        .simd_clamp(i16x16::splat(0), i16x16::splat(255))
        .cast::<u8>()
        .copy_to_slice(out);
}

/// Writes sixteen samples of 14 bits from a slice, rounded to 8.
#[inline(always)]
pub(crate) fn round_16(sums: &[i16], out: &mut [u8])
    requires sixteen { length sums.now ≡ 16 }
    requires range { (j : ℕ) → unsigned_abs (lane sums.now j) ≤ 28560 }
    requires room { length out.old ≡ 16 }
    ensures count { length out.new ≡ 16 }
    ensures each { (j : ℕ) → j < 16 →
        slice_index_or out.new j 0 ≡ weighted_sample (lane sums.now j) }
{
    put_16_samples(i16x16::from_slice(sums), out);
}

/// Writes eight sums.
#[inline(always)]
pub(crate) fn put_sums(sums: i16x8, out: &mut [i16])
    requires eight { length sums ≡ 8 }
    requires range { (j : ℕ) → unsigned_abs (lane sums j) ≤ 28560 }
    requires room { length out.old ≡ 8 }
    ensures { out.new ≡ sums }
{
    sums.copy_to_slice(out);
}

/// Writes sixteen sums.
#[inline(always)]
pub(crate) fn put_16_sums(sums: i16x16, out: &mut [i16])
    requires sixteen { length sums ≡ 16 }
    requires range { (j : ℕ) → unsigned_abs (lane sums j) ≤ 28560 }
    requires room { length out.old ≡ 16 }
    ensures { out.new ≡ sums }
{
    sums.copy_to_slice(out);
}
