//! Sums of taps times samples in pairs, in lanes of 16 bits.
ghost use Rattle.std.specs.Prelude.{ℕ, ◌≡◌, ◌+◌, ◌*◌, ◌/◌, ◌^◌, ◌<◌, ◌≤◌, length, ◌+ℤ◌};
ghost use Rattle.std.specs.Int.RustNames.{FitsSigned, unsigned_abs};
ghost use mir.Syntax.{w16};
ghost use Rattle.hv_interp.specs.Filters.{paired_place, placed_sum, strided_sum, weight_of};
ghost use Rattle.hv_interp.specs.Lanes.{ArePairsLight, AreSpread, lane, of_neighbours};

use crate::lanes::no_sums;
use hv_lanes::clipped;
use std::simd::prelude::*;

/// Each pair of taps eight times, one pair behind the other.
pub(crate) fn spread<const T: usize>(taps: &[i8; T]) -> [i8; 64]
    requires most { T ≤ 8 }
    requires even { 2 * (T / 2) ≡ T }
    ensures { AreSpread T taps.now result }
{
    let mut spread = [0; 64];
    for k in 0..8 * T {
        spread[k] = taps[k / 16 * 2 + k % 2];
    }
    spread
}

/// Two taps times two neighbours each of sixteen samples: eight sums.
#[inline(always)]
fn products(samples: &[u8], taps: &[i8]) -> i32x8
    requires samples { length samples.now ≡ 16 }
    requires taps { length taps.now ≡ 16 }
    requires light { ArePairsLight taps.now }
    ensures count { length result ≡ 8 }
    ensures each { (j : ℕ) → j < 8 → lane result j ≡ of_neighbours taps.now samples.now j }
    ensures range { (j : ℕ) → unsigned_abs (lane result j) ≤ 28560 }
{
    let samples = u8x16::from_slice(samples);
    let taps = i8x16::from_slice(taps);
    let first = samples.swizzle([0, 2, 4, 6, 8, 10, 12, 14]).cast::<i32>()
        * taps.swizzle([0, 2, 4, 6, 8, 10, 12, 14]).cast::<i32>();
    let second = samples.swizzle([1, 3, 5, 7, 9, 11, 13, 15]).cast::<i32>()
        * taps.swizzle([1, 3, 5, 7, 9, 11, 13, 15]).cast::<i32>();
    first + second
}

/// Adds two taps times two neighbours each of sixteen samples to eight sums.
#[inline(always)]
fn add_neighbours(sums: i16x8, samples: &[u8], taps: &[i8]) -> i16x8
    requires eight { length sums ≡ 8 }
    requires samples { length samples.now ≡ 16 }
    requires taps { length taps.now ≡ 16 }
    requires light { ArePairsLight taps.now }
    requires before { (j : ℕ) → FitsSigned w16 (lane sums j) }
    requires after { (j : ℕ) → j < 8 →
        FitsSigned w16 (lane sums j +ℤ of_neighbours taps.now samples.now j) }
    ensures count { length result ≡ 8 }
    ensures each { (j : ℕ) → j < 8 →
        lane result j ≡ lane sums j +ℤ of_neighbours taps.now samples.now j }
{
    sums + clipped(products(samples, taps))
}

/// Eight sums of taps times samples, from place `at` and every second one behind it on: each pair
/// of taps meets two neighbours, `step` behind those of the pair before.
#[inline(always)]
pub(crate) fn paired_sums<const T: usize>(
    taps: &[i8; T],
    spread: &[i8; 64],
    samples: &[u8],
    at: usize,
    step: usize,
) -> i16x8
    requires most { T ≤ 8 }
    requires even { 2 * (T / 2) ≡ T }
    requires light { weight_of taps.now ≤ 112 }
    requires spread { AreSpread T taps.now spread.now }
    requires at { at < 2 ^ 48 }
    requires step { step < 2 ^ 32 }
    requires inside { (p : ℕ) → p < T / 2 → at + p * step + 16 ≤ length samples.now }
    ensures count { length result ≡ 8 }
    ensures each { (j : ℕ) → j < 8 →
        lane result j ≡ placed_sum taps.now samples.now (paired_place (at + 2 * j) step) }
    ensures range { (j : ℕ) → unsigned_abs (lane result j) ≤ 28560 }
{
    let mut sums = no_sums();
    for p in 0..taps.len() / 2 {
        let from = at + p * step;
        sums = add_neighbours(
            sums,
            &samples[from..from + 16],
            &spread[16 * p..16 * p + 16],
        );
    }
    sums
}

/// Twice eight lanes in turn.
#[inline(always)]
fn in_turn(even: i16x8, odd: i16x8) -> i16x16
    requires even_eight { length even ≡ 8 }
    requires odd_eight { length odd ≡ 8 }
    requires even_numbers { (j : ℕ) → FitsSigned w16 (lane even j) }
    requires odd_numbers { (j : ℕ) → FitsSigned w16 (lane odd j) }
    ensures count { length result ≡ 16 }
    ensures even { (j : ℕ) → j < 8 → lane result (2 * j) ≡ lane even j }
    ensures odd { (j : ℕ) → j < 8 → lane result (2 * j + 1) ≡ lane odd j }
{
    even.shuffle(odd, [0, 8, 1, 9, 2, 10, 3, 11, 4, 12, 5, 13, 6, 14, 7, 15])
}

/// Sixteen sums of taps times samples along a row, from place `at` and the next fifteen on.
#[inline(always)]
pub(crate) fn sixteen_sums<const T: usize>(
    taps: &[i8; T],
    spread: &[i8; 64],
    samples: &[u8],
    at: usize,
) -> i16x16
    requires most { T ≤ 8 }
    requires even { 2 * (T / 2) ≡ T }
    requires light { weight_of taps.now ≤ 112 }
    requires spread { AreSpread T taps.now spread.now }
    requires at { at < 2 ^ 47 }
    requires inside { at + T + 15 ≤ length samples.now }
    ensures count { length result ≡ 16 }
    ensures each { (j : ℕ) → j < 16 →
        lane result j ≡ strided_sum taps.now samples.now (at + j) 1 }
    ensures range { (j : ℕ) → unsigned_abs (lane result j) ≤ 28560 }
{
    let even = paired_sums(taps, spread, samples, at, 2);
    let odd = paired_sums(taps, spread, samples, at + 1, 2);
    in_turn(even, odd)
}

/// Eight lanes, and eight more behind them.
#[inline(always)]
fn in_order(low: i16x8, high: i16x8) -> i16x16
    requires low_eight { length low ≡ 8 }
    requires high_eight { length high ≡ 8 }
    requires low_numbers { (j : ℕ) → FitsSigned w16 (lane low j) }
    requires high_numbers { (j : ℕ) → FitsSigned w16 (lane high j) }
    ensures count { length result ≡ 16 }
    ensures low { (j : ℕ) → j < 8 → lane result j ≡ lane low j }
    ensures high { (j : ℕ) → j < 8 → lane result (8 + j) ≡ lane high j }
{
    low.shuffle(high, [0, 1, 2, 3, 4, 5, 6, 7, 8, 9, 10, 11, 12, 13, 14, 15])
}

/// Sixteen sums, as `paired_sums` has eight.
#[inline(always)]
pub(crate) fn sixteen_paired_sums<const T: usize>(
    taps: &[i8; T],
    spread: &[i8; 64],
    samples: &[u8],
    at: usize,
    step: usize,
) -> i16x16
    requires most { T ≤ 8 }
    requires even { 2 * (T / 2) ≡ T }
    requires light { weight_of taps.now ≤ 112 }
    requires spread { AreSpread T taps.now spread.now }
    requires at { at < 2 ^ 47 }
    requires step { step < 2 ^ 32 }
    requires inside { (p : ℕ) → p < T / 2 → at + p * step + 32 ≤ length samples.now }
    ensures count { length result ≡ 16 }
    ensures each { (j : ℕ) → j < 16 →
        lane result j ≡ placed_sum taps.now samples.now (paired_place (at + 2 * j) step) }
    ensures range { (j : ℕ) → unsigned_abs (lane result j) ≤ 28560 }
{
    let low = paired_sums(taps, spread, samples, at, step);
    let high = paired_sums(taps, spread, samples, at + 16, step);
    in_order(low, high)
}
