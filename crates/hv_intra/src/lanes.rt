//! Samples between reference samples (8.4.4.2.6), in lanes of 16 bits, which wrap.
//!
//! The sample that is `part` 32nds of the way from a to b is a 256th of
//! `256 * a + 128 + 8 * part * (b - a)`. What doesn't depend on the part is made once a block, for
//! each reference sample: its base `256 * a + 128`, and its step `b - a` to the next one.

ghost use Rattle.std.specs.Prelude.{◌≡◌, ◌⊎◌, ℕ, ◌+◌, ◌*◌, ◌/◌, ◌%◌, ◌^◌, ◌<◌, ◌≤◌, length, slice_index, map, replicate};
ghost use Rattle.hv_intra.specs.Blocks.{IsRow};
ghost use Rattle.hv_intra.specs.Lanes.{base, step, stepped, base_at, step_at, step_from, stepped_at};
ghost use lib.Lanes.{zip2};

use crate::neighbours::Side;
use crate::reference::PLACES;
use std::simd::prelude::*;

/// Copies N samples. The compiler knows of lanes that were loaded that what is written doesn't
/// change them.
#[inline(always)]
pub(crate) fn copy_run<const N: usize>(from: &[u8], to: &mut [u8])
    requires from { length from.now ≡ N }
    requires to { length to.old ≡ N }
    ensures { to.new ≡ from.now }
{
    Simd::<u8, N>::from_slice(from).copy_to_slice(to);
}

/// The bases of reference samples.
#[inline(always)]
fn bases_of(samples: u8x8) -> u16x8
    ensures { result ≡ map base samples }
{
    samples.cast::<u16>() * u16x8::splat(256) + u16x8::splat(128)
}

/// The steps from reference samples to the next ones.
#[inline(always)]
fn steps_of(samples: u8x8, next: u8x8) -> u16x8
    ensures { result ≡ zip2 step samples next }
{
    next.cast::<u16>() - samples.cast::<u16>()
}

/// What lies a weight, in 256ths, of each step behind its base. The lanes of `weights` are all the
/// same.
#[inline(always)]
pub(crate) fn between<const N: usize>(
    bases: Simd<u16, N>,
    steps: Simd<u16, N>,
    weights: Simd<u16, N>,
) -> Simd<u8, N>
    ensures { (w : ℕ) → weights.entry ≡ replicate N w →
        result ≡ zip2 (stepped w) bases.entry steps.entry }
{
    ((bases + weights * steps) >> Simd::<u16, N>::splat(8)).cast::<u8>()
}

/// How far a mode's line has come a row further on, in 2048ths of a 32nd of a sample: whole samples
/// are lost.
#[inline(always)]
pub(crate) fn further(ways: u16x16, turn: u16x16) -> u16x16
    ensures { (a b : ℕ) → ways ≡ replicate 16 a → turn ≡ replicate 16 b →
        result ≡ replicate 16 ((a + b) % 65536) }
{
    ways + turn
}

/// The weights, in 256ths, of so long a way.
#[inline(always)]
pub(crate) fn weights_of(ways: u16x16) -> u16x16
    ensures { (a : ℕ) → ways ≡ replicate 16 a → result ≡ replicate 16 (a / 256) }
{
    ways >> u16x16::splat(8)
}

/// Eight of sixteen lanes.
#[inline(always)]
fn eight_of(weights: u16x16) -> u16x8
    ensures { (w : ℕ) → weights ≡ replicate 16 w → result ≡ replicate 8 w }
{
    weights.swizzle([0, 1, 2, 3, 4, 5, 6, 7])
}

/// The bases and steps of eight reference samples.
#[inline(always)]
fn prepare_eight(samples: &[u8], next: &[u8], bases: &mut [u16], steps: &mut [u16])
    requires samples { length samples.now ≡ 8 }
    requires next { length next.now ≡ 8 }
    requires bases { length bases.old ≡ 8 }
    requires steps { length steps.old ≡ 8 }
    ensures bases { IsRow 8 (base_at samples.now) bases.new }
    ensures steps { IsRow 8 (step_at samples.now next.now) steps.new }
{
    let samples = u8x8::from_slice(samples);
    bases_of(samples).copy_to_slice(bases);
    steps_of(samples, u8x8::from_slice(next)).copy_to_slice(steps);
}

/// Writes N samples between reference samples.
#[inline(always)]
fn fill_run<const N: usize>(bases: &[u16], steps: &[u16], weights: Simd<u16, N>, out: &mut [u8])
    requires bases { length bases.now ≡ N }
    requires steps { length steps.now ≡ N }
    requires room { length out.old ≡ N }
    ensures { (w : ℕ) → weights.entry ≡ replicate N w →
        IsRow N (stepped_at bases.now steps.now w) out.new }
{
    let bases = Simd::<u16, N>::from_slice(bases);
    between(bases, Simd::<u16, N>::from_slice(steps), weights).copy_to_slice(out);
}

/// The bases and steps of all reference samples of a block, in eights.
#[inline(always)]
pub(crate) fn prepare(reference: &[u8; PLACES], side: Side, bases: &mut [u16], steps: &mut [u16])
    requires bases { length bases.old ≡ 3 * 2 ^ side.log2 + 8 }
    requires steps { length steps.old ≡ 3 * 2 ^ side.log2 + 8 }
    ensures bases { IsRow (3 * 2 ^ side.log2 + 1) (base_at reference.now) bases.new }
    ensures steps { IsRow (3 * 2 ^ side.log2 + 1) (step_from reference.now) steps.new }
{
    for g in 0..3 * side.count() / 8 + 1 {
        prepare_eight(
            &reference[8 * g..8 * g + 8],
            &reference[8 * g + 1..8 * g + 9],
            &mut bases[8 * g..8 * g + 8],
            &mut steps[8 * g..8 * g + 8],
        );
    }
}

/// A row of 8, 16 or 32 samples, from its first base and step on. The lanes of `weights` are all
/// the same.
#[inline(always)]
pub(crate) fn fill_row_in_lanes(
    bases: &[u16],
    steps: &[u16],
    first: usize,
    weights: u16x16,
    row: &mut [u8],
)
    requires bases { first + length row.old ≤ length bases.now }
    requires steps { first + length row.old ≤ length steps.now }
    requires lanes { (length row.old ≡ 8) ⊎ (16 * (length row.old / 16) ≡ length row.old) }
    ensures { (w : ℕ) → weights ≡ replicate 16 w → IsRow (length row.old)
        (λ x. stepped_at bases.now steps.now w (first + x)) row.new }
{
    let n = row.len();
    if n == 8 {
        let eight = eight_of(weights);
        fill_run::<8>(
            &bases[first..first + 8],
            &steps[first..first + 8],
            eight,
            row,
        );
    } else {
        for g in 0..n / 16 {
            let from = first + 16 * g;
            fill_run::<16>(
                &bases[from..from + 16],
                &steps[from..from + 16],
                weights,
                &mut row[16 * g..16 * g + 16],
            );
        }
    }
}
