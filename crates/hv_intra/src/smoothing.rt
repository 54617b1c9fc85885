//! Filtering of the neighbours.

ghost use Rattle.std.specs.Prelude.{◌≡◌, ◌+◌, ◌*◌, ◌/◌, ◌^◌, ◌≤◌, length};
ghost use Rattle.hv_intra.specs.Blocks.{IsRow};
ghost use Rattle.hv_intra.specs.Lines.{weighted_at, all_weighted};
ghost use Rattle.hv_sample_model.specs.IntraPrediction.{is_smoothed, smoothed, filtered};

use crate::neighbours::{Neighbours, Side};
use std::simd::prelude::*;

/// Whether a mode predicts from filtered neighbours (8.4.4.2.3).
#[inline(always)]
fn is_smoothed(side: Side, mode: u8, luma: bool) -> bool
    ensures { result ≡ is_smoothed side.log2 mode luma }
{
    let threshold = match side.log2 {
        3 => 7,
        4 => 1,
        _ => 0,
    };
    let distance = mode.abs_diff(26).min(mode.abs_diff(10));
    luma && side.log2 >= 3 && mode != 1 && distance > threshold
}

/// Neighbours weighted 1, 2 and 1, in two means: of the outer ones rounded down, and of this and
/// the one between them rounded up.
#[inline(always)]
fn weighted(before: u8x16, samples: u8x16, next: u8x16) -> u8x16
    ensures { result ≡ all_weighted before samples next }
{
    let outer = (before.cast::<u16>() + next.cast::<u16>()) >> u16x16::splat(1);
    ((outer + samples.cast::<u16>() + u16x16::splat(1)) >> u16x16::splat(1)).cast::<u8>()
}

/// Sixteen neighbours from one on, weighted with those beside them.
#[inline(always)]
fn smooth_sixteen(line: &[u8], from: usize, out: &mut [u8])
    requires from { 1 ≤ from }
    requires inside { from + 17 ≤ length line.now }
    requires room { length out.old ≡ 16 }
    ensures { IsRow 16 (λ k. weighted_at line.now (from + k)) out.new }
{
    let before = u8x16::from_slice(&line[from - 1..from + 15]);
    let samples = u8x16::from_slice(&line[from..from + 16]);
    let next = u8x16::from_slice(&line[from + 1..from + 17]);
    weighted(before, samples, next).copy_to_slice(out);
}

/// Filters the neighbours of a block of 8 columns or more (8.4.4.2.3): each but the first and the
/// last is weighted with those beside it.
#[inline(always)]
fn smooth(line: &[u8], out: &mut [u8])
    requires some { 33 ≤ length line.now }
    requires sixteens { 16 * (length line.now / 16) + 1 ≡ length line.now }
    requires room { length out.old ≡ length line.now }
    ensures { out.new ≡ smoothed line.now }
{
    let last = out.len() - 1;
    for k in 0..last / 16 - 1 {
        smooth_sixteen(line, 16 * k + 1, &mut out[16 * k + 1..16 * k + 17]);
    }
    smooth_sixteen(line, last - 16, &mut out[last - 16..last]);
    out[0] = line[0];
    out[last] = line[last];
}

/// The neighbours that a mode predicts from (8.4.4.2.3): those of the line, as they are or
/// filtered. The loop and the copy take their length from `out`, which is an array.
#[inline(always)]
pub(crate) fn fill_filtered(neighbours: Neighbours<'_>, mode: u8, luma: bool, out: &mut [u8])
    requires { length out.old ≡ length neighbours.line.now }
    ensures { out.new ≡ filtered neighbours.entry.side.log2 mode luma neighbours.entry.line.now }
{
    if is_smoothed(neighbours.side, mode, luma) {
        smooth(neighbours.line, out);
    } else {
        out.copy_from_slice(&neighbours.line[..out.len()]);
    }
}
