//! The filter of columns, over rows that are woven with the next.
ghost use Rattle.std.specs.Prelude.{ℕ, ◌≡◌, ◌+◌, ◌-◌, ◌*◌, ◌/◌, ◌^◌, ◌<◌, ◌≤◌, length, slice_index_or};
ghost use Rattle.hv_inter_model.specs.Interpolation.{weighted_sample};
ghost use Rattle.hv_interp.specs.Filters.{HasFirst, HoldsTaps, filtered, paired_place, placed_sum, weight_of, woven_place};
ghost use Rattle.hv_interp.specs.Lanes.{AreSpread};

use crate::lanes::put_16_samples;
use crate::pairs::{sixteen_paired_sums, spread};
use std::simd::prelude::*;

/// Weaves sixteen samples with sixteen others.
#[inline(always)]
fn weave_16(samples: &[u8], others: &[u8], out: &mut [u8])
    requires samples { length samples.now ≡ 16 }
    requires others { length others.now ≡ 16 }
    requires room { length out.old ≡ 32 }
    ensures count { length out.new ≡ 32 }
    ensures even { (i : ℕ) → i < 16 →
        slice_index_or out.new (2 * i) 0 ≡ slice_index_or samples.now i 0 }
    ensures odd { (i : ℕ) → i < 16 →
        slice_index_or out.new (2 * i + 1) 0 ≡ slice_index_or others.now i 0 }
{
    #[rattlefmt::skip]
    let woven = u8x16::from_slice(samples).shuffle(
        u8x16::from_slice(others),
        [
            0, 16, 1, 17, 2, 18, 3, 19, 4, 20, 5, 21, 6, 22, 7, 23,
            8, 24, 9, 25, 10, 26, 11, 27, 12, 28, 13, 29, 14, 30, 15, 31,
        ],
    );
    woven.copy_to_slice(out);
}

/// Weaves rows of `size` samples with the next ones: so many rows, one behind the other.
fn weave_rows(samples: &[u8], stride: usize, size: usize, rows: usize, woven: &mut [u8])
    requires stride { stride < 2 ^ 32 }
    requires size { size ≤ 64 }
    requires sixteens { 16 * (size / 16) ≡ size }
    requires rows { rows ≤ 70 }
    requires inside { (y : ℕ) → y ≤ rows → y * stride + size ≤ length samples.now }
    requires room { rows * (2 * size) ≤ length woven.old }
    ensures { HasFirst 0 (rows * (2 * size))
        (λ k. slice_index_or samples.now (woven_place size stride k) 0) woven.new }
{
    for y in 0..rows {
        for g in 0..size / 16 {
            let from = y * stride + 16 * g;
            let next = (y + 1) * stride + 16 * g;
            let to = y * (2 * size) + 32 * g;
            weave_16(
                &samples[from..from + 16],
                &samples[next..next + 16],
                &mut woven[to..to + 32],
            );
        }
    }
}

/// Filters a block of `size` columns and rows down its columns, from its rows woven with the next.
///
/// It isn't inlined, so that the compiler doesn't know the taps, and multiplies pairs.
#[inline(never)]
fn filter_woven<const T: usize>(
    taps: &[i8; T],
    spread: &[i8; 64],
    woven: &[u8],
    size: usize,
    out: &mut [u8],
)
    requires some { 0 < T }
    requires most { T ≤ 8 }
    requires even { 2 * (T / 2) ≡ T }
    requires light { weight_of taps.now ≤ 112 }
    requires spread { AreSpread T taps.now spread.now }
    requires size { size ≤ 64 }
    requires sixteens { 16 * (size / 16) ≡ size }
    requires inside { (size + T - 2) * (2 * size) ≤ length woven.now }
    requires room { length out.old ≡ size * size }
    ensures { HasFirst 0 (size * size)
        (λ k. weighted_sample (placed_sum taps.now woven.now (paired_place (2 * k) (4 * size))))
        out.new }
{
    let step = 4 * size;
    for g in 0..size * size / 32 {
        let first = sixteen_paired_sums(taps, spread, woven, 64 * g, step);
        let second = sixteen_paired_sums(taps, spread, woven, 64 * g + 32, step);
        put_16_samples(first, &mut out[32 * g..32 * g + 16]);
        put_16_samples(second, &mut out[32 * g + 16..32 * g + 32]);
    }
}

/// Filters a block of `size` columns and rows down its columns, with room for its rows woven with
/// the next.
#[inline(never)]
pub(crate) fn filter_columns_in<const T: usize, const ROOM: usize>(
    taps: &[i8; T],
    samples: &[u8],
    stride: usize,
    size: usize,
    out: &mut [u8],
)
    requires some { 0 < T }
    requires most { T ≤ 8 }
    requires even { 2 * (T / 2) ≡ T }
    requires light { weight_of taps.now ≤ 112 }
    requires stride { stride < 2 ^ 32 }
    requires size_some { 0 < size }
    requires size { size ≤ 64 }
    requires sixteens { 16 * (size / 16) ≡ size }
    requires inside { HoldsTaps samples.now stride stride T size size }
    requires enough { (size + T - 2) * (2 * size) ≤ ROOM }
    requires room_most { ROOM ≤ 8960 }
    requires room { length out.old ≡ size * size }
    ensures { HasFirst 0 (size * size) (filtered taps.now samples.now stride stride size) out.new }
{
    let mut woven = [0; ROOM];
    weave_rows(samples, stride, size, size + T - 2, &mut woven);
    filter_woven(taps, &spread(taps), &woven, size, out);
}
