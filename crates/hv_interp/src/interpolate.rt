//! Interpolation over a window.
ghost use Rattle.std.specs.Prelude.{◌≡◌, ◌+◌, ◌-◌, ◌*◌, ◌/◌, ◌%◌, ◌^◌, ◌<◌, ◌≤◌, length};
ghost use Rattle.hv_types.specs.Windows.{HoldsBlock};
ghost use Rattle.hv_interp.specs.Windows.{sample_of};
ghost use Rattle.hv_interp.specs.Filters.{HasFirst, filtered_twice, predicted, weight_of};

use crate::filters::{copy_block, filter_columns, filter_rows, filter_sums, sum_rows};

/// Filters a block of `size` columns and rows along rows and then down columns, with room for the
/// sums between.
#[inline(never)]
fn filter_twice_in<const T: usize, const ROOM: usize>(
    across: &[i8; T],
    down: &[i8; T],
    samples: &[u8],
    stride: usize,
    size: usize,
    out: &mut [u8],
)
    requires some { 0 < T }
    requires most { T ≤ 8 }
    requires even { 2 * (T / 2) ≡ T }
    requires across_light { weight_of across.now ≤ 112 }
    requires down_light { weight_of down.now ≤ 112 }
    requires stride { stride < 2 ^ 32 }
    requires size { size ≤ 64 }
    requires inside { HoldsBlock samples.now stride (size + T - 1) (size + T - 1) }
    requires enough { (size + T - 1) * size ≤ ROOM }
    requires room_most { ROOM ≤ 4544 }
    requires room { length out.old ≡ size * size }
    ensures { HasFirst 0 (size * size)
        (filtered_twice across.now down.now samples.now stride size) out.new }
{
    let rows = size + T - 1;
    let mut sums = [0; ROOM];
    sum_rows(across, samples, stride, size, rows, &mut sums);
    let sums = &sums[..];
    filter_sums(down, &sums[..rows * size], size, size, out);
}

/// Filters a block of `size` columns and rows along rows and then down columns.
///
/// Each size has a function with room of its own, so that no call clears more than its share.
fn filter_twice<const T: usize>(
    across: &[i8; T],
    down: &[i8; T],
    samples: &[u8],
    stride: usize,
    size: usize,
    out: &mut [u8],
)
    requires some { 0 < T }
    requires most { T ≤ 8 }
    requires even { 2 * (T / 2) ≡ T }
    requires across_light { weight_of across.now ≤ 112 }
    requires down_light { weight_of down.now ≤ 112 }
    requires stride { stride < 2 ^ 32 }
    requires size { size ≤ 64 }
    requires inside { HoldsBlock samples.now stride (size + T - 1) (size + T - 1) }
    requires room { length out.old ≡ size * size }
    ensures { HasFirst 0 (size * size)
        (filtered_twice across.now down.now samples.now stride size) out.new }
{
    if size <= 8 {
        filter_twice_in::<T, 120>(across, down, samples, stride, size, out);
    } else if size <= 16 {
        filter_twice_in::<T, 368>(across, down, samples, stride, size, out);
    } else if size <= 32 {
        filter_twice_in::<T, 1248>(across, down, samples, stride, size, out);
    } else {
        filter_twice_in::<T, 4544>(across, down, samples, stride, size, out);
    }
}

/// Interpolates a block of `size` columns and rows, from samples that begin `before` columns and
/// rows before it.
pub(crate) fn interpolate<const T: usize>(
    across: &[i8; T],
    down: &[i8; T],
    right: u8,
    below: u8,
    before: usize,
    samples: &[u8],
    stride: usize,
    size: usize,
    out: &mut [u8],
)
    requires before { 2 * before + 2 ≡ T }
    requires most { T ≤ 8 }
    requires across_light { weight_of across.now ≤ 112 }
    requires down_light { weight_of down.now ≤ 112 }
    requires stride { stride < 2 ^ 32 }
    requires size { size ≤ 64 }
    requires inside { HoldsBlock samples.now stride (size + T - 1) (size + T - 1) }
    requires room { length out.old ≡ size * size }
    ensures { HasFirst 0 (size * size)
        (predicted before right below across.now down.now (sample_of samples.now stride) size)
        out.new }
{
    if right == 0 {
        if below == 0 {
            copy_block(&samples[before * stride + before..], stride, size, out);
        } else {
            filter_columns(down, &samples[before..], stride, size, out);
        }
    } else if below == 0 {
        filter_rows(across, &samples[before * stride..], stride, size, out);
    } else {
        filter_twice(across, down, samples, stride, size, out);
    }
}
