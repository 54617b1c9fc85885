//! Inter prediction of a block (8.5.3.3.3, 8.5.3.3.4.2).
ghost use Rattle.std.specs.Prelude.{◌≡◌, ◌+◌, ◌-◌, ◌*◌, ◌/◌, ◌%◌, ◌^◌, ◌<◌, ◌≤◌, length, pos, ◌+ℤ◌, ◌-ℤ◌};
ghost use Rattle.std.specs.Int.{int_shr, int_rem_euclid};
ghost use Rattle.std.specs.Int.RustNames.{unsigned_abs};
ghost use Rattle.hv_inter_model.specs.Interpolation.{inter_predicted};
ghost use Rattle.hv_interp.specs.Windows.{reference_from};
ghost use Rattle.hv_interp.specs.Filters.{HasFirst, predicted, weight_of};

use crate::interpolate::interpolate;
use crate::taps::{chroma_taps, luma_taps};
use crate::window::{copy_window, is_inside};
use hv_plan::Mv;
use hv_types::Plane;

/// The fraction of a component of a vector, of so many bits.
#[inline(always)]
fn fraction(mv: i16, bits: u32) -> u8
    requires { bits ≤ 3 }
    ensures value { result ≡ unsigned_abs (int_rem_euclid mv (pos (2 ^ bits))) }
    ensures most { result < 2 ^ bits }
{
    mv.rem_euclid(1 << bits) as u8
}

/// Where the window of a block begins: `before` samples before the whole place that the vector
/// gives.
#[inline(always)]
fn start(place: u32, mv: i16, bits: u32, before: usize) -> i64
    requires bits { bits ≤ 3 }
    requires before { before ≤ 3 }
    ensures value { result ≡ pos place +ℤ int_shr mv bits -ℤ pos before }
    ensures most { unsigned_abs result ≤ 8589934592 }
{
    i64::from(place) + i64::from(mv >> bits) - before as i64
}

/// Predicts a block of `size` columns and rows by a copy of its window, which begins in column `x`
/// of row `y` of the reference, with room for the window.
#[inline(never)]
fn predict_by_copy_in<const T: usize, const ROOM: usize>(
    reference: &Plane,
    x: i64,
    y: i64,
    across: &[i8; T],
    down: &[i8; T],
    right: u8,
    below: u8,
    before: usize,
    size: usize,
    out: &mut [u8],
)
    requires before { 2 * before + 2 ≡ T }
    requires most { T ≤ 8 }
    requires across_light { weight_of across.now ≤ 112 }
    requires down_light { weight_of down.now ≤ 112 }
    requires x { unsigned_abs x ≤ 8589934592 }
    requires y { unsigned_abs y ≤ 8589934592 }
    requires size { size ≤ 64 }
    requires enough { (size + T - 1) * (size + T - 1) ≤ ROOM }
    requires room_most { ROOM ≤ 5041 }
    requires room { length out.old ≡ size * size }
    ensures { HasFirst 0 (size * size)
        (predicted before right below across.now down.now (reference_from reference.now x y) size)
        out.new }
{
    let side = size + T - 1;
    let mut room = [0; ROOM];
    let window = &mut room[..side * side];
    copy_window(reference, x, y, side, window);
    interpolate(across, down, right, below, before, window, side, size, out);
}

/// Predicts a block of `size` columns and rows by a copy of its window, which begins in column `x`
/// of row `y` of the reference.
///
/// Each size has a function with room of its own, so that no call clears more than its share.
fn predict_by_copy<const T: usize>(
    reference: &Plane,
    x: i64,
    y: i64,
    across: &[i8; T],
    down: &[i8; T],
    right: u8,
    below: u8,
    before: usize,
    size: usize,
    out: &mut [u8],
)
    requires before { 2 * before + 2 ≡ T }
    requires most { T ≤ 8 }
    requires across_light { weight_of across.now ≤ 112 }
    requires down_light { weight_of down.now ≤ 112 }
    requires x { unsigned_abs x ≤ 8589934592 }
    requires y { unsigned_abs y ≤ 8589934592 }
    requires size { size ≤ 64 }
    requires room { length out.old ≡ size * size }
    ensures { HasFirst 0 (size * size)
        (predicted before right below across.now down.now (reference_from reference.now x y) size)
        out.new }
{
    if size <= 8 {
        predict_by_copy_in::<T, 225>(
            reference, x, y, across, down, right, below, before, size, out,
        );
    } else if size <= 16 {
        predict_by_copy_in::<T, 529>(
            reference, x, y, across, down, right, below, before, size, out,
        );
    } else if size <= 32 {
        predict_by_copy_in::<T, 1521>(
            reference, x, y, across, down, right, below, before, size, out,
        );
    } else {
        predict_by_copy_in::<T, 5041>(
            reference, x, y, across, down, right, below, before, size, out,
        );
    }
}

/// Predicts a block of `size` columns and rows, whose window begins in column `x` of row `y` of the
/// reference.
#[inline(always)]
fn predict_from<const T: usize>(
    reference: &Plane,
    x: i64,
    y: i64,
    across: &[i8; T],
    down: &[i8; T],
    right: u8,
    below: u8,
    before: usize,
    size: usize,
    out: &mut [u8],
)
    requires before { 2 * before + 2 ≡ T }
    requires most { T ≤ 8 }
    requires across_light { weight_of across.now ≤ 112 }
    requires down_light { weight_of down.now ≤ 112 }
    requires x { unsigned_abs x ≤ 8589934592 }
    requires y { unsigned_abs y ≤ 8589934592 }
    requires size { size ≤ 64 }
    requires room { length out.old ≡ size * size }
    ensures { HasFirst 0 (size * size)
        (predicted before right below across.now down.now (reference_from reference.now x y) size)
        out.new }
{
    let side = size + T - 1;
    if is_inside(x, side, reference.width()) && is_inside(y, side, reference.height()) {
        let window = reference.window(x as u32, y as u32, side as u32, side as u32);
        let (samples, stride) = (window.samples, window.stride);
        interpolate(
            across, down, right, below, before, samples, stride, size, out,
        );
    } else {
        predict_by_copy(
            reference, x, y, across, down, right, below, before, size, out,
        );
    }
}

/// The prediction of a block of `size` columns and rows of one component from a reference
/// (8.5.3.3.3, 8.5.3.3.4.2).
///
/// Its first sample is in column `x` of row `y` of the component, in samples of its own. The vector
/// is in quarters of a luma sample, and so in eighths of a chroma sample. It may lead anywhere:
/// outside of the reference stands the nearest sample inside. `size` is 64 at most, and `out` has a
/// member for each sample, by rows. No memory is taken.
pub fn predict_inter(
    reference: &Plane,
    luma: bool,
    x: u32,
    y: u32,
    size: u8,
    mv: Mv,
    out: &mut [u8],
)
    requires most { size ≤ 64 }
    requires room { length out.old ≡ size * size }
    ensures { out.new ≡ inter_predicted luma reference.now mv x y size }
{
    let size = usize::from(size);
    if luma {
        let right = fraction(mv.x, 2);
        let below = fraction(mv.y, 2);
        let column = start(x, mv.x, 2, 3);
        let row = start(y, mv.y, 2, 3);
        let (across, down) = (luma_taps(right), luma_taps(below));
        predict_from(
            reference, column, row, across, down, right, below, 3, size, out,
        );
    } else {
        let right = fraction(mv.x, 3);
        let below = fraction(mv.y, 3);
        let column = start(x, mv.x, 3, 1);
        let row = start(y, mv.y, 3, 1);
        let (across, down) = (chroma_taps(right), chroma_taps(below));
        predict_from(
            reference, column, row, across, down, right, below, 1, size, out,
        );
    }
}
