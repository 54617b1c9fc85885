//! A window onto a reference, where coordinates outside stand for the nearest inside.
ghost use Rattle.std.specs.Prelude.{◌≡◌, ℕ, ◌+◌, ◌-◌, ◌*◌, ◌<◌, ◌≤◌, true, length, pos, ◌+ℤ◌, slice_index_or};
ghost use Rattle.std.specs.Int.RustNames.{unsigned_abs};
ghost use Rattle.hv_lemmas.specs.Clipping.{clip3};
ghost use Rattle.hv_types.specs.Samples.{sample_at};
ghost use Rattle.hv_interp.specs.Windows.{Shows, nearest_in};

use hv_types::Plane;

/// Whether so many samples from a coordinate on lie inside a side.
#[inline(always)]
pub(crate) fn is_inside(coordinate: i64, count: usize, side: u32) -> bool
    requires near { unsigned_abs coordinate ≤ 8589934592 }
    requires most { count ≤ 71 }
    ensures begins { result ≡ true → coordinate ≡ pos (unsigned_abs coordinate) }
    ensures ends { result ≡ true → unsigned_abs coordinate + count ≤ side }
{
    0 <= coordinate && coordinate + count as i64 <= i64::from(side)
}

/// The coordinate inside a side that is nearest to the one `ahead` of another.
#[inline(always)]
fn nearest(coordinate: i64, ahead: usize, side: u32) -> u32
    requires near { unsigned_abs coordinate ≤ 8589934592 }
    requires most { ahead ≤ 71 }
    requires some { 0 < side }
    ensures value { result ≡ nearest_in side (coordinate +ℤ pos ahead) }
    ensures inside { result < side }
{
    (coordinate + ahead as i64).clamp(0, i64::from(side - 1)) as u32
}

/// Fills a row with the samples of row `row` from column `column` on, all of which are there.
#[inline(always)]
fn copy_row(reference: &Plane, column: usize, row: u32, out: &mut [u8])
    requires across { column + length out.old ≤ reference.now.width }
    requires down { row < reference.now.height }
    ensures count { length out.new ≡ length out.old }
    ensures each { (i : ℕ) → i < length out.old →
        slice_index_or out.new i 0 ≡ sample_at reference.now (column + i) row }
{
    let start = row as usize * reference.width() as usize + column;
    out.copy_from_slice(&reference.samples()[start..start + out.len()]);
}

/// Fills a row with the samples of row `row` from column `x` on, the nearest one where there is
/// none.
#[inline(always)]
fn put_near(reference: &Plane, x: i64, row: u32, out: &mut [u8])
    requires near { unsigned_abs x ≤ 8589934592 }
    requires down { row < reference.now.height }
    requires most { length out.old ≤ 71 }
    ensures count { length out.new ≡ length out.old }
    ensures each { (i : ℕ) → i < length out.old → slice_index_or out.new i 0 ≡
        sample_at reference.now (nearest_in reference.now.width (x +ℤ pos i)) row }
{
    let (samples, width) = (reference.samples(), reference.width());
    let start = row as usize * width as usize;
    for i in 0..out.len() {
        out[i] = samples[start + nearest(x, i, width) as usize];
    }
}

/// Fills a row with the samples of row `row` from column `x` on, the nearest one where there is
/// none: all of them at once where they are there.
#[inline(always)]
fn put_row(reference: &Plane, x: i64, row: u32, out: &mut [u8])
    requires near { unsigned_abs x ≤ 8589934592 }
    requires down { row < reference.now.height }
    requires most { length out.old ≤ 71 }
    ensures count { length out.new ≡ length out.old }
    ensures each { (i : ℕ) → i < length out.old → slice_index_or out.new i 0 ≡
        sample_at reference.now (nearest_in reference.now.width (x +ℤ pos i)) row }
{
    if is_inside(x, out.len(), reference.width()) {
        copy_row(reference, x.unsigned_abs() as usize, row, out);
    } else {
        put_near(reference, x, row, out);
    }
}

/// Copies a square of this side, 71 at most, from column `x` of row `y` of a reference on, by rows.
pub(crate) fn copy_window(reference: &Plane, x: i64, y: i64, side: usize, window: &mut [u8])
    requires x { unsigned_abs x ≤ 8589934592 }
    requires y { unsigned_abs y ≤ 8589934592 }
    requires most { side ≤ 71 }
    requires room { length window.old ≡ side * side }
    ensures { Shows reference.now x y side side window.new side }
{
    for j in 0..side {
        let row = nearest(y, j, reference.height());
        put_row(reference, x, row, &mut window[j * side..j * side + side]);
    }
}
