//! Windows onto planes, where coordinates outside stand for the nearest inside.
ghost use Rattle.std.specs.Prelude.{◌≡◌, ℕ, ◌+◌, ◌*◌, ◌/◌, ◌<◌, ◌≤◌, true, length, pos, ◌+ℤ◌, ◌-ℤ◌, slice_index_or};
ghost use Rattle.std.specs.Int.RustNames.{unsigned_abs};
ghost use Rattle.hv_types.specs.Samples.{sample_at};
ghost use Rattle.hv_search_model.specs.MotionSearch.{nearest, quarter_size};
ghost use Rattle.hv_search.specs.Windows.{plane_of_grid, Shows};

use crate::grid::Grid;
use crate::source::Source;
use hv_types::Plane;

/// The samples of a plane.
#[inline(always)]
pub(crate) fn grid_of(plane: &Plane) -> Grid<'_>
    ensures { plane_of_grid result ≡ plane.now }
{
    Grid {
        samples: plane.samples(),
        width: plane.width(),
        height: plane.height(),
    }
}

/// The samples of the picture of quarter size.
#[inline(always)]
pub(crate) fn quarter_of(source: Source<'_>) -> Grid<'_>
    ensures value { plane_of_grid result ≡ quarter_size source.entry.luma.now }
    ensures width { result.width ≡ source.entry.luma.now.width / 4 }
    ensures height { result.height ≡ source.entry.luma.now.height / 4 }
{
    Grid {
        samples: source.samples,
        width: source.luma.width() / 4,
        height: source.luma.height() / 4,
    }
}

/// The coordinate `before` that to which a component of a vector in whole samples leads.
#[inline(always)]
pub(crate) fn corner(place: u32, component: i16, before: u8) -> i64
    ensures value { result ≡ pos place +ℤ component -ℤ pos before }
    ensures near { unsigned_abs result ≤ 8589934592 }
{
    i64::from(place) + i64::from(component) - i64::from(before)
}

/// The place on a side that is nearest to the one `ahead` of a coordinate.
#[inline(always)]
pub(crate) fn place_near(coordinate: i64, ahead: usize, side: u32) -> usize
    requires near { unsigned_abs coordinate ≤ 8589934592 }
    requires most { ahead ≤ 103 }
    requires some { 0 < side }
    ensures value { result ≡ nearest side (coordinate +ℤ pos ahead) }
    ensures inside { result < side }
{
    (coordinate + ahead as i64).clamp(0, i64::from(side - 1)) as usize
}

/// Whether so many columns from `x` on lie inside a picture of this width.
#[inline(always)]
fn lies_inside(x: i64, count: usize, width: u32) -> bool
    requires near { unsigned_abs x ≤ 8589934592 }
    requires most { count ≤ 104 }
    ensures from { result ≡ true → x ≡ pos (unsigned_abs x) }
    ensures to { result ≡ true → unsigned_abs x + count ≤ width }
{
    0 <= x && x + count as i64 <= i64::from(width)
}

/// Fills a row with the samples of row `row` from column `column` on, all of which it has.
#[inline(always)]
fn copy_row(grid: Grid, column: usize, row: usize, out: &mut [u8])
    requires across { column + length out.old ≤ grid.width }
    requires down { row < grid.height }
    ensures count { length out.new ≡ length out.old }
    ensures each { (i : ℕ) → i < length out.old → slice_index_or out.new i 0 ≡
        sample_at (plane_of_grid grid.entry) (column + i) row }
{
    let start = row * grid.width as usize + column;
    out.copy_from_slice(&grid.samples[start..start + out.len()]);
}

/// Fills a row with the samples of row `row` from column `x` on, the nearest one where it has none.
#[inline(always)]
fn put_near(grid: Grid, x: i64, row: usize, out: &mut [u8])
    requires near { unsigned_abs x ≤ 8589934592 }
    requires down { row < grid.height }
    requires most { length out.old ≤ 104 }
    ensures count { length out.new ≡ length out.old }
    ensures each { (i : ℕ) → i < length out.old → slice_index_or out.new i 0 ≡
        sample_at (plane_of_grid grid.entry) (nearest grid.entry.width (x +ℤ pos i)) row }
{
    let start = row * grid.width as usize;
    for i in 0..out.len() {
        out[i] = grid.samples[start + place_near(x, i, grid.width)];
    }
}

/// Fills a row with the samples of row `row` from column `x` on, the nearest one where it has none:
/// all of them at once where it has them.
#[inline(always)]
fn put_row(grid: Grid, x: i64, row: usize, out: &mut [u8])
    requires near { unsigned_abs x ≤ 8589934592 }
    requires down { row < grid.height }
    requires most { length out.old ≤ 104 }
    ensures count { length out.new ≡ length out.old }
    ensures each { (i : ℕ) → i < length out.old → slice_index_or out.new i 0 ≡
        sample_at (plane_of_grid grid.entry) (nearest grid.entry.width (x +ℤ pos i)) row }
{
    if lies_inside(x, out.len(), grid.width) {
        copy_row(grid, x.unsigned_abs() as usize, row, out);
    } else {
        put_near(grid, x, row, out);
    }
}

/// Fills a square of this side, 104 at most, with samples from column `x` of row `y` on.
pub(crate) fn copy_window(grid: Grid, x: i64, y: i64, side: usize, out: &mut [u8])
    requires x { unsigned_abs x ≤ 8589934592 }
    requires y { unsigned_abs y ≤ 8589934592 }
    requires most { side ≤ 104 }
    requires room { length out.old ≡ side * side }
    ensures count { length out.new ≡ side * side }
    ensures shows { Shows (plane_of_grid grid.entry) x y side out.new }
{
    for j in 0..side {
        let row = place_near(y, j, grid.height);
        put_row(grid, x, row, &mut out[j * side..j * side + side]);
    }
}
