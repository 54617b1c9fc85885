//! The samples of a row beside their neighbours of an edge class.

ghost use Rattle.std.specs.Prelude.{◌≡◌, ◌≢◌, ◌+◌, ◌<◌, ◌≤◌, ◌^◌, length, pos, ◌+ℤ◌};
ghost use Rattle.hv_types.specs.Samples.{sample_at};
ghost use Rattle.hv_filter_model.specs.SampleAdaptiveOffset.{hPos, vPos};
ghost use Rattle.hv_sao.specs.Rows.{IsRow, IsEdgeRow};

use hv_types::Plane;

/// The samples of row `y` from column `x` on, so many.
#[inline(always)]
pub(crate) fn part_of_row(plane: &Plane, y: u32, x: u32, count: u32) -> &[u8]
    requires down { y < plane.now.height }
    requires across { x + count ≤ plane.now.width }
    ensures count { length result.now ≡ count }
    ensures samples { IsRow (λ i. sample_at plane.now (x + i) y) result.now }
{
    let at = y as usize * plane.width() as usize + x as usize;
    &plane.samples()[at..at + count as usize]
}

/// The column of the first neighbour of a sample in column `x`.
#[inline(always)]
fn first_column(class: u8, x: u32) -> u32
    requires class { class < 4 }
    requires some { class ≢ 1 → 0 < x }
    requires fits { x + 1 < 2 ^ 32 }
    ensures { pos result ≡ pos x +ℤ hPos class 0 }
{
    match class {
        0 | 2 => x - 1,
        1 => x,
        _ => x + 1,
    }
}

/// The column of the second neighbour of a sample in column `x`.
#[inline(always)]
fn second_column(class: u8, x: u32) -> u32
    requires class { class < 4 }
    requires some { class ≢ 1 → 0 < x }
    requires fits { x + 1 < 2 ^ 32 }
    ensures { pos result ≡ pos x +ℤ hPos class 1 }
{
    match class {
        0 | 2 => x + 1,
        1 => x,
        _ => x - 1,
    }
}

/// Samples of a row, from column `start` on, each with its first and its second neighbour.
#[derive(Clone, Copy)]
pub(crate) struct EdgeRow<'a> {
    pub(crate) start: u32,
    pub(crate) samples: &'a [u8],
    pub(crate) first: &'a [u8],
    pub(crate) second: &'a [u8],
}

/// The samples of row `y` in the columns `from` to `to`, without those that lack a neighbour of the
/// class (Table 8-13).
pub(crate) fn edge_row(plane: &Plane, class: u8, y: u32, from: u32, to: u32) -> EdgeRow<'_>
    requires class { class < 4 }
    requires down { y < plane.now.height }
    requires order { from ≤ to }
    requires across { to ≤ plane.now.width }
    ensures { IsEdgeRow class plane.now y from to
        result.start result.samples.now result.first.now result.second.now }
{
    let columns = u32::from(class != 1);
    let rows = u32::from(class != 0);
    let begin = from.max(columns);
    let end = to.min(plane.width() - columns);
    if begin >= end || y < rows || plane.height() - y <= rows {
        let none = part_of_row(plane, y, from, 0);
        return EdgeRow {
            start: to,
            samples: none,
            first: none,
            second: none,
        };
    }
    let count = end - begin;
    EdgeRow {
        start: begin,
        samples: part_of_row(plane, y, begin, count),
        first: part_of_row(plane, y - rows, first_column(class, begin), count),
        second: part_of_row(plane, y + rows, second_column(class, begin), count),
    }
}
