//! The nodes of a block by their numbers.
ghost use Rattle.std.specs.Prelude.{◌≡◌, ◌+◌, ◌*◌, ◌<◌, ◌≤◌, Bool, true, nat_eq, ◌||◌};
ghost use Rattle.hv_search.specs.Numbers.{side_of, left_of, top_of};
ghost use Rattle.hv_search.specs.Nodes.{column_at, row_at};

use crate::nodes::{column_of, row_of};
use crate::part::Part;

/// A node of this side at a place among those of its size.
#[inline(always)]
fn part_at(place: usize, side: u8) -> Part
    requires place { place < 64 }
    requires sized { (nat_eq side 8 || nat_eq side 16 || nat_eq side 32 || nat_eq side 64) ≡ true }
    requires across { 8 * column_at place + side ≤ 64 }
    requires down { 8 * row_at place + side ≤ 64 }
    ensures side { result.side ≡ side }
    ensures left { result.left ≡ 8 * column_at place }
    ensures top { result.top ≡ 8 * row_at place }
{
    Part {
        left: 8 * column_of(place) as u8,
        top: 8 * row_of(place) as u8,
        side,
    }
}

/// The node of this number.
pub(crate) fn part_of(n: usize) -> Part
    requires { n < 85 }
    ensures side { result.side ≡ side_of n }
    ensures left { result.left ≡ left_of n }
    ensures top { result.top ≡ top_of n }
{
    if n < 64 {
        part_at(n, 8)
    } else if n < 80 {
        part_at(n - 64, 16)
    } else if n < 84 {
        part_at(n - 80, 32)
    } else {
        part_at(0, 64)
    }
}
