//! The levels of the coding units of a block.

ghost use Rattle.std.specs.Prelude.{◌≡◌, ◌≤◌, ◌+◌, ◌*◌, ◌^◌, length};
ghost use Rattle.hv_tree_model.specs.Trees.{log2TrafoSize, transform_units};
ghost use Rattle.hv_tree_model.specs.Sites.{squares};
ghost use Rattle.hv_tree_model.specs.Plans.{part, transform_unit_at, transform_units_at};
ghost use Rattle.hv_syntax.specs.declared.levels.UnitLevels.TheVariants.{Four};
ghost use Rattle.hv_syntax.specs.Levels.{unit_of, units_of, size_of};
ghost use Rattle.hv_syntax.specs.Blocks.{plan_of};

use crate::block::Block;
use crate::levels::{Quarters, TransformUnit, UnitLevels};

/// So many levels from one on.
#[inline(always)]
fn part<'a>(levels: &'a [i16], from: usize, count: usize) -> &'a [i16]
    requires { from + count ≤ length levels.now }
    ensures value { result.now ≡ part levels.entry.now from count }
    ensures count { length result.now ≡ count }
{
    &levels[from..from + count]
}

/// The side of a transform block.
#[inline(always)]
fn side(log2: u8) -> usize
    requires { log2 ≤ 5 }
    ensures value { result ≡ 2 ^ log2 }
    ensures most { result ≤ 32 }
{
    1 << log2
}

/// The levels of the transform unit at an address, whose luma block has side 2^log2.
fn transform_unit<'a>(block: &Block<'a>, log2: u8, address: u8) -> TransformUnit<'a>
    requires least { 3 ≤ log2 }
    requires most { log2 ≤ 5 }
    requires inside { 64 * address + 2 ^ log2 * 2 ^ log2 ≤ 4096 }
    ensures unit { unit_of result ≡ transform_unit_at (plan_of block.entry.now) log2 address }
    ensures side { result.log2 ≡ log2 }
{
    let from = usize::from(address);
    let whole = side(log2);
    let half = side(log2 - 1);
    TransformUnit::of(
        log2,
        part(block.plan.luma, 64 * from, whole * whole),
        part(block.plan.cb, 16 * from, half * half),
        part(block.plan.cr, 16 * from, half * half),
    )
}

/// The levels of the four quarters of a block that is one coding unit.
fn quarters<'a>(block: &Block<'a>) -> Quarters<'a>
    ensures { units_of (Four result) ≡ transform_units_at (plan_of block.entry.now) 5 0 4 }
{
    Quarters {
        first: transform_unit(block, 5, 0),
        second: transform_unit(block, 5, 16),
        third: transform_unit(block, 5, 32),
        fourth: transform_unit(block, 5, 48),
    }
}

/// The levels of the coding unit of a size at an address.
pub fn unit_levels<'a>(block: &Block<'a>, size: u8, address: u8) -> UnitLevels<'a>
    requires size { size ≤ 3 }
    requires inside { address + squares size ≤ 64 }
    ensures levels { units_of result ≡ transform_units_at (plan_of block.entry.now)
        (log2TrafoSize size) address (transform_units size) }
    ensures size { size_of result ≡ size }
{
    if size < 3 {
        return UnitLevels::One(transform_unit(block, size + 3, address));
    }
    UnitLevels::Four(quarters(block))
}
