//! What is seen of the units beside a node (6.4.1).

ghost use Rattle.std.specs.Prelude.{◌≡◌, ◌<◌, ◌≤◌, ◌+◌, cond, nat_eq, slice_get, Some};
ghost use Rattle.hv_tree_model.specs.Trees.{depth_of};
ghost use Rattle.hv_tree_model.specs.Sites.{row_of};
ghost use Rattle.hv_tree_model.specs.EarlierUnits.{lies_deeper};
ghost use Rattle.hv_tree_model.specs.MostProbableModes.{candModeList, candIntraPredMode, dc};
ghost use Rattle.hv_tree_model.specs.Plans.{square_or_none};
ghost use Rattle.hv_syntax.specs.Blocks.{side_square, seen_left, seen_above};

use crate::block::Block;
use crate::modes::most_probable;
use hv_near::{address_of, column_of, row_of};
use hv_plan::{Pred, Unit};

/// One of eight units.
#[inline(always)]
fn nth_unit(units: &[Unit; 8], i: u8) -> Unit
    requires { i < 8 }
    ensures { slice_get units.now i ≡ Some result }
{
    units[usize::from(i)]
}

/// One of the units beside a block.
#[inline(always)]
fn side_unit(units: &Option<[Unit; 8]>, i: u8) -> Option<Unit>
    requires { i < 8 }
    ensures { square_or_none result ≡ side_square units.now i }
{
    match units {
        Some(units) => Some(nth_unit(units, i)),
        None => None,
    }
}

/// A unit of the block.
#[inline(always)]
pub fn own_unit(block: &Block, address: u8) -> Unit
    requires { address < 64 }
    ensures { slice_get block.now.plan.units.now address ≡ Some result }
{
    block.plan.units[usize::from(address)]
}

/// The unit at the left of a node, where it is available.
#[inline(always)]
fn left_unit(block: &Block, address: u8) -> Option<Unit>
    requires { address < 64 }
    ensures { square_or_none result ≡ seen_left block.now address }
{
    let column = column_of(address);
    let row = row_of(address);
    if column > 0 {
        return Some(own_unit(block, address_of(column - 1, row)));
    }
    if block.site.column > 0 {
        return side_unit(&block.beside.left, row);
    }
    None
}

/// The unit above a node, where it is available.
#[inline(always)]
fn above_unit(block: &Block, address: u8) -> Option<Unit>
    requires { address < 64 }
    ensures { square_or_none result ≡ seen_above block.now address }
{
    let column = column_of(address);
    let row = row_of(address);
    if row > 0 {
        return Some(own_unit(block, address_of(column, row - 1)));
    }
    if block.site.row > 0 {
        return side_unit(&block.beside.above, column);
    }
    None
}

/// 1 where a unit is available and lies deeper (`condL` and `condA` of 9.3.4.2.2).
#[inline(always)]
fn lies_deeper(depth: u8, unit: Option<Unit>) -> u8
    ensures value { result ≡ lies_deeper depth (square_or_none unit) }
    ensures most { result ≤ 1 }
{
    match unit {
        Some(unit) => u8::from(unit.depth > depth),
        None => 0,
    }
}

/// `ctxInc` of `split_cu_flag` (9.3.4.2.2).
#[inline(always)]
pub fn split_context(block: &Block, size: u8, address: u8) -> u8
    requires size { size ≤ 3 }
    requires address { address < 64 }
    ensures { result ≡ lies_deeper (depth_of size) (seen_left block.now address) +
        lies_deeper (depth_of size) (seen_above block.now address) }
{
    let depth = 3 - size;
    lies_deeper(depth, left_unit(block, address)) + lies_deeper(depth, above_unit(block, address))
}

/// `candIntraPredModeX` of a neighbour (8.4.2): 1 where it isn't available, or isn't intra.
#[inline(always)]
fn mode_of(unit: Option<Unit>) -> u8
    ensures { result ≡ candIntraPredMode (square_or_none unit) }
{
    match unit {
        Some(unit) => match unit.pred {
            Pred::Intra { mode } => mode,
            Pred::Inter { .. } => 1,
        },
        None => 1,
    }
}

/// `candIntraPredModeB` (8.4.2): what lies above the coding tree block stands for DC.
#[inline(always)]
fn mode_above(block: &Block, address: u8) -> u8
    requires { address < 64 }
    ensures { result ≡ cond (nat_eq (row_of address) 0) dc
        (candIntraPredMode (seen_above block.now address)) }
{
    if row_of(address) == 0 {
        return 1;
    }
    mode_of(above_unit(block, address))
}

/// The most probable luma modes of a unit at an address (8.4.2).
#[inline(always)]
pub fn candidates(block: &Block, address: u8) -> [u8; 3]
    requires { address < 64 }
    ensures { result ≡ candModeList (candIntraPredMode (seen_left block.now address))
        (cond (nat_eq (row_of address) 0) dc
        (candIntraPredMode (seen_above block.now address))) }
{
    most_probable(
        mode_of(left_unit(block, address)),
        mode_above(block, address),
    )
}
