//! The blocks around a coding tree block, from the blocks of its picture.

ghost use Rattle.std.specs.Prelude.{◌≡◌, ◌+◌, ◌-◌, ◌<◌, ◌≤◌, ◌&&◌, true, nat_lt, length};
ghost use Rattle.hv_block.specs.Around.{edges_at, neighbours_of};

use crate::block::Blocks;
use crate::edges::{Edges, Neighbours};
use hv_plan::Place;

/// The edges of the four blocks around one that come before it in decoding order (6.4.1). `blocks`
/// are those of its picture in raster order, and have this one. It takes no memory.
pub fn neighbours_of<B: Blocks>(place: Place, blocks: &B) -> Neighbours
    requires width { 0 < place.width }
    requires there { place.index < length (B.blocks blocks.now) }
    ensures { result ≡ neighbours_of (B.blocks blocks.now) place }
{
    let across = place.width.div_ceil(64);
    let column = place.index % across;
    let row = place.index / across;
    let at_left = has_above_left(column, row);
    let at_right = has_above_right(across, column, row);
    Neighbours {
        left: edges_before(blocks, place.index, column > 0, 1),
        above_left: edges_before(blocks, place.index, at_left, across + 1),
        above: edges_before(blocks, place.index, row > 0, across),
        above_right: edges_before(blocks, place.index, at_right, across - 1),
    }
}

/// Whether there is a block above the one at the left.
fn has_above_left(column: u32, row: u32) -> bool
    ensures { result ≡ nat_lt 0 column && nat_lt 0 row }
{
    column > 0 && row > 0
}

/// Whether there is a block above the one at the right, where so many cover the picture's width.
fn has_above_right(across: u32, column: u32, row: u32) -> bool
    requires { column < across }
    ensures { result ≡ nat_lt 0 row && nat_lt (column + 1) across }
{
    row > 0 && column + 1 < across
}

/// The edges of the block so many before this one, where there is one.
fn edges_before<B: Blocks>(blocks: &B, index: u32, is_there: bool, back: u32) -> Option<Edges>
    requires inside { index < length (B.blocks blocks.now) }
    requires some { is_there ≡ true → 1 ≤ back }
    requires within { is_there ≡ true → back ≤ index }
    ensures { result ≡ edges_at (B.blocks blocks.now) is_there (index - back) }
{
    if !is_there {
        return None;
    }
    Some(blocks.block(index - back).edges())
}
