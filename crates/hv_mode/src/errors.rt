//! How far the samples of a node are from the input: the sum of squared differences.

ghost use Rattle.std.specs.Prelude.{◌≡◌, ◌+◌, ◌*◌, ◌/◌, ◌^◌, ◌<◌, ◌≤◌, length, drop};
ghost use Rattle.hv_tree_model.specs.Trees.{side};
ghost use Rattle.hv_tree_model.specs.Sites.{column_of, row_of, squares, x0, y0};
ghost use Rattle.hv_recon_model.specs.Reconstruction.{Decoded};
ghost use Rattle.hv_recon.specs.Leaves.{AreSeen};
ghost use Rattle.hv_recon.specs.DecodedNodes.{IsNodeOfBlock};
ghost use Rattle.hv_mode_model.specs.ModeDecision.{squared_errors, node_square};
ghost use Rattle.hv_kernel.specs.Blocks.{ssd_of_blocks};
ghost use Rattle.hv_mode.specs.NodeErrors.{errors_by_rows, IsLumaOfNode, IsChromaOf, Fit};
ghost use Rattle.hv_mode.specs.Nodes.{given_of};
ghost use Rattle.hv_mode.specs.Vectors.{references_of};

use crate::square::{NodeSquares, Square};
use crate::task::Task;
use hv_block::Samples;
use hv_kernel::{Pair, ssd_block_4, ssd_block_8, ssd_block_16, ssd_block_32, ssd_block_64};
use hv_near::{column_of, row_of};
use hv_plan::Place;
use hv_types::{Plane, Window};

/// The side of a square.
#[inline(always)]
fn side_of(log2: u8) -> u32
    requires least { 2 ≤ log2 }
    requires most { log2 ≤ 6 }
    ensures value { result ≡ 2 ^ log2 }
    ensures some { 0 < result }
    ensures few { result ≤ 64 }
{
    match log2 {
        2 => 4,
        3 => 8,
        4 => 16,
        5 => 32,
        _ => 64,
    }
}

/// The sum of squared differences of two blocks of 2^log2 columns.
#[inline(always)]
fn errors_of_pair(blocks: Pair<'_>, log2: u8) -> u32
    requires least { 2 ≤ log2 }
    requires most { log2 ≤ 6 }
    requires columns { blocks.first.columns ≡ 2 ^ log2 }
    ensures { result ≡ ssd_of_blocks blocks.entry }
{
    match log2 {
        2 => ssd_block_4(blocks),
        3 => ssd_block_8(blocks),
        4 => ssd_block_16(blocks),
        5 => ssd_block_32(blocks),
        _ => ssd_block_64(blocks),
    }
}

/// A square of a coding tree block whose samples stand by rows.
#[inline(always)]
fn own_window<'a>(own: &'a [u8], side: usize, square: Square, columns: usize) -> Window<'a>
    requires small { side ≤ 64 }
    requires some { 0 < columns }
    requires whole { length own.now ≡ side * side }
    requires right { square.column + columns ≤ side }
    requires bottom { square.row + columns ≤ side }
    ensures samples { result.samples.now ≡ drop (square.row * side + square.column) own.entry.now }
    ensures stride { result.stride ≡ side }
    ensures columns { result.columns ≡ columns }
    ensures rows { result.rows ≡ columns }
{
    let at = square.row * side + square.column;
    Window {
        samples: &own[at..],
        stride: side,
        columns,
        rows: columns,
    }
}

/// The sum of squared differences in a square of one colour component, of a block whose rows have
/// `side` samples.
fn square_errors(input: &Plane, own: &[u8], side: usize, square: Square) -> u32
    requires across { square.left + 2 ^ square.log2 ≤ input.now.width }
    requires down { square.top + 2 ^ square.log2 ≤ input.now.height }
    requires small { side ≤ 64 }
    requires whole { length own.now ≡ side * side }
    requires right { square.column + 2 ^ square.log2 ≤ side }
    requires bottom { square.row + 2 ^ square.log2 ≤ side }
    ensures { result ≡ errors_by_rows side input.now own.now square }
{
    let columns = side_of(square.log2);
    let first = input.window(square.left, square.top, columns, columns);
    let second = own_window(own, side, square, columns as usize);
    errors_of_pair(Pair { first, second }, square.log2)
}

/// The luma samples of a node of a coding tree block at this place.
fn luma_square(place: Place, size: u8, address: u8) -> Square
    requires some { 0 < place.width }
    requires node { IsNodeOfBlock size address }
    requires right { x0 place address + side size ≤ place.width }
    requires bottom { y0 place address + side size ≤ place.height }
    ensures { IsLumaOfNode place size address result }
{
    let across = place.width.div_ceil(64);
    let (column, row) = (column_of(address), row_of(address));
    Square {
        left: 64 * (place.index % across) + 8 * u32::from(column),
        top: 64 * (place.index / across) + 8 * u32::from(row),
        column: 8 * usize::from(column),
        row: 8 * usize::from(row),
        log2: size + 3,
    }
}

/// The samples of Cb, or of Cr, under those of luma.
fn chroma_square(luma: Square) -> Square
    requires { 3 ≤ luma.log2 }
    ensures { IsChromaOf luma result }
{
    Square {
        left: luma.left / 2,
        top: luma.top / 2,
        column: luma.column / 2,
        row: luma.row / 2,
        log2: luma.log2 - 1,
    }
}

/// The samples of a node that lies in the picture.
pub(crate) fn node_squares(task: &Task<'_>, size: u8, address: u8) -> NodeSquares
    requires node { IsNodeOfBlock size address }
    requires right { x0 task.now.place address + side size ≤ task.now.place.width }
    requires bottom { y0 task.now.place address + side size ≤ task.now.place.height }
    ensures luma { IsLumaOfNode task.now.place size address result.luma }
    ensures chroma { IsChromaOf result.luma result.chroma }
    ensures fit { Fit task.now.input.now result.luma result.chroma }
{
    let luma = luma_square(task.place, size, address);
    NodeSquares {
        luma,
        chroma: chroma_square(luma),
    }
}

/// The sum of squared differences of the input and the samples of a node, over luma, Cb and Cr:
/// that of whatever is decoded of the picture and is seen so behind the node. The node lies in the
/// picture.
pub(crate) fn node_errors(task: &Task<'_>, size: u8, address: u8, samples: &Samples) -> u64
    requires node { IsNodeOfBlock size address }
    requires right { x0 task.now.place address + side size ≤ task.now.place.width }
    requires bottom { y0 task.now.place address + side size ≤ task.now.place.height }
    ensures value { (d : Decoded) →
        AreSeen task.now.place (references_of task.now) task.now.near.now samples.now
        (address + squares size) d →
        result ≡
        squared_errors task.now.input.now d (node_square (given_of task.now) size address) }
    ensures most { result < 2 ^ 34 }
{
    let NodeSquares { luma, chroma } = node_squares(task, size, address);
    let input = task.input;
    u64::from(square_errors(&input.luma, samples.luma(), 64, luma))
        + (u64::from(square_errors(&input.cb, samples.cb(), 32, chroma))
            + u64::from(square_errors(&input.cr, samples.cr(), 32, chroma)))
}
