//! The blocks of an I picture before the in-loop filters.

ghost use Rattle.std.specs.Prelude.{◌≡◌, ◌+◌, ◌%◌, ◌≤◌, ◌<◌, IfSome, IsTrue};
ghost use Rattle.hv_tree_model.specs.Trees.{side};
ghost use Rattle.hv_tree_model.specs.Sites.{squares, x0, y0};

use crate::memory::enough;
use crate::tally::Leaves;
use anyhow::bail;
use hv_block::{Block, Edges, Neighbours};
use hv_near::{column_of, row_of};
use hv_plain_units::{CodedBlock, Slice, block_of, neighbours};
use hv_plan::{Place, Pred};
use hv_recon::rebuild_leaf;
use std::alloc::Global;

/// The blocks of a picture, from what is coded of them, with their samples (8.4, 8.6).
pub(crate) fn rebuild_blocks(
    alloc: Global,
    slice: Slice,
    qp: u8,
    coded: &[CodedBlock],
    leaves: &mut Leaves,
) -> anyhow::Result<Vec<Block>>
    requires { qp ≤ 51 }
{
    let mut blocks = Vec::new(alloc);
    let mut edges: Vec<Edges> = Vec::new(alloc);
    for number in 0..coded.len() {
        let place = Place {
            width: slice.width,
            height: slice.height,
            index: u32::try_from(number)?,
        };
        let near = neighbours(&edges, number, slice.columns() as usize);
        let mut block = enough(block_of(alloc, &coded[number]))?;
        rebuild_block(&mut block, &coded[number], place, qp, &near, leaves)?;
        edges.push(block.edges())?;
        blocks.push(block)?;
    }
    Ok(blocks)
}

/// Rebuilds the coding units of a block in decoding order.
fn rebuild_block(
    block: &mut Block,
    coded: &CodedBlock,
    place: Place,
    qp: u8,
    near: &Neighbours,
    leaves: &mut Leaves,
) -> anyhow::Result<()>
    requires { qp ≤ 51 }
{
    for address in 0..64u8 {
        if let Some(square) = coded.squares[usize::from(address)] {
            if let Some(size) = size_at(address, square.depth) {
                rebuild_unit(block, address, size, place, qp, near, leaves)?;
            }
        }
    }
    Ok(())
}

/// The size of the coding unit of this depth that begins at an address: 0 for 8x8 to 3 for 64x64.
fn size_at(address: u8, depth: u8) -> Option<u8>
    ensures { IfSome result (λ size. (size ≤ 3) × (address % squares size ≡ 0)) }
{
    match depth {
        0 if address % 64 == 0 => Some(3),
        1 if address % 16 == 0 => Some(2),
        2 if address % 4 == 0 => Some(1),
        3 => Some(0),
        _ => None,
    }
}

/// Rebuilds a coding unit.
fn rebuild_unit(
    block: &mut Block,
    address: u8,
    size: u8,
    place: Place,
    qp: u8,
    near: &Neighbours,
    leaves: &mut Leaves,
) -> anyhow::Result<()>
    requires qp { qp ≤ 51 }
    requires address { address < 64 }
    requires size { size ≤ 3 }
    requires node { address % squares size ≡ 0 }
{
    if place.width == 0 || !lies_inside(place, address, size) {
        bail!("a unit doesn't lie in the picture");
    }
    if let Pred::Intra { mode } = block.plan.units()[usize::from(address)].pred {
        if mode <= 34 {
            rebuild_leaf(
                &block.plan,
                address,
                size,
                place,
                qp,
                near,
                None,
                None,
                &mut block.samples,
            );
            leaves.note(size, mode);
            return Ok(());
        }
    }
    bail!("a unit isn't intra")
}

/// Whether a node lies in the picture.
fn lies_inside(place: Place, address: u8, size: u8) -> bool
    requires width { 0 < place.width }
    requires address { address < 64 }
    requires size { size ≤ 3 }
    ensures right { IsTrue result → x0 place address + side size ≤ place.width }
    ensures bottom { IsTrue result → y0 place address + side size ≤ place.height }
{
    let across = place.width.div_ceil(64);
    let side = 8u64 << size;
    let x = 64 * u64::from(place.index % across) + 8 * u64::from(column_of(address));
    let y = 64 * u64::from(place.index / across) + 8 * u64::from(row_of(address));
    x + side <= u64::from(place.width) && y + side <= u64::from(place.height)
}
