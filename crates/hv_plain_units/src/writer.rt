//! Slices as bins into the arithmetic encoder, by the program that is tested.

use crate::coded::{CodedBlock, Prediction, Square};
use crate::picture::Slice;
use hv_block::{Block, Edges, Neighbours};
use hv_cabac::Encoder;
use hv_plan::{Mv, Place, Pred, Unit};
use hv_syntax::{names_its_units, put_ctb};
use hv_tables::BinSink;
use hv_types::NoMemory;
use std::alloc::Global;

/// The bytes of a slice of these blocks; none where the units of one don't name its coding units.
pub fn write_slice(
    alloc: Global,
    slice: Slice,
    qp: u8,
    blocks: &[CodedBlock],
) -> Result<Option<Vec<u8>>, NoMemory> {
    let mut encoder = Encoder::new(alloc, slice.kind, qp);
    let mut edges: Vec<Edges> = Vec::new(alloc);
    for i in 0..blocks.len() {
        let block = block_of(alloc, &blocks[i])?;
        let near = neighbours(&edges, i, slice.columns() as usize);
        let is_last = i == blocks.len() - 1;
        if !put_block(&mut encoder, slice, i, &near, &block, &blocks[i], is_last) {
            return Ok(None);
        }
        edges.push(block.edges())?;
    }
    Ok(Some(encoder.finish()?))
}

/// Puts the block of this number, where its units name its coding units.
fn put_block(
    encoder: &mut Encoder,
    slice: Slice,
    number: usize,
    near: &Neighbours,
    block: &Block,
    coded: &CodedBlock,
    is_last: bool,
) -> bool {
    let place = Place {
        width: slice.width,
        height: slice.height,
        index: (number % 0x1_0000_0000) as u32,
    };
    if slice.width == 0 || !names_its_units(place, &block.plan) {
        return false;
    }
    put_ctb(
        encoder,
        slice.kind,
        slice.references,
        place,
        near,
        &block.plan,
        &coded.sao,
        is_last,
    );
    true
}

/// The edges of the blocks around that of this number, of those of the blocks before it.
pub fn neighbours(edges: &[Edges], number: usize, columns: usize) -> Neighbours {
    let has_left = columns > 0 && number % columns > 0;
    let has_right = columns > 0 && number % columns < columns - 1;
    Neighbours {
        left: edges_before(edges, number, 1, has_left),
        above_left: edges_before(edges, number, columns.saturating_add(1), has_left),
        above: edges_before(edges, number, columns, true),
        above_right: edges_before(edges, number, columns.saturating_sub(1), has_right),
    }
}

/// The edges of the block so many before that of this number, where that is there.
fn edges_before(edges: &[Edges], number: usize, back: usize, is_there: bool) -> Option<Edges> {
    if !is_there || back == 0 || back > number {
        return None;
    }
    edges.get(number - back).copied()
}

/// The block in memory, its samples 0.
pub fn block_of(alloc: Global, coded: &CodedBlock) -> Result<Block, NoMemory> {
    let mut block = Block::new(alloc)?;
    for address in 0..64u8 {
        if let Some(square) = coded.squares[usize::from(address)] {
            let unit = unit_of(square);
            put_unit(&mut block, address, unit);
        }
    }
    block.plan.luma_mut().copy_from_slice(&coded.luma);
    block.plan.cb_mut().copy_from_slice(&coded.cb);
    block.plan.cr_mut().copy_from_slice(&coded.cr);
    Ok(block)
}

/// The unit of a square: a vector isn't coded, and is 0.
fn unit_of(square: Square) -> Unit {
    let pred = match square.prediction {
        Prediction::Intra { mode } => Pred::Intra { mode },
        Prediction::Inter {
            reference,
            flag,
            mvd,
        } => Pred::Inter {
            reference,
            mv: Mv { x: 0, y: 0 },
            flag,
            mvd,
        },
    };
    Unit {
        depth: square.depth,
        pred,
    }
}

/// Puts the coding unit of a square, where the square is its first.
fn put_unit(block: &mut Block, address: u8, unit: Unit) {
    if unit.depth == 0 {
        if address == 0 {
            block.plan.set_leaf(0, 3, unit.pred);
        }
    } else if unit.depth == 1 {
        if address % 16 == 0 && address <= 48 {
            block.plan.set_leaf(address, 2, unit.pred);
        }
    } else if unit.depth == 2 {
        if address % 4 == 0 && address <= 60 {
            block.plan.set_leaf(address, 1, unit.pred);
        }
    } else if address <= 63 {
        block.plan.set_leaf(address, 0, unit.pred);
    }
}
