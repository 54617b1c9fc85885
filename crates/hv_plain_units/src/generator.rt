//! Pictures from a seed: valid coding tree blocks of every kind, as they may be coded in a slice.

use crate::coded::{CodedBlock, Prediction, put_levels};
use crate::motions::motion;
use crate::offsets_by_chance::offsets;
use crate::picture::{Node, Picture, Slice};
use crate::prediction::candidates;
use crate::quadtree::put_unit;
use crate::transform::count_of;
use hv_plain::{Random, levels_of_kind};
use hv_tables::SliceKind;
use hv_types::NoMemory;
use std::alloc::Global;

/// How often a node that may be one unit is split: in so many of 8 cases, by its size.
const SPLITS: [u32; 4] = [0, 4, 4, 5];

/// The blocks of a picture, in raster order: coding quadtrees that the edge of the picture allows,
/// in I slices of intra units alone, with levels and offsets in their ranges. `NoMemory` where
/// there is not enough memory. That the blocks are valid is tested, not proved.
pub fn generate_picture(
    alloc: Global,
    random: &mut Random,
    slice: Slice,
) -> Result<Vec<CodedBlock>, NoMemory> {
    let mut picture = Picture::new(alloc, slice)?;
    let mut blocks = Vec::new(alloc);
    for index in 0..slice.blocks() {
        let node = slice.block_at(index);
        let mut block = CodedBlock::new();
        block.sao = offsets(random);
        put_node(random, &mut picture, &mut block, node, node.size);
        blocks.push(block)?;
    }
    Ok(blocks)
}

/// Puts a node of this size, where it begins in the picture.
fn put_node(
    random: &mut Random,
    picture: &mut Picture,
    block: &mut CodedBlock,
    node: Node,
    size: u8,
) {
    if !picture.begins(node) {
        return;
    }
    let splits = SPLITS[usize::from(size.min(3))];
    if size == 0 || (picture.holds(node) && random.below(8) >= splits) {
        put_leaf(random, picture, block, node);
        return;
    }
    put_node(random, picture, block, node.quarter(0), size - 1);
    put_node(random, picture, block, node.quarter(1), size - 1);
    put_node(random, picture, block, node.quarter(2), size - 1);
    put_node(random, picture, block, node.quarter(3), size - 1);
}

/// Puts a coding unit with its levels.
fn put_leaf(random: &mut Random, picture: &mut Picture, block: &mut CodedBlock, node: Node) {
    let is_inter = picture.slice.kind == SliceKind::P && random.below(2) == 0;
    let prediction = if is_inter {
        motion(random, picture.slice.references)
    } else {
        Prediction::Intra {
            mode: mode(random, candidates(picture, node)),
        }
    };
    if random.below(4) > 0 {
        put_transform_units(random, block, node);
    }
    put_unit(picture, block, node, prediction);
}

/// A mode of intra prediction: in half of the cases one of these.
fn mode(random: &mut Random, candidates: [u8; 3]) -> u8 {
    let by_chance = random.below(6);
    if by_chance < 3 {
        candidates[by_chance as usize]
    } else {
        (random.below(35)) as u8
    }
}

/// Puts levels into the transform units of a coding unit: one, or four in one of 64x64, of which in
/// half of the cases one alone has levels.
fn put_transform_units(random: &mut Random, block: &mut CodedBlock, node: Node) {
    if node.size < 3 {
        put_transform_unit(random, block, 3 + node.size, node.address);
        return;
    }
    let only = random.below(8);
    for quarter in 0..4u8 {
        if only >= 4 || only == u32::from(quarter) {
            put_transform_unit(random, block, 5, 16 * quarter);
        }
    }
}

/// Puts levels into some of the three blocks of a transform unit.
fn put_transform_unit(random: &mut Random, block: &mut CodedBlock, log2: u8, address: u8) {
    let blocks = random.below(8);
    let place = usize::from(address);
    if blocks % 2 == 1 {
        let levels = levels(random, log2);
        put_levels(&mut block.luma, 64 * place, &levels, count_of(log2));
    }
    let chroma_log2 = log2.saturating_sub(1);
    if blocks / 2 % 2 == 1 {
        let levels = levels(random, chroma_log2);
        put_levels(&mut block.cb, 16 * place, &levels, count_of(chroma_log2));
    }
    if blocks / 4 == 1 {
        let levels = levels(random, chroma_log2);
        put_levels(&mut block.cr, 16 * place, &levels, count_of(chroma_log2));
    }
}

/// Levels of a block of side 2^log2, not all 0: few of them or one in most cases, and in one of 16
/// many or large ones.
fn levels(random: &mut Random, log2: u8) -> [i16; 1024] {
    let kind = if random.below(16) == 0 {
        (random.below(8)) as u8
    } else {
        (random.below(2) * 2) as u8
    };
    levels_of_kind(random, kind, log2)
}
