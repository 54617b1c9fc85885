//! Coding quadtrees and coding units (7.3.8.4, 7.3.8.5).

use crate::alternatives::UnitElement;
use crate::coded::{CodedBlock, Prediction, Square};
use crate::picture::{Node, Picture};
use crate::prediction::{read_mode, read_motion};
use crate::source::Source;
use crate::transform::read_transform_tree;
use hv_tables::{CtxTable, SliceKind};

/// A node of this size (`coding_quadtree`, 7.3.8.4).
pub(crate) fn read_quadtree(
    source: &mut Source<'_>,
    picture: &mut Picture,
    block: &mut CodedBlock,
    node: Node,
    size: u8,
) -> Option<()> {
    if !picture.begins(node) {
        source.note(UnitElement::AbsentNode, size);
        return Some(());
    }
    if size == 0 || !read_split_flag(source, picture, node)? {
        return read_coding_unit(source, picture, block, node);
    }
    read_quadtree(source, picture, block, node.quarter(0), size - 1)?;
    read_quadtree(source, picture, block, node.quarter(1), size - 1)?;
    read_quadtree(source, picture, block, node.quarter(2), size - 1)?;
    read_quadtree(source, picture, block, node.quarter(3), size - 1)
}

/// split_cu_flag of a node above 8x8: it is inferred to be 1 where the node crosses the edge of the
/// picture. The context's number is how many of the squares at the left and above are available and
/// lie deeper (9.3.4.2.2).
fn read_split_flag(source: &mut Source<'_>, picture: &Picture, node: Node) -> Option<bool> {
    let depth = node.depth();
    if !picture.holds(node) {
        source.note(UnitElement::InferredSplit, depth);
        return Some(true);
    }
    let left = lies_deeper(picture.left_of(node), depth);
    let above = lies_deeper(picture.above(node), depth);
    let index = u8::from(left) + u8::from(above);
    let flag = source.bin(CtxTable::Split, index)?;
    let alternative = depth.min(2) * 6 + 2 * index + u8::from(flag);
    source.note(UnitElement::SplitFlag, alternative);
    Some(flag)
}

/// Whether a square is available and lies deeper than this.
fn lies_deeper(square: Option<Square>, depth: u8) -> bool {
    match square {
        None => false,
        Some(square) => square.depth > depth,
    }
}

/// A coding unit (7.3.8.5): one prediction unit (PART_2Nx2N). None where it is skipped, has another
/// part_mode, or has rqt_root_cbf 1 over no level.
fn read_coding_unit(
    source: &mut Source<'_>,
    picture: &mut Picture,
    block: &mut CodedBlock,
    node: Node,
) -> Option<()> {
    let prediction = read_prediction(source, picture, node)?;
    let is_intra = matches!(prediction, Prediction::Intra { .. });
    let has_tree = is_intra || read_root_flag(source)?;
    if has_tree {
        let any = read_transform_tree(source, block, prediction, node.size, node.address)?;
        if !is_intra && !any {
            return None;
        }
    }
    put_unit(picture, block, node, prediction);
    Some(())
}

/// Each square of the node has its depth and this prediction.
pub(crate) fn put_unit(
    picture: &mut Picture,
    block: &mut CodedBlock,
    node: Node,
    prediction: Prediction,
) {
    let square = Square {
        depth: node.depth(),
        prediction,
    };
    picture.put(node, square);
    for i in 0..node.squares() {
        let address = usize::from(node.address.saturating_add(i));
        if address < 64 {
            block.squares[address] = Some(square);
        }
    }
}

/// rqt_root_cbf
fn read_root_flag(source: &mut Source<'_>) -> Option<bool> {
    let flag = source.bin(CtxTable::RootCbf, 0)?;
    source.note(UnitElement::RootFlag, u8::from(flag));
    Some(flag)
}

/// What a coding unit has in front of its transform tree: cu_skip_flag, pred_mode_flag, part_mode,
/// and the mode or the vector.
fn read_prediction(source: &mut Source<'_>, picture: &Picture, node: Node) -> Option<Prediction> {
    let mut is_intra = true;
    let kind = picture.slice.kind;
    if kind == SliceKind::P {
        source.fixed_bin(CtxTable::Skip, false)?;
        is_intra = source.bin(CtxTable::PredMode, 0)?;
    }
    let row = if kind == SliceKind::I {
        0
    } else if is_intra {
        4
    } else {
        8
    };
    source.note(UnitElement::CodingUnit, row + node.size.min(3));
    if !is_intra || node.size == 0 {
        source.fixed_bin(CtxTable::PartMode, true)?;
    }
    if is_intra {
        let mode = read_mode(source, picture, node)?;
        return Some(Prediction::Intra { mode });
    }
    read_motion(source, picture.slice.references)
}
