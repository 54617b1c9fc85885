//! The data of a slice (7.3.8.1, 7.3.8.2).

use crate::alternatives::UnitElement;
use crate::coded::CodedBlock;
use crate::offsets::read_offsets;
use crate::picture::{Picture, Slice};
use crate::quadtree::read_quadtree;
use crate::source::Source;
use hv_types::NoMemory;
use std::alloc::Global;

/// The blocks of a slice, in raster order (`slice_segment_data`, 7.3.8.1). None where the syntax of
/// this profile is left: skipped and merged units, merged offsets, parts of units, another
/// prediction of chroma than that of luma, differences and levels of more than 16 bits, a coded
/// flag of 1 over no level where the levels determine it, an end of the slice in front of the last
/// block, and none behind it; and where the decoder gives no answer. The source is then amid the
/// slice. `NoMemory` where there is not enough memory. That it reads what is written is tested, not
/// proved.
pub fn read_slice(
    alloc: Global,
    source: &mut Source<'_>,
    slice: Slice,
) -> Result<Option<Vec<CodedBlock>>, NoMemory> {
    let mut picture = Picture::new(alloc, slice)?;
    let mut blocks = Vec::new(alloc);
    let count = slice.blocks();
    for index in 0..count {
        let Some(block) = read_block(source, &mut picture, index) else {
            return Ok(None);
        };
        blocks.push(block)?;
        let is_last = index == count - 1;
        if source.end() != Some(is_last) {
            return Ok(None);
        }
        source.note(UnitElement::EndOfSlice, u8::from(is_last));
    }
    Ok(Some(blocks))
}

/// The block of this number (`coding_tree_unit`, 7.3.8.2).
fn read_block(source: &mut Source<'_>, picture: &mut Picture, index: u32) -> Option<CodedBlock> {
    let node = picture.slice.block_at(index);
    let mut block = CodedBlock::new();
    block.sao = read_offsets(source, node.x > 0, node.y > 0)?;
    read_quadtree(source, picture, &mut block, node, node.size)?;
    Some(block)
}
