//! The pictures of a group in coding order: blocks from anchor to anchor, each halved.

ghost use Rattle.std.specs.Prelude.{◌≡◌, ◌+◌, ◌<◌, ◌≤◌, ◌∷◌, [], ◌++◌, map, IfOk, OnOk};
ghost use Rattle.hv_group_model.specs.Structure.{coded, coding, halves, blocks, anchors};
ghost use Rattle.hv_types.specs.Configuration.{most_levels};
ghost use Rattle.hv_decision.specs.Coding.{coded_as};

use crate::coded::{CodedPicture, References};
use hv_types::NoMemory;
use std::alloc::Global;

/// The pictures of a group in coding order, the first one an IDR. The only error is want of memory.
pub(crate) fn coding_order(
    alloc: Global,
    count: u8,
    levels: u8,
) -> Result<Vec<CodedPicture>, NoMemory>
    requires some { 1 ≤ count }
    requires most { count ≤ 64 }
    requires levels_most { levels ≤ most_levels }
    ensures { IfOk result (λ order. map coded_as order.items ≡ coding count levels) }
{
    let mut order = Vec::with_capacity(alloc, usize::from(count))?;
    order.push(CodedPicture {
        picture: 0,
        depth: 0,
        references: References::Nothing,
    })?;
    if count > 1 {
        push_blocks(&mut order, count, levels)?;
    }
    Ok(order)
}

/// Appends the blocks from anchor to anchor. The anchors are the multiples of 2^levels below the
/// last picture, and the last picture.
fn push_blocks(order: &mut Vec<CodedPicture>, count: u8, levels: u8) -> Result<(), NoMemory>
    requires some { 2 ≤ count }
    requires most { count ≤ 64 }
    requires levels_most { levels ≤ most_levels }
    ensures { OnOk result (map coded_as order.new.items ≡
        map coded_as order.old.items ++ blocks levels 0 (anchors count levels)) }
{
    let step = 1 << levels;
    let whole = (count - 2) / step;
    for block in 0..whole {
        push_block(order, levels, block * step, (block + 1) * step)?;
    }
    push_block(order, levels, whole * step, count - 1)?;
    Ok(())
}

/// Appends the block from an anchor to the next one: this one, and what lies between.
fn push_block(order: &mut Vec<CodedPicture>, levels: u8, low: u8, high: u8) -> Result<(), NoMemory>
    requires rising { low ≤ high }
    requires most { high < 64 }
    requires levels_most { levels ≤ most_levels }
    ensures { OnOk result (map coded_as order.new.items ≡
        map coded_as order.old.items ++ coded high 1 (low ∷ []) ∷ halves levels low high 2) }
{
    order.push(CodedPicture {
        picture: high,
        depth: 1,
        references: References::One(low),
    })?;
    push_halves(order, levels, low, high, 2)?;
    Ok(())
}

/// Appends the pictures between two that are coded: the middle one, and the halves on both sides.
fn push_halves(
    order: &mut Vec<CodedPicture>,
    levels: u8,
    low: u8,
    high: u8,
    depth: u8,
) -> Result<(), NoMemory>
    requires rising { low ≤ high }
    requires most { high < 64 }
    requires levels_most { depth + levels ≤ most_levels + 2 }
    ensures { OnOk result (map coded_as order.new.items ≡
        map coded_as order.old.items ++ halves levels low high depth) }
{
    if levels == 0 || high - low < 2 {
        return Ok(());
    }
    let middle = (low + high) / 2;
    order.push(CodedPicture {
        picture: middle,
        depth,
        references: References::Two(low, high),
    })?;
    push_halves(order, levels - 1, low, middle, depth + 1)?;
    push_halves(order, levels - 1, middle, high, depth + 1)?;
    Ok(())
}

/// The pictures of a coding order. The only error is want of memory.
pub(crate) fn pictures_of(alloc: Global, order: &[CodedPicture]) -> Result<Vec<u8>, NoMemory>
    ensures { IfOk result (λ pictures.
        pictures.items ≡ map (λ c. c.picture) (map coded_as order.now)) }
{
    let mut pictures = Vec::with_capacity(alloc, order.len())?;
    for coded in order {
        pictures.push(coded.picture)?;
    }
    Ok(pictures)
}
