//! A picture that is put together from its coding tree blocks.

ghost use Rattle.std.specs.Prelude.{ℕ, ◌≡◌, ◌+◌, ◌*◌, ◌/◌, ◌^◌, ◌<◌, ◌≤◌, min, length};
ghost use Rattle.hv_types.specs.Samples.{IsWhole};
ghost use Rattle.hv_types.specs.Video.{IsPicture};
ghost use Rattle.hv_filter_model.specs.Blocks.{luma_side, blocks_over, joined_sample, joined_plane};
ghost use Rattle.hv_filter.specs.JoinedPicture.{side_of, lists_of, IsFilledTo, joined_picture};

use crate::component::{CHROMA_SIDE, Component, LUMA_SIDE};
use hv_block::Blocks;
use hv_types::{Picture, Plane};

/// Writes the part of row `y` that is in the block of this column of blocks, which have this side.
/// All places before it are written.
fn join_part<B: Blocks>(
    blocks: &B,
    component: Component,
    side: u32,
    across: u32,
    y: u32,
    column: u32,
    plane: &mut Plane,
)
    requires side { side ≡ side_of component }
    requires down { y < plane.old.height }
    requires inside { column * side < plane.old.width }
    requires there { y / side * across + column < length (B.blocks blocks.now) }
    requires few { length (B.blocks blocks.now) < 2 ^ 32 }
    requires before { IsFilledTo (y * plane.old.width + column * side) plane.old.width
        plane.old.height (joined_sample side across (lists_of component (B.blocks blocks.now)))
        plane.old }
    ensures { IsFilledTo (y * plane.old.width + min ((column + 1) * side) plane.old.width)
        plane.old.width plane.old.height
        (joined_sample side across (lists_of component (B.blocks blocks.now))) plane.new }
{
    let block = blocks.block(y / side * across + column);
    let samples = component.of(&block.samples);
    let start = (y % side) as usize * side as usize;
    let row = &samples[start..start + side as usize];
    let width = plane.width();
    let from = column * side;
    let to = from + side.min(width - from);
    for x in from..to {
        plane.set(x, y, row[(x - from) as usize]);
    }
}

/// Writes row `y`, block by block. All rows before it are written.
fn join_row<B: Blocks>(
    blocks: &B,
    component: Component,
    side: u32,
    across: u32,
    y: u32,
    plane: &mut Plane,
)
    requires side { side ≡ side_of component }
    requires least { 0 < side }
    requires down { y < plane.old.height }
    requires wide { plane.old.width ≤ across * side }
    requires there { (y / side + 1) * across ≤ length (B.blocks blocks.now) }
    requires few { length (B.blocks blocks.now) < 2 ^ 32 }
    requires before { IsFilledTo (y * plane.old.width) plane.old.width plane.old.height
        (joined_sample side across (lists_of component (B.blocks blocks.now))) plane.old }
    ensures { IsFilledTo ((y + 1) * plane.old.width) plane.old.width plane.old.height
        (joined_sample side across (lists_of component (B.blocks blocks.now))) plane.new }
{
    let width = plane.width();
    for column in 0..width.div_ceil(side) {
        join_part(blocks, component, side, across, y, column, plane);
    }
}

/// Writes a plane, whose blocks have this side, and `across` of them stand in a row.
fn join_plane<B: Blocks>(
    blocks: &B,
    component: Component,
    side: u32,
    across: u32,
    plane: &mut Plane,
)
    requires side { side ≡ side_of component }
    requires least { 0 < side }
    requires whole { IsWhole plane.old }
    requires wide { plane.old.width ≤ across * side }
    requires there { (y : ℕ) → y < plane.old.height →
        (y / side + 1) * across ≤ length (B.blocks blocks.now) }
    requires few { length (B.blocks blocks.now) < 2 ^ 32 }
    ensures { plane.new ≡ joined_plane side across plane.old.width plane.old.height
        (lists_of component (B.blocks blocks.now)) }
{
    for y in 0..plane.height() {
        join_row(blocks, component, side, across, y, plane);
    }
}

/// Puts a picture together from the samples of its coding tree blocks, which stand in raster order
/// (6.5.1).
pub(crate) fn join_picture<B: Blocks>(blocks: &B, picture: &mut Picture)
    requires picture { IsPicture picture.old.luma.width picture.old.luma.height picture.old }
    requires count { length (B.blocks blocks.now) ≡
        blocks_over luma_side picture.old.luma.width *
        blocks_over luma_side picture.old.luma.height }
    requires few { length (B.blocks blocks.now) < 2 ^ 32 }
    ensures { picture.new ≡ joined_picture picture.old.luma.width picture.old.luma.height
        (B.blocks blocks.now) }
{
    let across = picture.luma.width().div_ceil(LUMA_SIDE);
    join_plane(
        blocks,
        Component::Luma,
        LUMA_SIDE,
        across,
        &mut picture.luma,
    );
    join_plane(blocks, Component::Cb, CHROMA_SIDE, across, &mut picture.cb);
    join_plane(blocks, Component::Cr, CHROMA_SIDE, across, &mut picture.cr);
}
