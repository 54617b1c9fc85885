//! Offsets over a picture.

ghost use Rattle.std.specs.Prelude.{◌≡◌, ℕ, ◌+◌, ◌-◌, ◌*◌, ◌/◌, ◌<◌, ◌≤◌, All, length, map};
ghost use Rattle.hv_types.specs.Samples.{IsPlane};
ghost use Rattle.hv_types.specs.Video.{IsPicture};
ghost use Rattle.hv_filter_model.specs.Blocks.{luma_side, blocks_over};
ghost use Rattle.hv_filter_model.specs.SampleAdaptiveOffset.{IsKind, IsValidParam, sao_sample, sao_plane, sao_picture};
ghost use Rattle.hv_sao.specs.Components.{component_of};
ghost use Rattle.hv_sao.specs.Planes.{IsWritten, block_sample};

use crate::bands::{LANES, put_bands};
use crate::component::Component;
use crate::rows::fill_row;
use crate::sides::{CHROMA_SIDE, LUMA_SIDE};
use hv_plan::{SaoComponent, SaoKind, SaoParam};
use hv_types::{Picture, Plane};

/// Writes the columns `from` to `to` of row `y` with their offsets.
#[inline(always)]
fn apply_part(
    choice: SaoComponent,
    deblocked: &Plane,
    y: u32,
    from: u32,
    to: u32,
    shown: &mut Plane,
)
    requires kind { IsKind choice.kind }
    requires down { y < deblocked.now.height }
    requires order { from ≤ to }
    requires most { to ≤ from + 64 }
    requires across { to ≤ deblocked.now.width }
    requires shown { IsPlane deblocked.now.width deblocked.now.height shown.old }
    ensures { IsWritten from y (to - from) (λ i. sao_sample choice deblocked.now (from + i) y)
        shown.old shown.new }
{
    match choice.kind {
        SaoKind::Band { position } if to - from >= LANES => {
            put_bands(choice, position, deblocked, y, from, to, shown);
        }
        _ => {
            let mut row = [0u8; 64];
            let part = &mut row[..(to - from) as usize];
            fill_row(choice, deblocked, y, from, to, part);
            shown.set_run(from, y, part);
        }
    }
}

/// Writes row `y` with its offsets. Its blocks have this side, and their choices stand from place
/// `first` on.
#[inline(always)]
fn apply_row(
    deblocked: &Plane,
    y: u32,
    side: u32,
    sao: &[SaoParam],
    first: usize,
    component: Component,
    shown: &mut Plane,
)
    requires least { 0 < side }
    requires most { side ≤ 64 }
    requires down { y < deblocked.now.height }
    requires room { deblocked.now.width + first * side ≤ length sao.now * side }
    requires valid { All IsValidParam sao.now }
    requires shown { IsPlane deblocked.now.width deblocked.now.height shown.old }
    ensures { IsWritten 0 y deblocked.now.width
        (block_sample component sao.now first side deblocked.now y) shown.old shown.new }
{
    let width = deblocked.width();
    for column in 0..width.div_ceil(side) {
        let from = column * side;
        let to = from + side.min(width - from);
        let choice = component.of(sao[first + column as usize]);
        apply_part(choice, deblocked, y, from, to, shown);
    }
}

/// Writes a plane with its offsets. Its blocks have this side, and `across` of them stand in a row.
#[inline(always)]
fn apply_plane(
    deblocked: &Plane,
    side: u32,
    across: u32,
    sao: &[SaoParam],
    component: Component,
    shown: &mut Plane,
)
    requires least { 0 < side }
    requires most { side ≤ 64 }
    requires wide { deblocked.now.width ≤ across * side }
    requires room { (y : ℕ) → y < deblocked.now.height → (y / side + 1) * across ≤ length sao.now }
    requires valid { All IsValidParam sao.now }
    requires shown { IsPlane deblocked.now.width deblocked.now.height shown.old }
    ensures { shown.new ≡
        sao_plane side across (map (component_of component) sao.now) deblocked.now }
{
    for y in 0..deblocked.height() {
        let first = (y / side) as usize * across as usize;
        apply_row(deblocked, y, side, sao, first, component, shown);
    }
}

/// Sample adaptive offset of a picture (8.7.3). `shown` becomes `deblocked` with the offsets of
/// `sao`, which has one choice for each coding tree block of 64x64 luma samples, in raster order.
/// Neighbours of a sample are taken from `deblocked`, also those in other blocks. Both are whole
/// pictures in 4:2:0 of the same sides.
pub fn apply_sao(deblocked: &Picture, sao: &[SaoParam], shown: &mut Picture)
    requires deblocked { IsPicture deblocked.now.luma.width deblocked.now.luma.height
        deblocked.now }
    requires shown { IsPicture deblocked.now.luma.width deblocked.now.luma.height shown.old }
    requires count { length sao.now ≡
        blocks_over luma_side deblocked.now.luma.width *
        blocks_over luma_side deblocked.now.luma.height }
    requires valid { All IsValidParam sao.now }
    ensures { shown.new ≡ sao_picture deblocked.now sao.now }
{
    let across = deblocked.luma.width().div_ceil(LUMA_SIDE);
    apply_plane(
        &deblocked.luma,
        LUMA_SIDE,
        across,
        sao,
        Component::Luma,
        &mut shown.luma,
    );
    apply_plane(
        &deblocked.cb,
        CHROMA_SIDE,
        across,
        sao,
        Component::Cb,
        &mut shown.cb,
    );
    apply_plane(
        &deblocked.cr,
        CHROMA_SIDE,
        across,
        sao,
        Component::Cr,
        &mut shown.cr,
    );
}
