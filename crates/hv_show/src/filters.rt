//! The in-loop filters over the blocks of a picture.

ghost use Rattle.std.specs.Prelude.{◌≡◌, IsTrue, All};
ghost use Rattle.hv_types.specs.Samples.{IsPlane};
ghost use Rattle.hv_types.specs.Video.{IsPicture};
ghost use Rattle.hv_filter_model.specs.SampleAdaptiveOffset.{IsValidParam};

use crate::headers::Sides;
use crate::memory::enough;
use anyhow::bail;
use hv_block::{Block, Frame};
use hv_decision::{Group, Structure};
use hv_filter::filter_picture;
use hv_plan::SaoParam;
use hv_sao::apply_sao;
use hv_types::{Config, Emit, GroupInput, Picture, Plane, Settings};
use std::alloc::Global;

/// A group of one picture of these sides and this quantiser, at effort 0: then `filter_picture`
/// chooses no offsets. Its input isn't looked at.
pub(crate) fn group_of(alloc: Global, sides: Sides, qp: u8) -> anyhow::Result<Group> {
    let Ok(config) = Config::checked(Settings {
        width: sides.shown_width,
        height: sides.shown_height,
        qp,
        levels: 0,
        group: 1,
        workers: 1,
        effort: 0,
        segment: 1,
        emit: Emit::Recon,
        synth: None,
    }) else {
        bail!("settings out of range");
    };
    if config.padded_width() != sides.width || config.padded_height() != sides.height {
        bail!("the size isn't padded to the next multiple of 8");
    }
    let raw = vec![in alloc; 0u8; config.picture_bytes() as usize]?;
    let mut input = enough(GroupInput::new(alloc, config))?;
    enough(input.push(&raw))?;
    let structure = enough(Structure::of(alloc, input.count(), 0))?;
    Ok(Group {
        number: 0,
        input,
        structure,
    })
}

/// The picture of these blocks behind both filters (8.7), with these offsets.
pub(crate) fn filter_blocks(
    alloc: Global,
    group: &Group,
    blocks: &Vec<Block>,
    offsets: &[SaoParam],
) -> anyhow::Result<Picture>
    requires { All IsValidParam offsets.now }
{
    let config = group.input.config();
    let count = config.columns() as usize * config.rows() as usize;
    let mut frame = enough(Frame::new(alloc, &config))?;
    if blocks.len() != count || frame.sao.len() != count {
        bail!("not the blocks of a picture");
    }
    filter_picture(group, 0, blocks, &mut frame);
    let Frame {
        mut shown,
        working,
        sao: _,
    } = frame;
    apply_offsets(&working, offsets, &mut shown)?;
    Ok(shown)
}

/// Puts the deblocked picture with these offsets into `shown`.
fn apply_offsets(working: &Picture, offsets: &[SaoParam], shown: &mut Picture) -> anyhow::Result<()>
    requires { All IsValidParam offsets.now }
{
    let width = working.luma.width();
    let height = working.luma.height();
    if !is_picture(working, width, height) || !is_picture(shown, width, height) {
        bail!("the sides differ");
    }
    if offsets.len() as u64 != u64::from(width.div_ceil(64)) * u64::from(height.div_ceil(64)) {
        bail!("not a choice for each block");
    }
    apply_sao(working, offsets, shown);
    Ok(())
}

/// Whether a picture has these sides in luma, and half of them in chroma.
fn is_picture(picture: &Picture, width: u32, height: u32) -> bool
    ensures { IsTrue result → IsPicture width height picture.now }
{
    if !has_sides(&picture.luma, width, height) || !has_sides(&picture.cb, width / 2, height / 2) {
        return false;
    }
    has_sides(&picture.cr, width / 2, height / 2)
}

/// Whether a plane has these sides.
fn has_sides(plane: &Plane, width: u32, height: u32) -> bool
    ensures { IsTrue result → IsPlane width height plane.now }
{
    let _samples = plane.samples();
    if plane.width() != width {
        return false;
    }
    plane.height() == height
}
