//! What stands of a picture when it is filtered.

ghost use Rattle.std.specs.Prelude.{◌≡◌, ◌*◌, ◌/◌, IfOk, replicate};
ghost use Rattle.hv_types.specs.Configuration.{padded_width, padded_height, columns, rows};
ghost use Rattle.hv_types.specs.Video.{IsPadded};
ghost use Rattle.hv_filter_model.specs.FlatPictures.{flat_picture};
ghost use Rattle.hv_filter_model.specs.SampleAdaptiveOffset.{off_param};

use hv_plan::{SaoComponent, SaoKind, SaoParam};
use hv_types::{Config, NoMemory, Picture, Plane};
use std::alloc::Global;

/// A picture behind the in-loop filters (8.7): `shown` is what a decoder shows and other pictures
/// refer to, `working` the deblocked picture, and `sao` the offsets of each coding tree block, in
/// raster order. Both pictures are padded.
#[derive(Drop)]
pub struct Frame {
    pub shown: Picture,
    pub working: Picture,
    pub sao: Vec<SaoParam>,
}

/// The choice by which no sample of a coding tree block is offset (7.4.9.3: `SaoTypeIdx` 0). Takes
/// no memory.
pub fn no_offsets() -> SaoParam
    ensures { result ≡ off_param }
{
    let off = SaoComponent {
        kind: SaoKind::Off,
        offsets: [0; 4],
    };
    SaoParam {
        luma: off,
        cb: off,
        cr: off,
    }
}

/// A padded picture of these settings whose samples are all 0.
fn picture_of_zeros(alloc: Global, config: &Config) -> Result<Picture, NoMemory>
    ensures { IfOk result (λ picture. picture ≡
        flat_picture (padded_width config.now) (padded_height config.now) 0 0 0) }
{
    let width = config.padded_width();
    let height = config.padded_height();
    Ok(Picture {
        luma: Plane::new(alloc, width, height, 0)?,
        cb: Plane::new(alloc, width / 2, height / 2, 0)?,
        cr: Plane::new(alloc, width / 2, height / 2, 0)?,
    })
}

impl Frame {
    /// A frame for pictures of these settings: both pictures have samples of 0, and no sample is
    /// offset in any coding tree block. The only error is want of memory.
    pub fn new(alloc: Global, config: &Config) -> Result<Self, NoMemory>
        ensures shown { IfOk result (λ frame. frame.shown ≡
            flat_picture (padded_width config.now) (padded_height config.now) 0 0 0) }
        ensures working { IfOk result (λ frame. frame.working ≡
            flat_picture (padded_width config.now) (padded_height config.now) 0 0 0) }
        ensures sao { IfOk result (λ frame. frame.sao.items ≡
            replicate (columns config.now * rows config.now) off_param) }
        ensures padded { IfOk result (λ frame.
            IsPadded config.now frame.shown × IsPadded config.now frame.working) }
    {
        let shown = picture_of_zeros(alloc, config)?;
        let working = picture_of_zeros(alloc, config)?;
        let blocks = config.columns() as usize * config.rows() as usize;
        let sao = vec![in alloc; no_offsets(); blocks]?;
        Ok(Frame {
            shown,
            working,
            sao,
        })
    }
}
