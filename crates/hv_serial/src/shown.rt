//! The bytes of a picture as it is shown.

ghost use Rattle.std.specs.Prelude.{◌≡◌, ◌<◌, ◌≤◌, ◌++◌, IfOk, OnOk};
ghost use Rattle.hv_types.specs.Samples.{crop_plane};
ghost use Rattle.hv_types.specs.Video.{IsPadded, raw, crop};

use hv_types::{Config, NoMemory, Picture, Plane};
use std::alloc::Global;

/// The bytes of what is shown of a padded picture of these settings: those of its upper left part
/// that has the sides of the input. The only error is want of memory.
pub(crate) fn shown_bytes_of(
    alloc: Global,
    config: &Config,
    picture: &Picture,
) -> Result<Vec<u8>, NoMemory>
    requires padded { IsPadded config.now picture.now }
    ensures { IfOk result (λ bytes. bytes.items ≡
        raw (crop picture.now config.now.width config.now.height)) }
{
    let settings = config.settings();
    let (width, height) = (settings.width, settings.height);
    let mut bytes = Vec::with_capacity(alloc, config.picture_bytes() as usize)?;
    append_cropped(&picture.luma, width, height, &mut bytes)?;
    append_cropped(&picture.cb, width / 2, height / 2, &mut bytes)?;
    append_cropped(&picture.cr, width / 2, height / 2, &mut bytes)?;
    Ok(bytes)
}

/// Appends the samples of the upper left part of a plane that has these sides, by rows.
fn append_cropped(
    plane: &Plane,
    width: u32,
    height: u32,
    bytes: &mut Vec<u8>,
) -> Result<(), NoMemory>
    requires some { 0 < height }
    requires across { width ≤ plane.now.width }
    requires down { height ≤ plane.now.height }
    ensures { OnOk result (bytes.new.items ≡
        bytes.old.items ++ (crop_plane plane.now width height).samples) }
{
    let part = plane.window(0, 0, width, height);
    for y in 0..part.rows {
        bytes.extend_from_slice(part.row(y))?;
    }
    Ok(())
}
