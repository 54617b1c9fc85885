//! The coding of a picture whose coding tree blocks are chosen.

ghost use Rattle.std.specs.Prelude.{◌≡◌, ◌*◌, ◌<◌, length, IfOk};
ghost use Rattle.hv_types.specs.Configuration.{columns, rows};
ghost use Rattle.hv_types.specs.Video.{IsPadded};
ghost use Rattle.hv_model.specs.InterPictures.{PictureSource, recon_picture};
ghost use Rattle.hv_serial.specs.CodedBlocks.{AreChosen, source_unit};

use hv_block::{Block, Frame};
use hv_decision::Group;
use hv_filter::filter_picture;
use hv_packet::code_picture;
use hv_types::NoMemory;
use std::alloc::Global;

/// Filters a picture of the group (8.7) and codes it, from its coding tree blocks, which are those
/// that are chosen for it: the picture's unit, with its start code (7.3.1, Annex B). `shown` of the
/// frame becomes the picture that a decoder shows, before it is cropped. What the frame had before
/// doesn't matter. The only error is want of memory, for the bytes of the unit.
pub(crate) fn code_blocks(
    alloc: Global,
    group: &Group,
    picture: u8,
    blocks: &Vec<Block>,
    frame: &mut Frame,
) -> Result<Vec<u8>, NoMemory>
    requires picture { picture < length group.now.input.pictures }
    requires chosen { (source : PictureSource) ×
        AreChosen group.now.input picture source blocks.now.items }
    requires shown { IsPadded group.now.input.config frame.old.shown }
    requires working { IsPadded group.now.input.config frame.old.working }
    requires sao { length frame.old.sao.items ≡
        columns group.now.input.config * rows group.now.input.config }
    ensures unit { (source : PictureSource) →
        AreChosen group.now.input picture source blocks.now.items →
        IfOk result (λ unit. unit.items ≡ source_unit group.now.input.config source) }
    ensures shown { (source : PictureSource) →
        AreChosen group.now.input picture source blocks.now.items →
        frame.new.shown ≡ recon_picture group.now.input.config source }
    ensures shown_padded { IsPadded group.now.input.config frame.new.shown }
    ensures working_padded { IsPadded group.now.input.config frame.new.working }
    ensures sao_count { length frame.new.sao.items ≡
        columns group.now.input.config * rows group.now.input.config }
{
    filter_picture(group, picture, blocks, frame);
    code_picture(alloc, group, picture, blocks, &frame.sao)
}
