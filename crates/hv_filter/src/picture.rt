//! A picture behind the in-loop filters.

ghost use Rattle.std.specs.Prelude.{◌≡◌, ◌*◌, ◌<◌, length};
ghost use Rattle.hv_types.specs.Configuration.{columns, rows};
ghost use Rattle.hv_types.specs.Video.{IsPadded};
ghost use Rattle.hv_filter.specs.FilteredPicture.{working_picture, picture_sao, shown_of_blocks};

use crate::choices::choose_offsets;
use crate::join::join_picture;
use crate::squares::BlockSquares;
use hv_block::{Blocks, Frame};
use hv_deblock::deblock;
use hv_decision::Group;
use hv_sao::apply_sao;

/// The in-loop filters (8.7) of picture `picture` of a group, whose coding tree blocks are
/// `blocks`, in raster order: `working` of the frame becomes the deblocked picture, `sao` the
/// encoder's offsets of each block, all off at effort 0, and `shown` the picture with these
/// offsets. What the frame had before doesn't matter, and it has the same sides and as many blocks
/// again. It takes no memory, and always answers.
pub fn filter_picture<B: Blocks>(group: &Group, picture: u8, blocks: &B, frame: &mut Frame)
    requires picture { picture < length group.now.input.pictures }
    requires blocks { length (B.blocks blocks.now) ≡
        columns group.now.input.config * rows group.now.input.config }
    requires shown { IsPadded group.now.input.config frame.old.shown }
    requires working { IsPadded group.now.input.config frame.old.working }
    requires sao { length frame.old.sao.items ≡
        columns group.now.input.config * rows group.now.input.config }
    ensures working { frame.new.working ≡
        working_picture group.now.input picture (B.blocks blocks.now) }
    ensures sao { frame.new.sao.items ≡
        picture_sao group.now.input picture (B.blocks blocks.now) }
    ensures shown { frame.new.shown ≡
        shown_of_blocks group.now.input picture (B.blocks blocks.now) }
    ensures shown_padded { IsPadded group.now.input.config frame.new.shown }
    ensures working_padded { IsPadded group.now.input.config frame.new.working }
    ensures count { length frame.new.sao.items ≡
        columns group.now.input.config * rows group.now.input.config }
{
    let config = group.input.config();
    let settings = config.settings();
    let qp = group.structure.qp(picture, settings.qp);
    join_picture(blocks, &mut frame.working);
    let squares = BlockSquares {
        blocks,
        columns: config.padded_width() / 8,
        rows: config.padded_height() / 8,
    };
    deblock(&mut frame.working, &squares, qp);
    let input = group.input.picture(picture);
    choose_offsets(settings.effort, qp, &frame.working, input, &mut frame.sao);
    apply_sao(&frame.working, &frame.sao, &mut frame.shown);
}
