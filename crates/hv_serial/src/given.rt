//! What is given for the choice of a picture of a group, and the choice itself.

ghost use Rattle.std.specs.Prelude.{◌≡◌, ◌*◌, ◌<◌, ℕ, length, Some, None};
ghost use Rattle.std.specs.Option.{option_copied, option_and_then};
ghost use Rattle.hv_types.specs.declared.settings.Settings.{Settings};
ghost use Rattle.hv_types.specs.Configuration.{IsValid, padded_width, padded_height, columns, rows};
ghost use Rattle.hv_stream_model.specs.Headers.{used_count};
ghost use Rattle.hv_slice_model.specs.Slices.{header_in};
ghost use Rattle.hv_serial.specs.CodedBlocks.{HaveUnits, AreChosen};
ghost use Rattle.hv_serial.specs.GroupPictures.{ArePadded, source_in, IsFound, ShowReferences};
ghost use Rattle.hv_serial.specs.GivenPictures.{IsGiven, distance_from, frame_of};
ghost use Rattle.hv_serial.specs.Workspaces.{AreFrames};

use crate::slots::{frames_serve, slot_of};
use hv_amvp::Distances;
use hv_block::{Block, Frame};
use hv_decision::{Group, orders_are_sound};
use hv_mode::{PictureTask, Room, decide_blocks};
use hv_model::sets_give_the_references;
use hv_search::Motion;
use hv_slice::active_references;
use hv_tables::SliceKind;

/// Chooses the coding tree blocks of a picture of the group, from what motion search found for it,
/// and the frames that show the pictures to which it refers. It takes no memory.
pub(crate) fn decide_picture(
    group: &Group,
    picture: u8,
    motion: Option<&Motion>,
    frames: &[Frame],
    room: &mut Room,
    blocks: &mut Vec<Block>,
)
    requires valid { IsValid group.now.input.config }
    requires padded { ArePadded group.now.input }
    requires picture { picture < length group.now.input.pictures }
    requires found { IsFound group.now.input picture (option_copied motion) }
    requires frames { AreFrames group.now.input.config frames.now }
    requires references { ShowReferences group.now.input picture frames.now }
    requires blocks { length blocks.old.items ≡
        columns group.now.input.config * rows group.now.input.config }
    ensures { AreChosen group.now.input picture (source_in group.now.input picture)
        blocks.new.items }
{
    sets_give_the_references();
    orders_are_sound();
    group.structure.count();
    group.structure.levels();
    let task = picture_task(group, picture, motion, frames);
    decide_blocks(&task, room, blocks);
    have_units(blocks);
}

/// What is given for the coding tree blocks of a picture of the group.
fn picture_task<'a>(
    group: &'a Group,
    picture: u8,
    motion: Option<&'a Motion>,
    frames: &'a [Frame],
) -> PictureTask<'a>
    requires picture { picture < length group.now.input.pictures }
    requires found { IsFound group.now.input picture (option_copied motion) }
    requires frames { AreFrames group.now.input.config frames.now }
    ensures { IsGiven group.now.input picture (option_copied motion.entry) frames.now result }
{
    frames_serve();
    orders_are_sound();
    group.structure.levels();
    group.input.count();
    let config = group.input.config();
    let settings = config.settings();
    let first = group.structure.first(picture);
    let second = group.structure.second(picture);
    PictureTask {
        effort: settings.effort,
        qp: group.structure.qp(picture, settings.qp),
        input: group.input.picture(picture),
        kind: kind_of(picture),
        references: references_of(group, picture),
        width: config.padded_width(),
        height: config.padded_height(),
        distances: Distances {
            first: distance_from(picture, first),
            second: distance_from(picture, second),
        },
        motion,
        first: frame_of(group, frames, first),
        second: frame_of(group, frames, second),
    }
}

/// The kind of the slice of a picture of a group (7.4.7.1).
fn kind_of(picture: u8) -> SliceKind
    ensures { (cfg : Settings) (count : ℕ) → result ≡ (header_in cfg count picture).slice_type }
{
    if picture == 0 {
        SliceKind::I
    } else {
        SliceKind::P
    }
}

/// How many pictures the slice of a picture of the group refers to.
fn references_of(group: &Group, picture: u8) -> u8
    requires picture { picture < length group.now.input.pictures }
    ensures { result ≡ used_count (source_in group.now.input picture).header.references }
{
    if picture == 0 {
        0
    } else {
        active_references(&group.structure, picture)
    }
}

/// The picture order count of a picture less that of another one of its group (8.3.1), 0 where
/// there is none.
fn distance_from(picture: u8, reference: Option<u8>) -> i8
    requires picture { picture < 64 }
    requires reference { (k : ℕ) → reference ≡ Some k → k < 64 }
    ensures { result ≡ distance_from picture reference }
{
    match reference {
        Some(other) => picture as i8 - other as i8,
        None => 0,
    }
}

/// The frame of a picture of the group, where there is one.
fn frame_of<'a>(group: &Group, frames: &'a [Frame], reference: Option<u8>) -> Option<&'a Frame>
    requires { (k : ℕ) → reference ≡ Some k → k < length group.now.input.pictures }
    ensures { option_copied result ≡ option_and_then
        (frame_of frames.now (length group.now.input.pictures) group.now.input.config.levels)
        reference }
{
    match reference {
        Some(other) => frames.get(usize::from(slot_of(&group.structure, other))),
        None => None,
    }
}

/// The plan of each block has a unit for each square.
fn have_units(blocks: &[Block])
    ensures { HaveUnits (length blocks.now) blocks.now }
{
    for index in 0..blocks.len() {
        blocks[index].plan.units();
    }
}
