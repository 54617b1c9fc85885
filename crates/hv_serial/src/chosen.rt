//! The coding of a picture of a group whose coding tree blocks are chosen.

ghost use Rattle.std.specs.Prelude.{◌≡◌, ◌<◌, length, IfOk, OnOk};
ghost use Rattle.hv_types.specs.Configuration.{IsValid};
ghost use Rattle.hv_model.specs.InterPictures.{picture_unit};
ghost use Rattle.hv_serial.specs.GroupPictures.{ArePadded, recon_in, IsFound, ShowReferences};
ghost use Rattle.hv_serial.specs.Slots.{slot_of};
ghost use Rattle.hv_serial.specs.Workspaces.{IsSpace, Rewrites};

use crate::coded::code_blocks;
use crate::given::decide_picture;
use crate::slots::{frames_serve, slot_of};
use crate::workspace::GroupSpace;
use hv_decision::Group;
use hv_model::pictures_follow_their_references;
use hv_search::{Motion, search_picture};
use hv_types::NoMemory;
use std::alloc::Global;

/// Chooses the coding tree blocks of a picture of the group behind the pictures to which it refers,
/// filters what is decoded of them (8.7), and codes them: the picture's unit, with its start code
/// (7.3.1, Annex B). `shown` of its frame becomes the picture that a decoder shows, before it is
/// cropped. The only error is want of memory, for motion search and the bytes of the unit.
pub(crate) fn code_group_picture(
    alloc: Global,
    group: &Group,
    picture: u8,
    space: &mut GroupSpace,
) -> Result<Vec<u8>, NoMemory>
    requires valid { IsValid group.now.input.config }
    requires padded { ArePadded group.now.input }
    requires picture { picture < length group.now.input.pictures }
    requires space { IsSpace group.now.input.config space.old }
    requires references { ShowReferences group.now.input picture space.old.frames.items }
    ensures unit { IfOk result (λ unit. unit.items ≡
        picture_unit group.now.input.config group.now.input.pictures picture) }
    ensures shown { OnOk result (Rewrites space.old.frames.items
        (slot_of (length group.now.input.pictures) group.now.input.config.levels picture)
        (recon_in group.now.input picture) space.new.frames.items) }
    ensures space { IsSpace group.now.input.config space.new }
{
    let motion = searched(alloc, group, picture)?;
    let motion = motion.as_ref();
    decide_picture(
        group,
        picture,
        motion,
        &space.frames,
        &mut space.room,
        &mut space.blocks,
    );
    frames_serve();
    pictures_follow_their_references();
    group.structure.levels();
    group.input.count();
    let slot = slot_of(&group.structure, picture);
    let frame = &mut space.frames[usize::from(slot)];
    code_blocks(alloc, group, picture, &space.blocks, frame)
}

/// What motion search finds for a picture of the group. The first one has nothing to refer to. The
/// only error is want of memory.
fn searched(alloc: Global, group: &Group, picture: u8) -> Result<Option<Motion>, NoMemory>
    requires { picture < length group.now.input.pictures }
    ensures { IfOk result (IsFound group.now.input picture) }
{
    if picture == 0 {
        Ok(None)
    } else {
        Ok(Some(search_picture(alloc, group, picture)?))
    }
}
