//! The pictures of a group, one after another in coding order.

ghost use Rattle.std.specs.Prelude.{◌≡◌, ◌+◌, ◌<◌, ◌++◌, [], length, replicate, IfOk, OnOk};
ghost use Rattle.hv_types.specs.declared.settings.Emit.TheVariants.{Stream, Recon};
ghost use Rattle.hv_types.specs.Configuration.{IsValid};
ghost use Rattle.hv_types.specs.Video.{IsPadded};
ghost use Rattle.hv_model.specs.InterPictures.{encode_group};
ghost use Rattle.hv_serial.specs.Steps.{emitted};
ghost use Rattle.hv_serial.specs.GroupPictures.{ArePadded, HoldsAt, OutputTo};
ghost use Rattle.hv_serial.specs.ShownPictures.{empty_places, PutsShown};
ghost use Rattle.hv_serial.specs.Workspaces.{IsSpace};

use crate::chosen::code_group_picture;
use crate::shown::shown_bytes_of;
use crate::slots::{frames_serve, slot_of};
use crate::workspace::GroupSpace;
use hv_decision::{Group, GroupOutput, orders_are_sound};
use hv_types::{Emit, NoMemory, Picture};
use std::alloc::Global;

/// The output of a group whose coding tree blocks are chosen: its units in coding order and, where
/// reconstructed pictures are emitted, these in output order. The only error is want of memory.
pub(crate) fn encode_chosen_group(
    alloc: Global,
    group: &Group,
    space: &mut GroupSpace,
) -> Result<GroupOutput, NoMemory>
    requires valid { IsValid group.now.input.config }
    requires padded { ArePadded group.now.input }
    requires space { IsSpace group.now.input.config space.old }
    ensures slices { IfOk result (λ output. output.slices ≡
        (encode_group group.now.input.config group.now.input.pictures).units) }
    ensures shown { IfOk result (λ output. output.shown ≡
        emitted group.now.input.config.emit
        (encode_group group.now.input.config group.now.input.pictures).shown) }
    ensures space { IsSpace group.now.input.config space.new }
{
    orders_are_sound();
    let mut output = places(alloc, group)?;
    for place in 0..group.structure.count() {
        code_next(alloc, group, place, space, &mut output)?;
    }
    Ok(output)
}

/// No unit yet and, where reconstructed pictures are emitted, a place for each picture.
fn places(alloc: Global, group: &Group) -> Result<GroupOutput, NoMemory>
    ensures slices { IfOk result (λ output. output.slices ≡ []) }
    ensures shown { IfOk result (λ output. output.shown ≡
        empty_places group.now.input.config.emit (length group.now.input.pictures)) }
{
    let mut output = GroupOutput::new(alloc);
    match group.input.config().settings().emit {
        Emit::Stream => {}
        Emit::Recon => push_places(alloc, group.input.count(), &mut output)?,
    }
    Ok(output)
}

/// Appends so many places to the pictures that are shown.
fn push_places(alloc: Global, count: u8, output: &mut GroupOutput) -> Result<(), NoMemory>
    ensures slices { OnOk result (output.new.slices ≡ output.old.slices) }
    ensures shown { OnOk result (output.new.shown ≡ output.old.shown ++ replicate count []) }
{
    for _index in 0..count {
        output.push_shown(Vec::new(alloc))?;
    }
    Ok(())
}

/// Codes the picture at this place of the coding order, behind those before it.
fn code_next(
    alloc: Global,
    group: &Group,
    place: u8,
    space: &mut GroupSpace,
    output: &mut GroupOutput,
) -> Result<(), NoMemory>
    requires valid { IsValid group.now.input.config }
    requires padded { ArePadded group.now.input }
    requires place { place < length group.now.input.pictures }
    requires space { IsSpace group.now.input.config space.old }
    requires held { HoldsAt group.now.input place space.old.frames.items }
    requires output { OutputTo group.now.input place output.old }
    ensures space { IsSpace group.now.input.config space.new }
    ensures held { OnOk result (HoldsAt group.now.input (place + 1) space.new.frames.items) }
    ensures output { OnOk result (OutputTo group.now.input (place + 1) output.new) }
{
    orders_are_sound();
    frames_serve();
    group.structure.levels();
    group.input.count();
    let picture = group.structure.order(place);
    let unit = code_group_picture(alloc, group, picture, space)?;
    output.push_slice(unit)?;
    let slot = slot_of(&group.structure, picture);
    put_shown(
        alloc,
        group,
        picture,
        &space.frames[usize::from(slot)].shown,
        output,
    )
}

/// Where reconstructed pictures are emitted, puts the bytes of what is shown of a padded picture
/// into its place. The only error is want of memory.
fn put_shown(
    alloc: Global,
    group: &Group,
    picture: u8,
    shown: &Picture,
    output: &mut GroupOutput,
) -> Result<(), NoMemory>
    requires padded { IsPadded group.now.input.config shown.now }
    requires place { group.now.input.config.emit ≡ Recon → picture < length output.old.shown }
    ensures { OnOk result
        (PutsShown group.now.input.config picture shown.now output.old output.new) }
{
    let config = group.input.config();
    match config.settings().emit {
        Emit::Stream => {}
        Emit::Recon => {
            output.shown[usize::from(picture)] = shown_bytes_of(alloc, &config, shown)?;
        }
    }
    Ok(())
}
