//! The encoding of a group of pictures.

ghost use Rattle.std.specs.Prelude.{◌≡◌, ◌++◌, [], length, replicate, IfOk, OnOk};
ghost use Rattle.hv_types.specs.Configuration.{IsValid};
ghost use Rattle.hv_model.specs.InterPictures.{encode_group};
ghost use Rattle.hv_serial.specs.Steps.{OfPadded, emitted};
ghost use Rattle.hv_serial.specs.GroupPictures.{ArePadded};
ghost use Rattle.hv_serial.specs.BlankGroups.{blank_units_of, grey_pictures};
ghost use Rattle.hv_serial.specs.Workspaces.{IsWorkspace};

use crate::pictures::encode_chosen_group;
use crate::workspace::Workspace;
use hv_decision::{Group, GroupOutput};
use hv_model::groups_are_blank_at_effort_zero;
use hv_packet::picture_unit;
use hv_types::{Emit, NoMemory};
use std::alloc::Global;

/// The middle one of the values of a sample.
const GREY: u8 = 128;

/// The output of a group, in a workspace for its settings: its units in coding order and, where
/// reconstructed pictures are emitted, these in output order. At effort 0 nothing is chosen. The
/// only error is want of memory.
pub fn encode_group_serial(
    alloc: Global,
    group: &Group,
    work: &mut Workspace,
) -> Result<GroupOutput, NoMemory>
    requires valid { IsValid group.now.input.config }
    requires work { IsWorkspace group.now.input.config work.old }
    ensures slices { IfOk result (λ output. OfPadded group.now.input.pictures (λ pictures.
        output.slices ≡ (encode_group group.now.input.config pictures).units)) }
    ensures shown { IfOk result (λ output. OfPadded group.now.input.pictures (λ pictures.
        output.shown ≡ emitted group.now.input.config.emit
        (encode_group group.now.input.config pictures).shown)) }
    ensures work { IsWorkspace group.now.input.config work.new }
{
    match work {
        Workspace::Blank => {
            groups_are_blank_at_effort_zero();
            encode_blank_group(alloc, group)
        }
        Workspace::Chosen(space) => {
            pictures_are_padded(group);
            encode_chosen_group(alloc, group, space)
        }
    }
}

/// Padding keeps the pictures of a group as they are.
fn pictures_are_padded(group: &Group)
    ensures { ArePadded group.now.input }
{
    for picture in 0..group.input.count() {
        group.input.picture(picture);
    }
}

/// The output of a group in which nothing is chosen, as at effort 0: the samples of its pictures
/// change nothing, and each is shown grey.
fn encode_blank_group(alloc: Global, group: &Group) -> Result<GroupOutput, NoMemory>
    requires valid { IsValid group.now.input.config }
    requires effort { group.now.input.config.effort ≡ 0 }
    ensures slices { IfOk result (λ output. output.slices ≡
        blank_units_of group.now.input.config (length group.now.input.pictures)) }
    ensures shown { IfOk result (λ output. output.shown ≡
        grey_pictures group.now.input.config.emit group.now.input.config
        (length group.now.input.pictures)) }
{
    let mut output = code_blank_pictures(alloc, group)?;
    let config = group.input.config();
    match config.settings().emit {
        Emit::Stream => {}
        Emit::Recon => {
            let size = config.picture_bytes() as usize;
            push_grey(alloc, group.input.count(), size, &mut output)?;
        }
    }
    Ok(output)
}

/// The units of the pictures of a group in which nothing is chosen, in coding order.
fn code_blank_pictures(alloc: Global, group: &Group) -> Result<GroupOutput, NoMemory>
    requires valid { IsValid group.now.input.config }
    requires effort { group.now.input.config.effort ≡ 0 }
    ensures slices { IfOk result (λ output. output.slices ≡
        blank_units_of group.now.input.config (length group.now.input.pictures)) }
    ensures shown { IfOk result (λ output. output.shown ≡ []) }
{
    let mut output = GroupOutput::new(alloc);
    for place in 0..group.structure.count() {
        let unit = picture_unit(alloc, group, group.structure.order(place))?;
        output.push_slice(unit)?;
    }
    Ok(output)
}

/// Appends so many grey pictures of so many bytes to those that are shown.
fn push_grey(
    alloc: Global,
    count: u8,
    size: usize,
    output: &mut GroupOutput,
) -> Result<(), NoMemory>
    ensures slices { OnOk result (output.new.slices ≡ output.old.slices) }
    ensures shown { OnOk result (output.new.shown ≡
        output.old.shown ++ replicate count (replicate size 128)) }
{
    for _index in 0..count {
        output.push_shown(vec![in alloc; GREY; size]?)?;
    }
    Ok(())
}
