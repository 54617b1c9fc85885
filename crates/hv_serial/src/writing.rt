//! The encoding and writing of a group of pictures.

ghost use Rattle.std.specs.Prelude.{◌≡◌, ◌<◌, ◌++◌, length, flat_map, nat_eq, IfOk};
ghost use Rattle.hv_types.specs.Configuration.{IsValid};
ghost use Rattle.hv_serial.specs.Transfers.{put};
ghost use Rattle.hv_serial.specs.Steps.{EndsWriting, OfPadded, bytes_of_group, joined_as, sets_of};
ghost use Rattle.hv_serial.specs.Workspaces.{IsWorkspace};

use crate::answers::EncodeError;
use crate::group::encode_group_serial;
use crate::parameters::parameter_sets;
use crate::transfer::write_all;
use crate::workspace::Workspace;
use hv_decision::{Group, GroupOutput, Structure};
use hv_types::{Config, Emit, GroupInput, NoMemory, Sink};
use std::alloc::Global;

/// Encodes the group of this number and writes its bytes: how many they are. Nothing is written
/// before all are there.
pub(crate) fn write_group<K: Sink>(
    alloc: Global,
    number: u32,
    input: GroupInput,
    work: &mut Workspace,
    out: &mut K,
) -> Result<usize, EncodeError>
    requires valid { IsValid input.config }
    requires some { 0 < length input.pictures }
    requires work { IsWorkspace input.config work.old }
    ensures ends { EndsWriting input.config (nat_eq number 0) input.pictures
        (put K.written K.faults out.old out.new) result }
    ensures work { IsWorkspace input.config work.new }
{
    let Ok(bytes) = group_bytes(alloc, number, input, work) else {
        return Err(EncodeError::NoMemory);
    };
    let Ok(()) = write_all(out, &bytes) else {
        return Err(EncodeError::WriteFault);
    };
    Ok(bytes.len())
}

/// What is written of the group of this number.
fn group_bytes(
    alloc: Global,
    number: u32,
    input: GroupInput,
    work: &mut Workspace,
) -> Result<Vec<u8>, NoMemory>
    requires valid { IsValid input.config }
    requires some { 0 < length input.pictures }
    requires work { IsWorkspace input.config work.old }
    ensures bytes { IfOk result (λ bytes. OfPadded input.pictures (λ pictures.
        bytes.items ≡ bytes_of_group input.config (nat_eq number 0) pictures)) }
    ensures work { IsWorkspace input.config work.new }
{
    let config = input.config();
    let structure = Structure::of(alloc, input.count(), config.settings().levels)?;
    let group = Group {
        number,
        input,
        structure,
    };
    let output = encode_group_serial(alloc, &group, work)?;
    joined_output(alloc, &config, number, &output)
}

/// What is written of the output of the group of this number: its units, with the parameter sets
/// before those of the first group, or the pictures that are shown.
fn joined_output(
    alloc: Global,
    config: &Config,
    number: u32,
    output: &GroupOutput,
) -> Result<Vec<u8>, NoMemory>
    ensures { IfOk result (λ bytes. bytes.items ≡
        joined_as config.now.emit config.now (nat_eq number 0) output.now) }
{
    match config.settings().emit {
        Emit::Stream => {
            let mut bytes = sets_before(alloc, config, number)?;
            append_units(&mut bytes, output)?;
            Ok(bytes)
        }
        Emit::Recon => shown_bytes(alloc, output),
    }
}

/// What goes out before the units of the group of this number: the parameter sets before those of
/// the first one.
fn sets_before(alloc: Global, config: &Config, number: u32) -> Result<Vec<u8>, NoMemory>
    ensures { IfOk result (λ bytes. bytes.items ≡ sets_of config.now (nat_eq number 0)) }
{
    if number == 0 {
        parameter_sets(alloc, config)
    } else {
        Ok(Vec::new(alloc))
    }
}

/// Appends the units of a group.
fn append_units(bytes: &mut Vec<u8>, output: &GroupOutput) -> Result<(), NoMemory>
    ensures { IfOk result (λ _. bytes.new.items ≡
        bytes.old.items ++ flat_map (λ unit. unit) output.now.slices) }
{
    for unit in output.slices.iter() {
        bytes.extend_from_slice(unit)?;
    }
    Ok(())
}

/// The pictures of a group that are shown.
fn shown_bytes(alloc: Global, output: &GroupOutput) -> Result<Vec<u8>, NoMemory>
    ensures { IfOk result (λ bytes. bytes.items ≡
        flat_map (λ picture. picture) output.now.shown) }
{
    let mut bytes = Vec::new(alloc);
    for picture in output.shown.iter() {
        bytes.extend_from_slice(picture)?;
    }
    Ok(bytes)
}
