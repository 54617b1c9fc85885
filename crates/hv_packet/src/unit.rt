//! The unit of a picture of a group.

ghost use Rattle.std.specs.Prelude.{◌≡◌, ◌<◌, ℕ, length, IfOk};
ghost use Rattle.hv_types.specs.declared.settings.Settings.{Settings};
ghost use Rattle.hv_types.specs.Configuration.{padded_width, padded_height};
ghost use Rattle.hv_stream_model.specs.Units.{unit_bytes};
ghost use Rattle.hv_stream_model.specs.Headers.{used_count};
ghost use Rattle.hv_tree_model.specs.Validity.{AreValid};
ghost use Rattle.hv_slice_model.specs.Slices.{header_in, picture_sites, nal_unit_type_of};
ghost use Rattle.hv_slice_model.specs.Slices.{unit_of_slice};
ghost use Rattle.hv_slice_model.specs.BlankUnits.{blank_units};
ghost use Rattle.hv_slice_model.specs.PlannedUnits.{NameTheirUnits};
ghost use Rattle.hv_packet.specs.BlockPlans.{plans_of, units_in};

use crate::blank::blank_data;
use crate::blocks::block_data;
use crate::slice::{Slice, slice_payload};
use hv_bits::write_nal;
use hv_block::Blocks;
use hv_decision::Group;
use hv_plan::SaoParam;
use hv_types::NoMemory;
use std::alloc::Global;

/// nal_unit_type of a picture that others may refer to (7.4.2.2).
const TRAIL_R: u8 = 1;

/// nal_unit_type of an IDR picture without leading pictures (7.4.2.2).
const IDR_N_LP: u8 = 20;

/// The unit of a picture of the group in which nothing is chosen, as at effort 0, with its start
/// code (7.3.1, Annex B): of type 20 for picture 0, an IDR picture, and of type 1 for each other
/// one, a P picture. Pictures are numbered in output order from 0; their samples change nothing.
/// It takes memory for the bytes alone. `NoMemory` where a growth failed.
pub fn picture_unit(alloc: Global, group: &Group, picture: u8) -> Result<Vec<u8>, NoMemory>
    requires effort { group.now.input.config.effort ≡ 0 }
    requires picture { picture < length group.now.input.pictures }
    ensures { IfOk result (λ bytes. bytes.items ≡ unit_bytes (unit_of_slice
        (header_in group.now.input.config (length group.now.input.pictures) picture)
        (picture_sites group.now.input.config)
        (blank_units (picture_sites group.now.input.config)))) }
{
    let data = blank_data(alloc, Slice::of(group, picture))?;
    let payload = slice_payload(alloc, group, picture, &data)?;
    write_nal(alloc, nal_unit_type(picture), 0, &payload)
}

/// The unit of a picture of the group, from its coding tree blocks and their sample adaptive
/// offsets, with its start code (7.3.1, Annex B): of type 20 for picture 0, an IDR picture, and of
/// type 1 for each other one, a P picture. Pictures are numbered in output order from 0, blocks
/// and offsets in raster order (6.5.1).
///
/// There are as many blocks and as many offsets as the padded picture has coding tree blocks. The
/// plan of each names its coding units (`names_its_units` of `hv_syntax` tells), and its coding
/// quadtree and its offsets may be coded at its place in the slice: it is an I slice for picture 0,
/// and else a P slice that refers to as many pictures as this one. The samples of the blocks aren't
/// read, nor the vectors of their units.
///
/// It takes memory for the bytes alone. `NoMemory` where a growth failed.
pub fn code_picture<B: Blocks>(
    alloc: Global,
    group: &Group,
    picture: u8,
    blocks: &B,
    sao: &[SaoParam],
) -> Result<Vec<u8>, NoMemory>
    requires picture { picture < length group.now.input.pictures }
    requires blocks { length (B.blocks blocks.now) ≡
        length (picture_sites group.now.input.config) }
    requires offsets { length sao.now ≡ length (picture_sites group.now.input.config) }
    requires names { NameTheirUnits (padded_width group.now.input.config)
        (padded_height group.now.input.config) (plans_of (B.blocks blocks.now)) }
    requires valid { let header = header_in group.now.input.config
        (length group.now.input.pictures) picture in
        AreValid header.slice_type (used_count header.references)
        (picture_sites group.now.input.config)
        (units_in group.now.input.config (B.blocks blocks.now) sao.now) }
    ensures { IfOk result (λ bytes. bytes.items ≡ unit_bytes (unit_of_slice
        (header_in group.now.input.config (length group.now.input.pictures) picture)
        (picture_sites group.now.input.config)
        (units_in group.now.input.config (B.blocks blocks.now) sao.now))) }
{
    let data = block_data(alloc, Slice::of(group, picture), blocks, sao)?;
    let payload = slice_payload(alloc, group, picture, &data)?;
    write_nal(alloc, nal_unit_type(picture), 0, &payload)
}

/// nal_unit_type of a picture of a group.
fn nal_unit_type(picture: u8) -> u8
    ensures value { (cfg : Settings) (count : ℕ) →
        result ≡ nal_unit_type_of (header_in cfg count picture) }
    ensures most { result < 64 }
{
    if picture == 0 { IDR_N_LP } else { TRAIL_R }
}
