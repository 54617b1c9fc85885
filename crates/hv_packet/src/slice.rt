//! The slice of a picture of a group: what its data depend on, its header, and its payload.

ghost use Rattle.std.specs.Prelude.{◌≡◌, ◌≢◌, ◌<◌, ◌≤◌, ℕ, List, length, IfOk};
ghost use Rattle.hv_types.specs.declared.settings.Settings.{Settings};
ghost use Rattle.hv_types.specs.Configuration.{padded_width, padded_height};
ghost use Rattle.hv_stream_model.specs.Bits.{bytes_of};
ghost use Rattle.hv_stream_model.specs.Fields.{aligned, bits_of_fields};
ghost use Rattle.hv_stream_model.specs.Units.{last_of};
ghost use Rattle.hv_stream_model.specs.Headers.{slice_header_of, used_count};
ghost use Rattle.hv_tree_model.specs.Trees.{CodingTreeUnit};
ghost use Rattle.hv_tree_model.specs.Sites.{Site};
ghost use Rattle.hv_slice_model.specs.Slices.{header_in, word_behind, payload_of_slice};

use hv_bits::BitWriter;
use hv_cabac::SliceKind;
use hv_decision::Group;
use hv_slice::{active_references, write_slice_header};
use hv_slice_model::slices_end;
use hv_stream_model::{aligned_bits_are_whole, bytes_append};
use hv_types::NoMemory;
use std::alloc::Global;

/// What the data of a picture's slice depend on, beside its coding tree units.
#[derive(Clone, Copy)]
pub struct Slice {
    pub kind: SliceKind,
    /// How many pictures list 0 has (num_ref_idx_l0_active_minus1 + 1), 0 in an I slice.
    pub references: u8,
    /// SliceQpY
    pub qp: u8,
    /// The width of the padded picture, in luma samples.
    pub width: u32,
    /// The height of the padded picture, in luma samples.
    pub height: u32,
    pub ghost width_least: { 8 ≤ width },
    pub ghost width_most: { width ≤ 4096 },
    pub ghost height_least: { 8 ≤ height },
    pub ghost height_most: { height ≤ 2176 },
}

impl Slice {
    ghost use Rattle.std.specs.Prelude.{◌≡◌, ◌<◌, length};
    ghost use Rattle.hv_types.specs.Configuration.{padded_width, padded_height};
    ghost use Rattle.hv_stream_model.specs.Headers.{used_count};
    ghost use Rattle.hv_slice_model.specs.Slices.{header_in};

    /// That of a picture of a group.
    pub fn of(group: &Group, picture: u8) -> Slice
        requires picture { picture < length group.now.input.pictures }
        ensures kind { result.kind ≡ (header_in group.now.input.config
            (length group.now.input.pictures) picture).slice_type }
        ensures references { result.references ≡ used_count (header_in group.now.input.config
            (length group.now.input.pictures) picture).references }
        ensures qp { result.qp ≡ (header_in group.now.input.config
            (length group.now.input.pictures) picture).qp }
        ensures width { result.width ≡ padded_width group.now.input.config }
        ensures height { result.height ≡ padded_height group.now.input.config }
    {
        let config = group.input.config();
        Slice {
            kind: kind_of(picture),
            references: references_of(group, picture),
            qp: group.structure.qp(picture, config.settings().qp),
            width: config.padded_width(),
            height: config.padded_height(),
        }
    }
}

/// The kind of the slice of a picture of a group.
fn kind_of(picture: u8) -> SliceKind
    ensures { (cfg : Settings) (count : ℕ) → result ≡ (header_in cfg count picture).slice_type }
{
    if picture == 0 {
        SliceKind::I
    } else {
        SliceKind::P
    }
}

/// How many pictures the slice of a picture of a group refers to.
fn references_of(group: &Group, picture: u8) -> u8
    requires picture { picture < length group.now.input.pictures }
    ensures { result ≡ used_count (header_in group.now.input.config
        (length group.now.input.pictures) picture).references }
{
    if picture == 0 {
        0
    } else {
        active_references(&group.structure, picture)
    }
}

/// The payload of the slice of a picture of a group (7.3.2.9), of which picture 0 is an IDR picture
/// and each other one is a P picture, with these `bytes` of slice data: its header with a
/// byte_alignment, and the data. Pictures are numbered in output order from 0. `NoMemory` where a
/// growth failed.
pub fn slice_payload(
    alloc: Global,
    group: &Group,
    picture: u8,
    bytes: &[u8],
) -> Result<Vec<u8>, NoMemory>
    requires picture { picture < length group.now.input.pictures }
    ensures value { IfOk result (λ payload. (sites : List Site) (units : List CodingTreeUnit) →
        bytes.now ≡ bytes_of (word_behind (header_in group.now.input.config
        (length group.now.input.pictures) picture) sites units) →
        payload.items ≡ payload_of_slice (header_in group.now.input.config
        (length group.now.input.pictures) picture) sites units) }
    // as the payload of a unit has to (7.4.2)
    ensures ends { IfOk result (λ payload. (sites : List Site) (units : List CodingTreeUnit) →
        bytes.now ≡ bytes_of (word_behind (header_in group.now.input.config
        (length group.now.input.pictures) picture) sites units) →
        last_of payload.items ≢ 0) }
{
    bytes_append();
    aligned_bits_are_whole();
    slices_end();
    let mut payload = header(alloc, group, picture)?;
    payload.extend_from_slice(bytes)?;
    Ok(payload)
}

/// The header with its byte_alignment (7.3.6.1, 7.3.2.12).
fn header(alloc: Global, group: &Group, picture: u8) -> Result<Vec<u8>, NoMemory>
    requires picture { picture < length group.now.input.pictures }
    ensures { IfOk result (λ bytes.
        bytes.items ≡ bytes_of (aligned (bits_of_fields (slice_header_of
        (length group.now.input.pictures) group.now.input.config.levels
        group.now.input.config.qp picture)))) }
{
    let mut writer = BitWriter::new(alloc);
    write_slice_header(&mut writer, group, picture, &[]);
    writer.finish()
}
