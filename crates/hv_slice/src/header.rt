//! slice_segment_header, field by field.

ghost use Rattle.std.specs.Prelude.{◌≡◌, ◌≤◌, ◌<◌, ◌%◌, true, false, map, ◌∷◌, [], ◌++◌, length};
ghost use Rattle.std.specs.List.{list_all};
ghost use Rattle.hv_types.specs.Configuration.{most_levels};
ghost use Rattle.hv_tables.specs.declared.bins.SliceKind.TheVariants.{P};
ghost use Rattle.hv_bits.specs.Writing.{Appends};
ghost use Rattle.hv_bits.specs.FieldTables.{field_of, is_codable};
ghost use Rattle.hv_stream_model.specs.Fields.{bits_of_fields, u, ue, se, aligned};
ghost use Rattle.hv_stream_model.specs.Headers.{slice, slice_header_of, idr_slice as idr_slice_of, slice_start, type_code, sao_flags, active_fields, qp_delta};
ghost use Rattle.hv_stream_model.specs.HeaderLaws.{IsAllowedSlice};
ghost use Rattle.hv_slice.specs.Entries.{header_with};

use crate::references::{entries, put_set, used_count};
use hv_bits::Field::{self, Se, U, Ue};
use hv_bits::{BitWriter, put_fields, tables_join};
use hv_decision::{Group, SetEntry, Structure};
use hv_stream_model::slices_of_groups_are_allowed;

/// Puts the header of a picture's slice, with its byte_alignment (7.3.6.1, 7.3.2.12): that of an
/// IDR picture for picture 0 of the group, that of a P picture for each other. Pictures are
/// numbered in output order from 0. `_entry_offsets` are the sizes of the slice's substreams but
/// the last, in bytes: so far a slice is one substream. A growth that fails is kept by the writer,
/// and answered by its `finish`.
pub fn write_slice_header(
    writer: &mut BitWriter,
    group: &Group,
    picture: u8,
    _entry_offsets: &[u32],
)
    requires picture { picture < length group.now.input.pictures }
    requires offsets { _entry_offsets.now ≡ [] }
    ensures unfailed { writer.new.failed ≡ false → writer.old.failed ≡ false }
    ensures bits { writer.new.failed ≡ false → writer.new.bits ≡
        aligned (writer.old.bits ++ bits_of_fields (slice_header_of
        (length group.now.input.pictures) group.now.input.config.levels
        group.now.input.config.qp picture)) }
    ensures whole { writer.new.failed ≡ false → length writer.new.bits % 8 ≡ 0 }
{
    let base = group.input.config().settings().qp;
    check_ranges(&group.structure);
    put_slice(writer, &group.structure, picture, base);
    writer.trail();
}

/// A structure is of at most 64 pictures, with at most 3 temporal levels.
fn check_ranges(structure: &Structure)
    ensures count { structure.now.count ≤ 64 }
    ensures levels { structure.now.levels ≤ most_levels }
{
    structure.count();
    structure.levels();
}

/// slice_segment_header of a picture of a group of this structure, where the video's quantiser is
/// `base`.
fn put_slice(writer: &mut BitWriter, structure: &Structure, picture: u8, base: u8)
    requires picture { picture < structure.now.count }
    requires base { base ≤ 51 }
    requires count { structure.now.count ≤ 64 }
    requires levels { structure.now.levels ≤ most_levels }
    ensures { Appends writer.old writer.new
        (bits_of_fields (slice_header_of structure.now.count structure.now.levels base picture)) }
{
    slices_of_groups_are_allowed();
    let qp = structure.qp(picture, base);
    if picture == 0 {
        put_fields(writer, &idr_slice(qp));
    } else {
        let before = usize::from(structure.before_len(picture));
        let all = usize::from(structure.set_len(picture));
        let entries = entries(structure, picture);
        put_p_slice(
            writer,
            picture,
            &entries[..before],
            &entries[before..all],
            qp,
        );
    }
}

/// slice_segment_header (7.3.6.1) of an IDR picture of this quantiser.
#[rattlefmt::skip]
fn idr_slice(qp: u8) -> [Field; 7]
    requires { qp ≤ 51 }
    ensures value { map field_of result ≡ idr_slice_of qp }
    ensures codable { list_all is_codable result ≡ true }
{
    [
        U(1, 1),                // first_slice_segment_in_pic_flag
        U(1, 0),                // no_output_of_prior_pics_flag
        Ue(0),                  // slice_pic_parameter_set_id
        Ue(2),                  // slice_type, I
        U(1, 1),                // slice_sao_luma_flag
        U(1, 1),                // slice_sao_chroma_flag
        Se(i32::from(qp) - 26), // slice_qp_delta
    ]
}

/// slice_segment_header of a P picture with these entries before it and after it in output order.
fn put_p_slice(writer: &mut BitWriter, picture: u8, before: &[SetEntry], after: &[SetEntry], qp: u8)
    requires { IsAllowedSlice 3 (header_with picture before.now after.now qp) }
    ensures { Appends writer.old writer.new
        (bits_of_fields (slice (header_with picture before.now after.now qp))) }
{
    tables_join();
    put_fields(writer, &p_start(picture));
    put_set(writer, before, after);
    put_fields(writer, &p_end(used_count(before) + used_count(after), qp));
}

/// slice_segment_header of a P picture, before its reference set.
#[rattlefmt::skip]
fn p_start(picture: u8) -> [Field; 5]
    ensures value { map field_of result ≡
        slice_start ++ ue (type_code P) ∷ u 8 picture ∷ u 1 0 ∷ [] }
    ensures codable { list_all is_codable result ≡ true }
{
    [
        U(1, 1),                  // first_slice_segment_in_pic_flag
        Ue(0),                    // slice_pic_parameter_set_id
        Ue(1),                    // slice_type, P
        U(8, u32::from(picture)), // slice_pic_order_cnt_lsb
        U(1, 0),                  // short_term_ref_pic_set_sps_flag
    ]
}

/// slice_segment_header of a P picture, behind its reference set, of which it uses so many.
#[rattlefmt::skip]
fn p_end(used: u32, qp: u8) -> [Field; 6]
    requires some { 1 ≤ used }
    requires most { used ≤ 2 }
    requires qp { qp ≤ 51 }
    ensures value { map field_of result ≡
        sao_flags ++ active_fields P used ++ se (qp_delta qp) ∷ [] }
    ensures codable { list_all is_codable result ≡ true }
{
    [
        U(1, 1),                // slice_sao_luma_flag
        U(1, 1),                // slice_sao_chroma_flag
        U(1, 1),                // num_ref_idx_active_override_flag
        Ue(used - 1),           // num_ref_idx_l0_active_minus1
        Ue(4),                  // five_minus_max_num_merge_cand
        Se(i32::from(qp) - 26), // slice_qp_delta, against 26
    ]
}
