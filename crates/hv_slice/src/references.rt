//! The reference set of a slice header (7.3.7), and how many of its pictures are used.

ghost use Rattle.std.specs.Prelude.{◌≡◌, ◌≤◌, ◌<◌, length, take};
ghost use Rattle.hv_types.specs.Configuration.{most_levels};
ghost use Rattle.hv_bits.specs.Writing.{Appends};
ghost use Rattle.hv_stream_model.specs.Fields.{bits_of_fields};
ghost use Rattle.hv_stream_model.specs.Headers.{side_fields, set_fields, used_in, used_count};
ghost use Rattle.hv_stream_model.specs.HeaderLaws.{Rise};
ghost use Rattle.hv_group_model.specs.Structure.{reference_set, set_size};
ghost use Rattle.hv_decision.specs.Sets.{set_entries};
ghost use Rattle.hv_slice.specs.Entries.{side_of, set_of};

use hv_bits::Field::{U, Ue};
use hv_bits::{BitWriter, put_fields, tables_join};
use hv_decision::{SetEntry, Structure};

/// The entries of a picture's reference set, at the front of a list of four: those before it in
/// output order and then those after it, the nearest first.
pub fn entries(structure: &Structure, picture: u8) -> [SetEntry; 4]
    requires picture { picture < structure.now.count }
    requires levels { structure.now.levels ≤ most_levels }
    ensures { let set = reference_set structure.now.count structure.now.levels picture in
        take (set_size set) result ≡ set_entries set }
{
    let mut entries = [SetEntry {
        delta: 0,
        used: false,
    }; 4];
    for i in 0..structure.set_len(picture) {
        entries[usize::from(i)] = structure.set_entry(picture, i);
    }
    entries
}

/// How many pictures a picture of a group of this structure refers to, which is how many list 0 of
/// its slice has (`num_ref_idx_l0_active_minus1` + 1, 7.4.7.1): the used ones of its reference set.
/// The first one refers to none. It takes no memory.
pub fn active_references(structure: &Structure, picture: u8) -> u8
    requires { picture < structure.now.count }
    ensures { result ≡
        used_count (reference_set structure.now.count structure.now.levels picture) }
{
    structure.levels();
    let before = usize::from(structure.before_len(picture));
    let all = usize::from(structure.set_len(picture));
    let entries = entries(structure, picture);
    (used_count(&entries[..before]) + used_count(&entries[before..all])) as u8
}

/// st_ref_pic_set (7.3.7) of a slice header: the entries before the picture and those after it in
/// output order, the nearest first.
pub fn put_set(writer: &mut BitWriter, before: &[SetEntry], after: &[SetEntry])
    requires few_before { length before.now ≤ 64 }
    requires few_after { length after.now ≤ 64 }
    requires before { Rise 0 (side_of before.now) }
    requires after { Rise 0 (side_of after.now) }
    ensures { Appends writer.old writer.new
        (bits_of_fields (set_fields (set_of before.now after.now))) }
{
    tables_join();
    #[rattlefmt::skip]
    let counts = [
        Ue(before.len() as u32), // num_negative_pics
        Ue(after.len() as u32),  // num_positive_pics
    ];
    put_fields(writer, &counts);
    put_side(writer, before);
    put_side(writer, after);
}

/// How many of these pictures the picture itself refers to.
pub fn used_count(side: &[SetEntry]) -> u32
    requires { length side.now ≤ 64 }
    ensures value { result ≡ used_in (side_of side.now) }
    ensures most { result ≤ length side.now }
{
    let mut used = 0u32;
    for entry in side {
        used += u32::from(entry.used);
    }
    used
}

/// One side of a set: each picture by how much farther it is than the one before it.
fn put_side(writer: &mut BitWriter, side: &[SetEntry])
    requires { Rise 0 (side_of side.now) }
    ensures { Appends writer.old writer.new (bits_of_fields (side_fields 0 (side_of side.now))) }
{
    tables_join();
    let mut last = 0u8;
    for entry in side {
        let distance = entry.delta.unsigned_abs();
        #[rattlefmt::skip]
        let fields = [
            Ue(u32::from(distance - last - 1)), // delta_poc_s0_minus1 or delta_poc_s1_minus1
            U(1, u32::from(entry.used)),        // used_by_curr_pic_s0_flag or _s1_flag
        ];
        put_fields(writer, &fields);
        last = distance;
    }
}
