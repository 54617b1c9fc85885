//! Bits, fields of headers, NAL units and byte streams (7.2, 7.3.1 to 7.3.7, 9.2, Annex B) as
//! definitions over plain lists and whole numbers. They stand in `specs/`; the functions here are
//! empty, and each carries a law of the definitions as its contract.
#![tactic(auto)]

mod bit_laws;
mod digit_laws;
mod field_laws;
mod header_laws;
mod stream_laws;
mod unit_laws;

pub use bit_laws::{bits_come_back, bits_come_back_filled, bytes_append, bytes_come_back};
pub use digit_laws::{bits_of_bytes_laws, digits_laws, numbers_laws, parts_laws};
pub use field_laws::{
    aligned_bits_are_whole, aligned_bytes_end, codes_laws, fields_are_read_back,
    joined_fields_have_joined_bits,
};
pub use header_laws::{
    bits_determine_fields, other_slices_are_codable, other_slices_are_read,
    picture_parameters_are_codable, picture_parameters_are_read, sequence_parameters_are_codable,
    sequence_parameters_are_read, signed_comes_back, sizes_are_allowed, slice_headers_are_codable,
    slice_headers_are_read, slices_of_groups_are_allowed, video_parameters_are_codable,
    video_parameters_are_read,
};
pub use stream_laws::{found_units_make_the_stream, streams_have_one_list};
pub use unit_laws::{
    payloads_come_back, streams_are_read_back, units_make_a_stream, zero_runs_laws,
};
