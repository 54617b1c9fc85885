//! What is read of a payload is what it was made with.

ghost use Rattle.hv_model.specs.PayloadLaws.{ParametersAreRead, AlignmentIsRead, SliceDataIsRead, SlicesAreRead};

use hv_stream_model::{other_slices_are_codable, other_slices_are_read};

/// A parameter set's payload (7.3.2), its fields with rbsp_trailing_bits (7.3.2.11), is read as the
/// value that the script reads from the fields.
pub fn parameters_are_read<A>()
    ensures { ParametersAreRead A }
{}

/// Behind a byte_alignment (7.3.2.12) the whole bytes are found that follow it.
pub fn alignment_is_read()
    ensures { AlignmentIsRead }
{}

/// The slice data (7.3.8.1) of at least one coding tree block, the code word of coding tree units
/// that may be coded there with zeros to the byte, is read as these units: in slices of both kinds,
/// with any number of references.
pub fn slice_data_is_read()
    ensures { SliceDataIsRead }
{}

/// A picture's unit, made with a slice header (7.3.6) of this profile and the slice data of all
/// coding tree blocks of a picture of some size, is read as this header and these coding tree
/// units. It has type 20 for an IDR picture and type 1 for others, and may be an I or a P slice
/// there.
pub fn slices_are_read()
    ensures { SlicesAreRead }
{
    other_slices_are_read();
    other_slices_are_codable();
}
