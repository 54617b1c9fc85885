//! What is read of a header is what its table was made with.

ghost use Rattle.hv_stream_model.specs.HeaderLaws.{SignedComesBack, SizesAreAllowed, VideoParametersAreRead, SequenceParametersAreRead, PictureParametersAreRead, SliceHeadersAreRead, VideoParametersAreCodable, SequenceParametersAreCodable, PictureParametersAreCodable, SliceHeadersAreCodable, OtherSlicesAreRead, OtherSlicesAreCodable, SlicesOfGroupsAreAllowed, BitsDetermineFields};

/// The signed number of a codeNum (9.2.2) is the one whose codeNum it is.
pub fn signed_comes_back()
    ensures { SignedComesBack }
{}

/// The padded size of settings without a fault, with what is cropped of it, is one of this profile.
pub fn sizes_are_allowed()
    ensures { SizesAreAllowed }
{}

/// The script of a video parameter set (7.3.2.1) reads the number of temporal levels from its
/// fields.
pub fn video_parameters_are_read()
    ensures { VideoParametersAreRead }
{}

/// The script of a sequence parameter set (7.3.2.2) reads the number of temporal levels and the
/// size from its fields.
pub fn sequence_parameters_are_read()
    ensures { SequenceParametersAreRead }
{}

/// The script of a picture parameter set (7.3.2.3) takes its fields.
pub fn picture_parameters_are_read()
    ensures { PictureParametersAreRead }
{}

/// The script of an IDR picture's slice header (7.3.6.1) reads the quantiser from its fields.
pub fn slice_headers_are_read()
    ensures { SliceHeadersAreRead }
{}

/// The descriptors of a video parameter set can code its values.
pub fn video_parameters_are_codable()
    ensures { VideoParametersAreCodable }
{}

/// The descriptors of a sequence parameter set can code its values.
pub fn sequence_parameters_are_codable()
    ensures { SequenceParametersAreCodable }
{}

/// The descriptors of a picture parameter set can code its values.
pub fn picture_parameters_are_codable()
    ensures { PictureParametersAreCodable }
{}

/// The descriptors of an IDR picture's slice header can code its values.
pub fn slice_headers_are_codable()
    ensures { SliceHeadersAreCodable }
{}

/// The script of another picture's slice header (7.3.6.1) reads what is free of it from its fields.
pub fn other_slices_are_read()
    ensures { OtherSlicesAreRead }
{}

/// The descriptors of another picture's slice header can code its values.
pub fn other_slices_are_codable()
    ensures { OtherSlicesAreCodable }
{}

/// The slice header of each picture of a group but the first, of up to 64 pictures and 3 temporal
/// levels, is one of this profile: its set is not too large and its distances rise, and it refers
/// to one picture or to two.
pub fn slices_of_groups_are_allowed()
    ensures { SlicesOfGroupsAreAllowed }
{}

/// The bits of a header determine its fields and its value: no two headers that a script reads have
/// the same bits, and none is the beginning of another.
pub fn bits_determine_fields<A>()
    ensures { BitsDetermineFields A }
{}
