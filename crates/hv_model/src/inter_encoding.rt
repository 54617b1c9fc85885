//! How the stream of a video grows with its pictures, whose units are predicted from other pictures
//! too.

ghost use Rattle.hv_model.specs.InterEncodingLaws.{InterEncodingAppends, InterReconstructionAppends};

/// The stream of a video of whole groups with one more group at its end, which may have fewer
/// pictures, is the stream without it and then the bytes of the group, before the first one with
/// the parameter sets (7.3.2) in front: with groups of any size, at every effort.
pub fn inter_encoding_appends()
    ensures { InterEncodingAppends }
{}

/// The reconstructed pictures of such a video are those without the last group, and then those of
/// the group.
pub fn inter_reconstruction_appends()
    ensures { InterReconstructionAppends }
{}
