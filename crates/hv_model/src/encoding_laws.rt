//! How the stream of a video grows with its pictures.

ghost use Rattle.hv_model.specs.EncodingLaws.{EncodingAppends, ReconstructionAppends, EncodingIgnoresSamples};

/// The stream of a video of whole groups with one more group at its end, which may have fewer
/// pictures, is the stream without it and then the bytes of the group, before the first one with
/// the parameter sets (7.3.2) in front.
pub fn encoding_appends()
    ensures { EncodingAppends }
{}

/// The reconstructed pictures of such a video are those without the last group, and then those of
/// the group.
pub fn reconstruction_appends()
    ensures { ReconstructionAppends }
{}

/// The streams of two videos with as many pictures are the same, whatever their samples: so far
/// nothing is chosen by the samples.
pub fn encoding_ignores_samples()
    ensures { EncodingIgnoresSamples }
{}
