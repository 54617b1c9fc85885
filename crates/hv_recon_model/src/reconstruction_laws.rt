//! Every sample of a picture is decoded.

ghost use Rattle.hv_recon_model.specs.ReconstructionLaws.{EverySampleIsDecoded};

/// Where each coding tree block of a picture has a tree that may be coded there in an I slice, or
/// in a P slice that finds its reference pictures, every sample of the picture is decoded, luma and
/// chroma, at any quantiser. It takes no memory.
pub fn every_sample_is_decoded()
    ensures { EverySampleIsDecoded }
{}
