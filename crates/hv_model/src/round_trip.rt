//! What is written decodes to what is shown.

ghost use Rattle.hv_model.specs.RoundTrip.{DecodingGivesReconstruction, EachIsReconstructed};
ghost use Rattle.hv_model.specs.Built.{BuiltIsDecided};

use hv_deblock_model::flat_pictures_are_kept;
use hv_recon_model::blank_pictures_are_grey;
use hv_stream_model::{
    other_slices_are_codable, other_slices_are_read, slices_of_groups_are_allowed,
};

/// With valid settings at effort 0, what the one-thread encoder writes for pictures of any valid
/// size, in groups of any number of pictures and levels, decodes (clauses 7 to 9 and Annex B) to
/// their reconstructed pictures, in the order of the input.
pub fn decoding_gives_reconstruction()
    ensures { DecodingGivesReconstruction }
{
    other_slices_are_read();
    other_slices_are_codable();
    slices_of_groups_are_allowed();
    blank_pictures_are_grey();
    flat_pictures_are_kept();
}

/// There are as many reconstructed pictures as pictures.
pub fn each_is_reconstructed()
    ensures { EachIsReconstructed }
{}

/// Of valid settings, the test of the settings built is true for just these.
pub fn built_is_decided()
    ensures { BuiltIsDecided }
{}
