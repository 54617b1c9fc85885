//! What is written of pictures whose units are predicted within them decodes to what is shown.

ghost use Rattle.hv_model.specs.IntraLaws.{IntraUnitsMayBeCoded, IntraPicturesAreDecoded, IntraStreamsAreDecoded, EachIntraPictureIsShown, NothingIsChosenAtEffortZero, VideosAreBlankAtEffortZero};

use hv_deblock_model::flat_pictures_are_kept;
use hv_recon_model::blank_pictures_are_grey;
use hv_stream_model::{
    other_slices_are_codable, other_slices_are_read, slices_of_groups_are_allowed,
};

/// The coding tree units of a picture, with the trees and the sample adaptive offsets that are
/// chosen for it, may be coded in its slice: at every effort and quantiser, and for any samples.
pub fn intra_units_may_be_coded()
    ensures { IntraUnitsMayBeCoded }
{}

/// Decoded by themselves (8.4, 8.6) and filtered (8.7), they are the picture that the encoder
/// shows.
pub fn intra_pictures_are_decoded()
    ensures { IntraPicturesAreDecoded }
{}

/// With valid settings of any effort, what is written for pictures whose units are predicted within
/// them decodes (clauses 7 to 9 and Annex B) to their reconstructed pictures, in the order of the
/// input: in groups of one picture, which are IDR pictures, and in larger groups.
pub fn intra_streams_are_decoded()
    ensures { IntraStreamsAreDecoded }
{
    other_slices_are_read();
    other_slices_are_codable();
    slices_of_groups_are_allowed();
}

/// There are as many reconstructed pictures as pictures.
pub fn each_intra_picture_is_shown()
    ensures { EachIntraPictureIsShown }
{}

/// At effort 0 every picture is blank units, and shown grey.
pub fn nothing_is_chosen_at_effort_zero()
    ensures { NothingIsChosenAtEffortZero }
{
    blank_pictures_are_grey();
    flat_pictures_are_kept();
}

/// At effort 0 what is written and shown of a video is what the encoder that chooses nothing writes
/// and shows.
pub fn videos_are_blank_at_effort_zero()
    ensures { VideosAreBlankAtEffortZero }
{
    blank_pictures_are_grey();
    flat_pictures_are_kept();
}
