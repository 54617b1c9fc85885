//! What is written of pictures whose units are predicted from other pictures too decodes to what is
//! shown.

ghost use Rattle.hv_model.specs.InterLaws.{InterUnitsMayBeCoded, InterPicturesAreDecoded, PicturesFollowTheirReferences, InterStreamsAreDecoded, EachInterPictureIsShown};

use hv_stream_model::{
    other_slices_are_codable, other_slices_are_read, slices_of_groups_are_allowed,
};

/// The coding tree units of a picture, with the trees and the sample adaptive offsets that are
/// chosen for it, may be coded in its slice: at every effort and quantiser, for any samples, and
/// from any reference pictures and vectors.
pub fn inter_units_may_be_coded()
    ensures { InterUnitsMayBeCoded }
{}

/// Their vectors derived (8.5.3.2.1), decoded from the reference pictures (8.4 to 8.6) and filtered
/// (8.7), they are the picture that the encoder shows.
pub fn inter_pictures_are_decoded()
    ensures { InterPicturesAreDecoded }
{}

/// In a group of any size each picture is coded from the reconstructed pictures of its list 0
/// (8.3.4), which come before it in coding order.
pub fn pictures_follow_their_references()
    ensures { PicturesFollowTheirReferences }
{}

/// With valid settings of any effort, what is written for pictures, in groups of any size, decodes
/// (clauses 7 to 9 and Annex B) to their reconstructed pictures, in the order of the input.
pub fn inter_streams_are_decoded()
    ensures { InterStreamsAreDecoded }
{
    other_slices_are_read();
    other_slices_are_codable();
    slices_of_groups_are_allowed();
}

/// There are as many reconstructed pictures as pictures.
pub fn each_inter_picture_is_shown()
    ensures { EachInterPictureIsShown }
{}
