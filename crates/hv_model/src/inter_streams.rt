//! Whichever groups of pictures a stream has behind its parameter sets, it decodes to what is shown
//! of them.

ghost use Rattle.hv_model.specs.InterStreamLaws.{InterGroupsAreDecoded, InterGroupIsDecoded, InterPiecesAreDecoded};

use hv_stream_model::{
    other_slices_are_codable, other_slices_are_read, slices_of_groups_are_allowed,
};

/// With valid settings of any effort, the bytes of any groups, one behind the other and all behind
/// the parameter sets (7.3.2), decode (clauses 7 to 9 and Annex B) to the reconstructed pictures of
/// these groups: no group needs another one.
pub fn inter_groups_are_decoded()
    ensures { InterGroupsAreDecoded }
{
    other_slices_are_read();
    other_slices_are_codable();
    slices_of_groups_are_allowed();
}

/// So each group of a video decodes by itself, behind the parameter sets.
pub fn inter_group_is_decoded()
    ensures { InterGroupIsDecoded }
{
    inter_groups_are_decoded();
}

/// The streams of pieces of a video, one behind the other, of which the first one alone has the
/// parameter sets, decode to the reconstructed pictures of the pieces: wherever the video is cut,
/// and whichever pieces are left out.
pub fn inter_pieces_are_decoded()
    ensures { InterPiecesAreDecoded }
{
    inter_groups_are_decoded();
}
