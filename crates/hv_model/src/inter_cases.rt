//! The encoders that predict pictures within them, and that choose nothing, are cases of the one
//! that predicts units from other pictures too.

ghost use Rattle.hv_model.specs.InterCases.{FirstPicturesAreIntra, SingleGroupsAreIntra, SingleVideosAreIntra, SourcesAreBlankAtEffortZero, GroupsAreBlankAtEffortZero, VideosAreBlankAtEffortZero, BuiltGroupsAreIntra, BuiltVideosAreIntra, BuiltOutputsAreIntra};

use crate::intra_pictures::nothing_is_chosen_at_effort_zero;
use hv_deblock_model::flat_pictures_are_kept;
use hv_recon_model::blank_pictures_are_grey;

/// The first picture of a group, which is an IDR picture, is written and shown as one that is
/// predicted within it: whatever vectors were found.
pub fn first_pictures_are_intra()
    ensures { FirstPicturesAreIntra }
{}

/// A group of one picture is written and shown as one whose units are predicted within it.
pub fn single_groups_are_intra()
    ensures { SingleGroupsAreIntra }
{}

/// So with a video in groups of one picture.
pub fn single_videos_are_intra()
    ensures { SingleVideosAreIntra }
{}

/// At effort 0 every picture is blank units, and shown grey: whatever its slice, its reference
/// pictures and the vectors that were found.
pub fn sources_are_blank_at_effort_zero()
    ensures { SourcesAreBlankAtEffortZero }
{
    blank_pictures_are_grey();
    flat_pictures_are_kept();
}

/// At effort 0 a group of any size is what the encoder that chooses nothing writes and shows.
pub fn groups_are_blank_at_effort_zero()
    ensures { GroupsAreBlankAtEffortZero }
{
    sources_are_blank_at_effort_zero();
}

/// So with a video, in groups of any size.
pub fn inter_videos_are_blank_at_effort_zero()
    ensures { VideosAreBlankAtEffortZero }
{
    groups_are_blank_at_effort_zero();
}

/// With the settings that the program is built for so far, a group is written and shown as one
/// whose units are predicted within their pictures.
pub fn built_groups_are_intra()
    ensures { BuiltGroupsAreIntra }
{
    nothing_is_chosen_at_effort_zero();
    groups_are_blank_at_effort_zero();
}

/// So with a video.
pub fn built_videos_are_intra()
    ensures { BuiltVideosAreIntra }
{
    built_groups_are_intra();
}

/// So with what is written out of it, stream or reconstructed pictures.
pub fn built_outputs_are_intra()
    ensures { BuiltOutputsAreIntra }
{
    built_videos_are_intra();
}
