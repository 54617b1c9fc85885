//! What the encoder is proved against: decoding of H.265 for this profile, and the one-thread
//! encoder, as definitions over those of the model crates below. They stand in `specs/`; the
//! functions here are empty, and each carries a law of the definitions as its contract.
#![tactic(auto)]

mod encoding_laws;
mod inter_cases;
mod inter_encoding;
mod inter_pictures;
mod inter_streams;
mod intra_encoding;
mod intra_pictures;
mod payload_laws;
mod planned_pictures;
mod reference_laws;
mod round_trip;

pub use encoding_laws::{encoding_appends, encoding_ignores_samples, reconstruction_appends};
pub use inter_cases::{
    built_groups_are_intra, built_outputs_are_intra, built_videos_are_intra,
    first_pictures_are_intra, groups_are_blank_at_effort_zero,
    inter_videos_are_blank_at_effort_zero, single_groups_are_intra, single_videos_are_intra,
    sources_are_blank_at_effort_zero,
};
pub use inter_encoding::{inter_encoding_appends, inter_reconstruction_appends};
pub use inter_pictures::{
    each_inter_picture_is_shown, inter_pictures_are_decoded, inter_streams_are_decoded,
    inter_units_may_be_coded, pictures_follow_their_references,
};
pub use inter_streams::{
    inter_group_is_decoded, inter_groups_are_decoded, inter_pieces_are_decoded,
};
pub use intra_encoding::{intra_encoding_appends, intra_reconstruction_appends};
pub use intra_pictures::{
    each_intra_picture_is_shown, intra_pictures_are_decoded, intra_streams_are_decoded,
    intra_units_may_be_coded, nothing_is_chosen_at_effort_zero, videos_are_blank_at_effort_zero,
};
pub use payload_laws::{
    alignment_is_read, parameters_are_read, slice_data_is_read, slices_are_read,
};
pub use planned_pictures::{
    planned_pictures_are_deblocked_alike, planned_squares_are_those_of_trees,
};
pub use reference_laws::{list_zero_has_the_active_references, sets_give_the_references};
pub use round_trip::{built_is_decided, decoding_gives_reconstruction, each_is_reconstructed};
