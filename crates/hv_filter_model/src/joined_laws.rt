//! Planes that are put together from their blocks.

ghost use Rattle.hv_filter_model.specs.JoinedLaws.{SamplesAreJoined};

/// A plane that is put together from its coding tree blocks (6.5.1) has the samples of each block
/// in the block's place.
pub fn samples_are_joined()
    ensures { SamplesAreJoined }
{}
