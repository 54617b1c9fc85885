//! What is seen in a coding tree block is what is seen in the picture.

ghost use Rattle.hv_mode_model.specs.NeighbourLaws.{NeighbourhoodsInBlockAreThoseInPicture};

/// The five squares around a node move as the plans of the four blocks around say, and the node's
/// own: where each square of the blocks before names its unit, and the vector of it, that is how
/// they move in the picture.
pub fn neighbourhoods_in_block_are_those_in_picture()
    ensures { NeighbourhoodsInBlockAreThoseInPicture }
{}
