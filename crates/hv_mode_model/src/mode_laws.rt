//! What is chosen may be coded, has the vectors that it was chosen with and decodes to what the
//! choice was made by, and is chosen in a block as in the picture.

ghost use Rattle.hv_mode_model.specs.ModeLaws.{ChosenNodesMayBeCoded, ChosenTreesMayBeCoded, VectorsAreThoseFound, CodedNodesHaveTheirVectors, CodedTreesHaveTheirVectors, ChosenNodesAreDecoded, ChosenTreesAreDecoded, EveryChosenSampleIsDecoded, ISlicesAreIntraAlone, NothingFoundIsIntraAlone, ChoicesInBlockAreThoseInPicture};

/// The tree that is chosen for a node may be coded there (7.4.9), with differences in the place of
/// vectors: whatever is given, and whatever was chosen before.
pub fn chosen_nodes_may_be_coded()
    ensures { ChosenNodesMayBeCoded }
{}

/// Of any coding tree blocks in raster order each has a tree that may be coded there.
pub fn chosen_trees_may_be_coded()
    ensures { ChosenTreesMayBeCoded }
{}

/// A vector of 16 bits is what a decoder makes of a candidate and the difference from it
/// (8.5.3.2.1).
pub fn vectors_are_those_found()
    ensures { VectorsAreThoseFound }
{}

/// The units of what is coded of a node have the vectors that they were chosen with, as a decoder
/// derives them (8.5.3.2.1).
pub fn coded_nodes_have_their_vectors()
    ensures { CodedNodesHaveTheirVectors }
{}

/// So with what is coded of any coding tree blocks in raster order.
pub fn coded_trees_have_their_vectors()
    ensures { CodedTreesHaveTheirVectors }
{}

/// The tree that is chosen for a node decodes (8.4, 8.6) to the samples by which its cost was
/// counted, and behind which the next node was chosen.
pub fn chosen_nodes_are_decoded()
    ensures { ChosenNodesAreDecoded }
{}

/// The trees that are chosen for any coding tree blocks decode to the samples that the choice
/// reached: so a decoder has the encoder's reconstruction before the in-loop filters.
pub fn chosen_trees_are_decoded()
    ensures { ChosenTreesAreDecoded }
{}

/// The choice for the blocks of a picture of any size reaches every sample of it, luma and chroma.
pub fn every_chosen_sample_is_decoded()
    ensures { EveryChosenSampleIsDecoded }
{}

/// In an I slice each unit is predicted from its own picture, and coded as it is chosen.
pub fn i_slices_are_intra_alone()
    ensures { ISlicesAreIntraAlone }
{}

/// So in a slice of any kind where motion search found nothing.
pub fn nothing_found_is_intra_alone()
    ensures { NothingFoundIsIntraAlone }
{}

/// What is chosen for a block by the units of the blocks around it, as an encoder of one block sees
/// them, is what is chosen for it in the picture.
pub fn choices_in_block_are_those_in_picture()
    ensures { ChoicesInBlockAreThoseInPicture }
{}
