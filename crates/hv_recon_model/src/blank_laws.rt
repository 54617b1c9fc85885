//! Pictures in which nothing is chosen are grey.

ghost use Rattle.hv_recon_model.specs.BlankLaws.{BlankPicturesAreGrey};

/// Where each coding tree block of an I picture has a tree that may be coded there, and every
/// coding unit of it is an intra unit of mode DC without a level but 0, every sample of the
/// picture, luma and chroma, is 128 before the in-loop filters, at any quantiser and whatever the
/// reference pictures are: no neighbour of the first block is available and stands for 128
/// (8.4.4.2.2), DC of such neighbours is 128 (8.4.4.2.5), and the residual is 0 (8.6.2). It takes
/// no memory.
pub fn blank_pictures_are_grey()
    ensures { BlankPicturesAreGrey }
{}
