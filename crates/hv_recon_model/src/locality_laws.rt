//! The four blocks around a coding tree block, and the reference pictures, determine what is
//! decoded in it.

ghost use Rattle.hv_recon_model.specs.LocalityLaws.{BlocksAreLocal, PicturesAreLocal};

/// In I and P pictures of every size and at every quantiser, whatever the coding tree blocks before
/// one hold: where two pictures have the same reference pictures, and the same samples in the edges
/// of the four blocks around it, which come before it in decoding order (6.4.1), the same coding
/// quadtree is decoded to the same samples of luma, Cb and Cr in both. It takes no memory.
pub fn blocks_are_local()
    ensures { BlocksAreLocal }
{}

/// So it is with two whole pictures, whatever comes behind the block in each: where they have the
/// same tree at a number in raster order (6.5.1), and the same samples in the edges around its
/// block, they have the same samples there. It takes no memory.
pub fn pictures_are_local()
    ensures { PicturesAreLocal }
{}
