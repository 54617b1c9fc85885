//! A picture whose coding tree blocks decode by the edges of the blocks around each and the
//! reference pictures is put together from their samples.

ghost use Rattle.hv_recon.specs.DecodedBlocks.{SamplesAreThoseOfBlocks, PicturesAreTheirBlocks};

/// Where there is a block for each place of a picture, in raster order (6.5.1), and each decodes by
/// the edges of the four blocks around it and the reference pictures alone, its units' vectors in
/// the place of the coded differences, all of the picture is decoded, and each sample inside the
/// picture, of luma, Cb and Cr, is that of its block: for pictures of every size and at every
/// quantiser. It takes no memory.
pub fn samples_are_those_of_blocks()
    ensures { SamplesAreThoseOfBlocks }
{}

/// So the picture before the in-loop filters (8.6) is put together from the samples of its blocks.
/// It takes no memory.
pub fn pictures_are_their_blocks()
    ensures { PicturesAreTheirBlocks }
{}
