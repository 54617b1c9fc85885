//! The sides of coding tree blocks.

/// The side of a coding tree block in luma (`CtbSizeY`), and in Cb and Cr.
pub(crate) const LUMA_SIDE: u32 = 64;

pub(crate) const CHROMA_SIDE: u32 = 32;
