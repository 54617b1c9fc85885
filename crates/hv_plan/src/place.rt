//! Where a coding tree block lies in a picture, and a node in a coding tree block.

/// A square in a coding tree block of 64x64 luma samples, its side 64 >> `depth`.
#[derive(Clone, Copy, Debug, PartialEq, Eq, Hash)]
pub struct Node {
    /// 0 to 3.
    pub depth: u8,
    /// Where it begins, from left to right, in squares of 8x8 luma samples: below 8, and a
    /// multiple of 8 >> `depth`.
    pub x: u8,
    /// The same from top to bottom.
    pub y: u8,
}

/// A coding tree block of a padded picture.
#[derive(Clone, Copy, Debug, PartialEq, Eq, Hash)]
pub struct Place {
    /// The width of the padded picture, in luma samples.
    pub width: u32,
    /// The height of the padded picture, in luma samples.
    pub height: u32,
    /// The number of the block in raster order, from 0 (6.5.1, `CtbAddrInRs`).
    pub index: u32,
}
