//! Squares of the colour components of a coding tree block.

ghost use Rattle.std.specs.Prelude.{◌≤◌};

/// A square of one colour component: where it begins in the picture and in its coding tree block,
/// in samples of the component, and its side as a power of 2.
#[derive(Clone, Copy)]
pub(crate) struct Square {
    pub(crate) left: u32,
    pub(crate) top: u32,
    pub(crate) column: usize,
    pub(crate) row: usize,
    pub(crate) log2: u8,
    pub ghost least: { 2 ≤ log2 },
    pub ghost most: { log2 ≤ 6 },
}

/// The samples of a node: those of luma, and those of Cb or Cr under them.
#[derive(Clone, Copy)]
pub(crate) struct NodeSquares {
    pub(crate) luma: Square,
    pub(crate) chroma: Square,
}
