//! A coding tree block in one colour component, and what lies around it.

ghost use Rattle.std.specs.Prelude.{◌≤◌};

/// The last column of a block, from top to bottom, and its last row, from left to right.
#[derive(Clone, Copy)]
pub struct SampleEdges<'a> {
    pub right: &'a [u8],
    pub bottom: &'a [u8],
}

/// Those of the four blocks around that were decoded before it: none where there is no such block.
#[derive(Clone, Copy)]
pub struct SamplesAround<'a> {
    pub left: Option<SampleEdges<'a>>,
    pub above_left: Option<SampleEdges<'a>>,
    pub above: Option<SampleEdges<'a>>,
    pub above_right: Option<SampleEdges<'a>>,
}

/// A coding tree block in one colour component, and what lies around it: its side, the column and
/// the row of the picture in which it begins, and the sides of the picture, in samples.
#[derive(Clone, Copy)]
pub struct View<'a> {
    /// 64, or 32 in chroma.
    pub side: usize,
    pub left: usize,
    pub top: usize,
    pub width: usize,
    pub height: usize,
    pub around: SamplesAround<'a>,
    pub ghost least: { 8 ≤ side },
    pub ghost most: { side ≤ 64 },
    pub ghost narrow: { left ≤ 274877906944 },
    pub ghost low: { top ≤ 274877906944 },
}
