//! Pieces of work.

/// What a worker does in a piece of work, in the order of the pipeline.
#[derive(Clone, Copy, Debug, PartialEq, Eq, Hash)]
pub enum PieceKind {
    /// Searches the motion of a whole picture.
    Search,
    /// Chooses and codes the coding tree blocks of a segment.
    Segment,
    /// Filters a whole picture.
    Filter,
    /// Packs the bytes of a whole picture.
    Pack,
}

/// A piece of work: one step of the pipeline on one picture, or on one segment of it.
#[derive(Clone, Copy, Debug, PartialEq, Eq, Hash)]
pub struct Piece {
    /// The number of the group, from 0.
    pub group: u32,
    /// The number of the picture in its group, in output order, from 0.
    pub picture: u8,
    /// What is done.
    pub kind: PieceKind,
    /// The number of the segment in its picture, by rows; 0 for the other kinds.
    pub segment: u32,
}
