//! The samples across an edge.

/// The four samples at one side of an edge, from the edge away: p0, p1, p2 and p3 at the left of a
/// vertical edge and above a horizontal one, and q0, q1, q2 and q3 at the other side.
#[derive(Clone, Copy, Debug, PartialEq, Eq)]
pub struct Side {
    pub s0: u8,
    pub s1: u8,
    pub s2: u8,
    pub s3: u8,
}

/// The samples of one line across an edge.
#[derive(Clone, Copy, Debug, PartialEq, Eq)]
pub struct Line {
    pub p: Side,
    pub q: Side,
}
