//! How squares of 8x8 luma samples move.

use hv_plan::Mv;

/// A square that is predicted from another picture: the entry of list 0 (`RefIdxL0`, 0 or 1), and
/// the vector (`MvL0`), in quarters of a luma sample.
#[derive(Clone, Copy, Debug, PartialEq, Eq)]
pub struct Moving {
    pub reference: u8,
    pub mv: Mv,
}

/// The five squares around a unit that its vector is predicted by (8.5.3.2.7): none where one isn't
/// available, or is predicted inside the picture (6.4.2).
#[derive(Clone, Copy, Debug, PartialEq, Eq)]
pub struct Neighbourhood {
    /// Below the left side.
    pub a0: Option<Moving>,
    /// At the left, the lowest.
    pub a1: Option<Moving>,
    /// Behind the upper side.
    pub b0: Option<Moving>,
    /// Above, the last.
    pub b1: Option<Moving>,
    /// At the upper left corner.
    pub b2: Option<Moving>,
}
