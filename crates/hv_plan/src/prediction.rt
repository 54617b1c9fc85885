//! How a coding unit is predicted, and in which order its levels are scanned.

/// A motion vector, or a difference of two, in quarters of a luma sample (8.5.3.2).
#[derive(Clone, Copy, Debug, PartialEq, Eq, Hash)]
pub struct Mv {
    /// To the right.
    pub x: i16,
    /// Downwards.
    pub y: i16,
}

/// How a coding unit is predicted (7.4.9.5, `CuPredMode`).
#[derive(Clone, Copy, Debug, PartialEq, Eq, Hash)]
pub enum Pred {
    /// Inside the picture, with mode `IntraPredModeY`, 0 to 34 (8.4.2).
    Intra {
        mode: u8,
    },
    /// From the picture of entry `reference` of list 0 (`ref_idx_l0`), 0 or 1. The vector `mv` is
    /// the candidate of this `flag` (`mvp_l0_flag`), 0 or 1, plus the difference `mvd`
    /// (`MvdL0`), modulo 2^16 (8.5.3.2.1).
    Inter {
        reference: u8,
        mv: Mv,
        flag: u8,
        mvd: Mv,
    },
}

/// What is known of a square of 8x8 luma samples: how deep its coding unit lies in the coding
/// quadtree (`CtDepth`, 0 to 3), and how that unit is predicted.
#[derive(Clone, Copy, Debug, PartialEq, Eq, Hash)]
pub struct Unit {
    pub depth: u8,
    pub pred: Pred,
}

/// The order in which the levels of a transform block are scanned (6.5.3 to 6.5.5, `scanIdx` of
/// 7.4.9.11).
#[derive(Clone, Copy, Debug, PartialEq, Eq, Hash)]
pub enum Scan {
    /// `scanIdx` 0
    Diagonal,
    /// `scanIdx` 1
    Horizontal,
    /// `scanIdx` 2
    Vertical,
}
