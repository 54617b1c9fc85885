//! What is coded of a coding tree block, in plain arrays.

use hv_plan::{Mv, SaoComponent, SaoKind, SaoParam};

/// How a coding unit is predicted (7.3.8.5).
#[derive(Clone, Copy, Debug, PartialEq, Eq)]
pub enum Prediction {
    /// Inside the picture, with `IntraPredModeY`, 0 to 34.
    Intra { mode: u8 },
    /// From the picture of `ref_idx_l0`, 0 or 1, with `mvp_l0_flag`, 0 or 1, and `MvdL0`.
    Inter { reference: u8, flag: u8, mvd: Mv },
}

/// What is known of a square of 8x8 luma samples: `CtDepth` of its coding unit, 0 to 3, and how
/// that is predicted.
#[derive(Clone, Copy, Debug, PartialEq, Eq)]
pub struct Square {
    pub depth: u8,
    pub prediction: Prediction,
}

/// A coding tree block of 64x64 luma samples.
#[derive(Drop)]
pub struct CodedBlock {
    /// By their addresses in z-scan order (6.5.2); none outside the picture.
    pub squares: [Option<Square>; 64],
    /// The levels of the transform blocks, in decoding order one behind the other, each by rows.
    pub luma: [i16; 4096],
    /// The same of Cb.
    pub cb: [i16; 1024],
    /// The same of Cr.
    pub cr: [i16; 1024],
    pub sao: SaoParam,
}

/// No offsets.
pub(crate) const NO_OFFSETS: SaoComponent = SaoComponent {
    kind: SaoKind::Off,
    offsets: [0; 4],
};

impl CodedBlock {
    /// A block of which no square is known, without levels and offsets.
    pub fn new() -> CodedBlock {
        CodedBlock {
            squares: [None; 64],
            luma: [0; 4096],
            cb: [0; 1024],
            cr: [0; 1024],
            sao: SaoParam {
                luma: NO_OFFSETS,
                cb: NO_OFFSETS,
                cr: NO_OFFSETS,
            },
        }
    }

    /// Whether the other block has the same squares, levels and offsets.
    pub fn is_same(&self, other: &CodedBlock) -> bool {
        self.squares.as_slice() == other.squares.as_slice()
            && self.luma.as_slice() == other.luma.as_slice()
            && self.cb.as_slice() == other.cb.as_slice()
            && self.cr.as_slice() == other.cr.as_slice()
            && self.sao == other.sao
    }
}

/// Puts the first levels of a transform block at a place and behind it, as far as there is room.
pub(crate) fn put_levels(all: &mut [i16], place: usize, levels: &[i16; 1024], count: usize) {
    for i in 0..count.min(1024) {
        let at = place.saturating_add(i);
        if at < all.len() {
            all[at] = levels[i];
        }
    }
}
