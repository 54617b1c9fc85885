//! How often each alternative of the syntax of coding tree units came (7.3.8.1 to 7.3.8.10). It
//! serves tests, which ask that each came often enough; no contract says what is noted.

use hv_plain::{Counts, Row, Tally};
use std::io::{self, Print};

/// A syntax element of a coding tree unit, or what is derived for one.
#[derive(Clone, Copy)]
pub enum UnitElement {
    /// `sao_merge_left_flag`; 1 is absent.
    MergeLeft,
    /// `sao_merge_up_flag`; 1 is absent.
    MergeUp,
    /// `sao_type_idx_luma`
    LumaType,
    /// `sao_type_idx_chroma`
    ChromaType,
    /// `sao_offset_abs`
    OffsetMagnitude,
    /// `sao_offset_sign`
    OffsetSign,
    /// `sao_band_position`
    BandPosition,
    /// `sao_eo_class_luma`
    LumaClass,
    /// `sao_eo_class_chroma`
    ChromaClass,
    /// `split_cu_flag` where it is coded: 6 * depth + 2 * ctxInc + value.
    SplitFlag,
    /// The depth of a node that crosses the edge of the picture and is split.
    InferredSplit,
    /// The size of a node outside the picture: 0 is 8x8, 2 is 32x32.
    AbsentNode,
    /// A coding unit: its size from 8x8 to 64x64, and 4 more for intra in P slices, 8 for inter.
    CodingUnit,
    /// The unit at the left of an intra unit: 0 not available, 1 intra, 2 inter.
    LeftMode,
    /// The unit above an intra unit: 0 not available, 1 intra, 2 inter, 3 in the row of blocks
    /// above.
    AboveMode,
    /// The most probable modes: 0 from equal ones below 2, 1 from other equal ones, and else by the
    /// third of them: 2 planar, 3 DC, 4 vertical.
    MostProbableModes,
    /// `mpm_idx`; 3 is `rem_intra_luma_pred_mode`.
    MpmIdx,
    /// `rem_intra_luma_pred_mode`
    RemainingMode,
    /// `IntraPredModeY`
    Mode,
    /// `ref_idx_l0`; 2 is absent.
    Reference,
    /// The horizontal part of a vector difference: its magnitude, cut to 2.
    DifferenceX,
    /// The vertical part.
    DifferenceY,
    /// `mvd_sign_flag`
    DifferenceSign,
    /// The ones in front of `abs_mvd_minus2`
    DifferenceOnes,
    /// `mvp_l0_flag`
    VectorFlag,
    /// `rqt_root_cbf`
    RootFlag,
    /// `cbf_cb`, 2 more at depth 1; 4 is inferred.
    CbFlag,
    /// `cbf_cr`, 2 more at depth 1; 4 is inferred.
    CrFlag,
    /// `cbf_luma`, 3 more at depth 1; 2 is inferred at depth 0.
    LumaFlag,
    /// A transform block with levels: luma of 8x8 to 32x32, 3 more for Cb and 6 for Cr, of 4x4 to
    /// 16x16.
    TransformBlock,
    /// `scanIdx` of an intra block of 8x8 luma samples, and 3 more of one of 4x4 chroma samples.
    ScanOfMode,
    /// `end_of_slice_segment_flag`
    EndOfSlice,
}

/// Each element's name and the number of its alternatives, in the order of `UnitElement`.
const ROWS: [Row; 32] = [
    ("sao_merge_left_flag", 2),
    ("sao_merge_up_flag", 2),
    ("sao_type_idx_luma", 3),
    ("sao_type_idx_chroma", 3),
    ("sao_offset_abs", 8),
    ("sao_offset_sign", 2),
    ("sao_band_position", 32),
    ("sao_eo_class_luma", 4),
    ("sao_eo_class_chroma", 4),
    ("split_cu_flag with depth and context", 18),
    ("depth of a split at the edge", 3),
    ("size of an absent node", 3),
    ("size and prediction of a unit", 12),
    ("unit at the left of an intra unit", 3),
    ("unit above an intra unit", 4),
    ("form of the most probable modes", 5),
    ("mpm_idx", 4),
    ("rem_intra_luma_pred_mode", 32),
    ("IntraPredModeY", 35),
    ("ref_idx_l0", 3),
    ("magnitude of a difference in x, cut to 2", 3),
    ("magnitude of a difference in y, cut to 2", 3),
    ("mvd_sign_flag", 2),
    ("ones of abs_mvd_minus2", 15),
    ("mvp_l0_flag", 2),
    ("rqt_root_cbf", 2),
    ("cbf_cb with depth", 5),
    ("cbf_cr with depth", 5),
    ("cbf_luma with depth", 5),
    ("transform block with levels", 9),
    ("scanIdx by the mode", 6),
    ("end_of_slice_segment_flag", 2),
];

/// How often each alternative came: those of levels, with the number of all bins, and those of
/// coding tree units.
#[derive(Drop)]
pub struct UnitTally {
    levels: Tally,
    counts: Counts,
}

impl UnitTally {
    /// Nothing came.
    pub fn new() -> UnitTally {
        UnitTally {
            levels: Tally::new(),
            counts: Counts::new(),
        }
    }

    /// The least count of an alternative of coding tree units, those of levels left out.
    pub fn least(&self) -> u32 {
        self.counts.least(&ROWS)
    }

    /// Prints a line for each alternative of coding tree units: the element's name, the
    /// alternative, and how often it came.
    pub fn print(&self, rt: &impl Print) -> io::Result<()> {
        self.counts.print(rt, &ROWS)
    }

    /// How often an alternative came.
    pub fn count(&self, element: UnitElement, alternative: u8) -> u32 {
        self.counts.count(element as usize, alternative)
    }

    /// How many bins were asked for.
    pub fn bins(&self) -> u32 {
        self.levels.bins()
    }

    /// What came of levels.
    pub(crate) fn levels_mut(&mut self) -> &mut Tally {
        &mut self.levels
    }

    /// An alternative came.
    pub(crate) fn note(&mut self, element: UnitElement, alternative: u8) {
        self.counts.note(element as usize, alternative);
    }
}
