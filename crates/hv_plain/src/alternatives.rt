//! How often each alternative of the syntax of levels came (`residual_coding`, 7.3.8.11). It serves
//! tests, which ask that each came often enough; no contract says what is noted.

use crate::counts::{Counts, Row};
use std::io::{self, Print};

/// A syntax element of the levels of a transform block, or a number that is derived for one.
#[derive(Clone, Copy)]
pub enum Element {
    /// The side and the component: 0 to 3 are luma from 4x4 to 32x32, 4 to 7 chroma.
    Block,
    /// `scanIdx`
    Scan,
    /// `last_sig_coeff_x_prefix` or `last_sig_coeff_y_prefix`
    LastPrefix,
    /// The bins of `last_sig_coeff_x_suffix` or `last_sig_coeff_y_suffix`; 0 is absent.
    LastSuffix,
    /// `coded_sub_block_flag`; 2 is inferred.
    CodedSubBlock,
    /// `csbfCtx`, cut to 1
    CodedSubBlockContext,
    /// `sig_coeff_flag`; 2 is inferred at position 0, 3 at the last position.
    Significance,
    /// How `sigCtx` is found: 0 in a 4x4 block, 1 at the first position of a block, and else by the
    /// flags of the sub-blocks to the right and below: 2 neither, 3 right, 4 below, 5 both.
    SignificanceContext,
    /// `coeff_abs_level_greater1_flag`; 2 is absent.
    Greater1,
    /// `ctxSet` of luma
    Greater1Luma,
    /// `ctxSet` of chroma
    Greater1Chroma,
    /// `greater1Ctx`
    Greater1Context,
    /// `coeff_abs_level_greater2_flag`; 2 is absent from a coded sub-block.
    Greater2,
    /// `coeff_sign_flag`
    Sign,
    /// The ones of the prefix of `coeff_abs_level_remaining`; 4 is the escape, and 5 is absent.
    Remaining,
    /// `cRiceParam`
    Rice,
    /// The ones that follow the first four of an escape.
    Escape,
}

/// Each element's name and the number of its alternatives, in the order of `Element`.
const ROWS: [Row; 17] = [
    ("side and component", 8),
    ("scanIdx", 3),
    ("prefix of the last position", 10),
    ("bins of the suffix of the last position", 4),
    ("coded_sub_block_flag", 3),
    ("csbfCtx, cut to 1", 2),
    ("sig_coeff_flag", 4),
    ("way of sigCtx", 6),
    ("coeff_abs_level_greater1_flag", 3),
    ("ctxSet of luma", 4),
    ("ctxSet of chroma", 2),
    ("greater1Ctx", 4),
    ("coeff_abs_level_greater2_flag", 3),
    ("coeff_sign_flag", 2),
    ("prefix of coeff_abs_level_remaining", 6),
    ("cRiceParam", 5),
    ("further ones of an escape", 14),
];

/// How often each alternative came, and how many bins were asked for.
#[derive(Drop)]
pub struct Tally {
    counts: Counts,
    bins: u32,
}

impl Tally {
    /// Nothing came.
    pub fn new() -> Tally {
        Tally {
            counts: Counts::new(),
            bins: 0,
        }
    }

    /// The least count of an alternative.
    pub fn least(&self) -> u32 {
        self.counts.least(&ROWS)
    }

    /// Prints a line for each alternative: the element's name, the alternative, and how often it
    /// came.
    pub fn print(&self, rt: &impl Print) -> io::Result<()> {
        self.counts.print(rt, &ROWS)
    }

    /// How often an alternative came.
    pub fn count(&self, element: Element, alternative: u8) -> u32 {
        self.counts.count(element as usize, alternative)
    }

    /// How many bins were asked for.
    pub fn bins(&self) -> u32 {
        self.bins
    }

    /// An alternative came.
    pub(crate) fn note(&mut self, element: Element, alternative: u8) {
        self.counts.note(element as usize, alternative);
    }

    /// A bin is asked for.
    pub(crate) fn note_bin(&mut self) {
        self.bins = self.bins.saturating_add(1);
    }
}
