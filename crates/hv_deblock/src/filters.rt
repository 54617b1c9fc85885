//! What a filter does to each of the four lines of an edge that are decided on together.

ghost use Rattle.std.specs.Prelude.{◌≡◌, ◌≤◌, ℕ};
ghost use Rattle.hv_deblock_model.specs.EdgeFilters.{strong_line, normal_line, chroma_line};
ghost use Rattle.hv_deblock.specs.Lines.{KeepsOuter};

use crate::chroma::chroma_line;
use crate::luma::{normal_line, strong_line};
use hv_deblock_model::Line;

/// A filter that is decided on for four lines.
pub(crate) trait LineFilter {
    ghost use Rattle.hv_deblock_model.specs.declared.line.Line.{Line};

    /// A line behind it.
    ghost filtered: { Self → Line → Line };

    /// How many samples at each end of a line it leaves.
    ghost margin: { Self → ℕ };

    /// That number, 1 to 3.
    fn margin(&self) -> u32
        ensures value { result ≡ margin self.now }
        ensures most { result ≤ 3 };

    /// A line behind it.
    fn filtered(&self, line: Line) -> Line
        ensures value { result ≡ filtered self.now line }
        ensures kept { KeepsOuter (margin self.now) line result };
}

/// The strong filter, by the threshold tC, 0 to 24.
#[derive(Drop)]
pub(crate) struct StrongFilter {
    pub(crate) tc: u8,
    ghost most: { tc ≤ 24 },
}

impl LineFilter for StrongFilter {
    ghost filtered = { λ f line. strong_line f.tc line };

    ghost margin = { λ f. 1 };

    #[inline(always)]
    fn margin(&self) -> u32 {
        1
    }

    #[inline(always)]
    #[tactic(auto, using(crate::proofs::KeptLemmas::strong_keeps))]
    fn filtered(&self, line: Line) -> Line {
        strong_line(self.tc, line)
    }
}

/// The normal filter, by the threshold tC, 0 to 24, and which sides are smooth.
#[derive(Drop)]
pub(crate) struct NormalFilter {
    pub(crate) tc: u8,
    pub(crate) smooth_p: bool,
    pub(crate) smooth_q: bool,
    ghost most: { tc ≤ 24 },
}

impl LineFilter for NormalFilter {
    ghost filtered = { λ f line. normal_line f.tc f.smooth_p f.smooth_q line };

    ghost margin = { λ f. 2 };

    #[inline(always)]
    fn margin(&self) -> u32 {
        2
    }

    #[inline(always)]
    #[tactic(auto, using(crate::proofs::KeptLemmas::normal_keeps))]
    fn filtered(&self, line: Line) -> Line {
        normal_line(self.tc, self.smooth_p, self.smooth_q, line)
    }
}

/// The filter of chroma, by the threshold tC, 0 to 24.
#[derive(Drop)]
pub(crate) struct ChromaFilter {
    pub(crate) tc: u8,
    ghost most: { tc ≤ 24 },
}

impl LineFilter for ChromaFilter {
    ghost filtered = { λ f line. chroma_line f.tc line };

    ghost margin = { λ f. 3 };

    #[inline(always)]
    fn margin(&self) -> u32 {
        3
    }

    #[inline(always)]
    #[tactic(auto, using(crate::proofs::KeptLemmas::chroma_keeps))]
    fn filtered(&self, line: Line) -> Line {
        chroma_line(self.tc, line)
    }
}
