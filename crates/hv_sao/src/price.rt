//! Candidates with their costs.

ghost use Rattle.std.specs.Prelude.{◌≡◌, ℕ, ◌+◌, ◌<◌, ◌≤◌, cond, int_lt, pos};
ghost use Rattle.hv_filter_model.specs.Costs.{cost};
ghost use Rattle.hv_filter_model.specs.OffsetBins.{type_bins, class_bins};

use crate::candidate::Candidate;
use crate::cost::cost;
use hv_plan::SaoKind;

/// A candidate of a component, with its cost.
#[derive(Clone, Copy)]
pub(crate) struct Priced {
    pub(crate) candidate: Candidate,
    pub(crate) cost: i64,
}

/// A candidate of Cb and one of Cr, with their cost.
#[derive(Clone, Copy)]
pub(crate) struct PricedPair {
    pub(crate) cb: Candidate,
    pub(crate) cr: Candidate,
    pub(crate) cost: i64,
}

/// How many bins the type and the class take (7.3.8.3).
fn kind_bins(kind: SaoKind) -> u32
    ensures value { result ≡ type_bins kind + class_bins kind }
    ensures most { result ≤ 4 }
{
    match kind {
        SaoKind::Off => 1,
        SaoKind::Band { .. } => 2,
        SaoKind::Edge { .. } => 4,
    }
}

/// A candidate with the cost of its own bins, without type and class.
pub(crate) fn price_alone(qp: u8, candidate: Candidate) -> Priced
    requires { qp < 52 }
    ensures candidate { result.candidate ≡ candidate }
    ensures cost { (s : ℕ) → candidate.squares ≡ pos s →
        result.cost ≡ pos (cost qp s candidate.bins) }
{
    Priced {
        candidate,
        cost: cost(qp, i64::from(candidate.squares), candidate.bins),
    }
}

/// A candidate of luma with its cost.
pub(crate) fn price_luma(qp: u8, candidate: Candidate) -> Priced
    requires { qp < 52 }
    ensures candidate { result.candidate ≡ candidate }
    ensures cost { (s : ℕ) → candidate.squares ≡ pos s → result.cost ≡ pos (cost qp s
        (type_bins candidate.component.kind + class_bins candidate.component.kind +
        candidate.bins)) }
{
    let bins = kind_bins(candidate.component.kind) + candidate.bins;
    Priced {
        candidate,
        cost: cost(qp, i64::from(candidate.squares), bins),
    }
}

/// A candidate of Cb and one of Cr, of one type and class, with their cost.
pub(crate) fn price_chroma(qp: u8, cb: Candidate, cr: Candidate) -> PricedPair
    requires { qp < 52 }
    ensures cb { result.cb ≡ cb }
    ensures cr { result.cr ≡ cr }
    ensures cost { (s t : ℕ) → cb.squares ≡ pos s → cr.squares ≡ pos t →
        result.cost ≡ pos (cost qp (s + t) (type_bins cb.component.kind +
        class_bins cb.component.kind + cb.bins + cr.bins)) }
{
    let bins = kind_bins(cb.component.kind) + cb.bins + cr.bins;
    let squares = i64::from(cb.squares) + i64::from(cr.squares);
    PricedPair {
        cb,
        cr,
        cost: cost(qp, squares, bins),
    }
}

/// The second of two where it costs less, else the first.
pub(crate) fn cheaper(first: Priced, second: Priced) -> Priced
    ensures { result ≡ cond (int_lt second.cost first.cost) second first }
{
    if second.cost < first.cost {
        second
    } else {
        first
    }
}

/// The second of two where it costs less, else the first.
pub(crate) fn cheaper_pair(first: PricedPair, second: PricedPair) -> PricedPair
    ensures { result ≡ cond (int_lt second.cost first.cost) second first }
{
    if second.cost < first.cost {
        second
    } else {
        first
    }
}
