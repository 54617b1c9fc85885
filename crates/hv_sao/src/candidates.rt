//! Candidates for the offsets of a block: their offsets, squared differences and bins.

ghost use Rattle.std.specs.Prelude.{◌≡◌, ℕ, ◌+◌, ◌*◌, ◌<◌, ◌≤◌, ◌^◌, length, pos, ◌+ℤ◌};
ghost use Rattle.std.specs.Int.RustNames.{unsigned_abs};
ghost use Rattle.hv_plan.specs.declared.offsets.SaoKind.TheVariants.{Off, Band, Edge};
ghost use Rattle.hv_filter_model.specs.OffsetBins.{offset_bins, own_bins};
ghost use Rattle.hv_filter_model.specs.OffsetDecision.{Block};
ghost use Rattle.hv_sao.specs.Tallies.{AreAtMost};
ghost use Rattle.hv_sao.specs.Decisions.{IsOffset, IsCandidate, IsMeasured, IsCounted, IsCountedByEdge, HasBandOffsets, AreSmallTo, growth_at_index, component_from};

use crate::candidate::Candidate;
use crate::offset::{Offset, offset_from, plus};
use crate::tally::Tally;
use hv_plan::{SaoComponent, SaoKind};

/// How many bins an offset takes, with its sign (9.3.3).
fn offset_bins(kind: SaoKind, value: i8) -> u32
    ensures value { result ≡ offset_bins kind value }
    ensures most { result ≤ 8 }
{
    let size = u32::from(value.unsigned_abs());
    match kind {
        SaoKind::Off => 0,
        SaoKind::Band { .. } => (size + 1).min(7) + u32::from(size != 0),
        SaoKind::Edge { .. } => (size + 1).min(7),
    }
}

/// How many bins the offsets, signs and position of a component take (7.3.8.3).
fn own_bins(component: SaoComponent) -> u32
    ensures value { result ≡ own_bins component }
    ensures most { result ≤ 37 }
{
    let kind = component.kind;
    let [a, b, c, d] = component.offsets;
    let position = match kind {
        SaoKind::Band { .. } => 5,
        _ => 0,
    };
    offset_bins(kind, a)
        + offset_bins(kind, b)
        + offset_bins(kind, c)
        + offset_bins(kind, d)
        + position
}

/// The sum of three growths.
#[inline(always)]
fn sum_of_three(a: i32, b: i32, c: i32) -> i32
    requires a { unsigned_abs a ≤ 2 ^ 27 }
    requires b { unsigned_abs b ≤ 2 ^ 27 }
    requires c { unsigned_abs c ≤ 2 ^ 27 }
    ensures value { result ≡ a +ℤ b +ℤ c }
    ensures most { unsigned_abs result ≤ 3 * 2 ^ 27 }
{
    plus(plus(a, b), c)
}

/// The sum of four growths.
#[inline(always)]
fn sum_of_four(a: i32, b: i32, c: i32, d: i32) -> i32
    requires a { unsigned_abs a ≤ 2 ^ 27 }
    requires b { unsigned_abs b ≤ 2 ^ 27 }
    requires c { unsigned_abs c ≤ 2 ^ 27 }
    requires d { unsigned_abs d ≤ 2 ^ 27 }
    ensures value { result ≡ a +ℤ b +ℤ c +ℤ d }
    ensures most { unsigned_abs result ≤ 2 ^ 29 }
{
    plus(sum_of_three(a, b, c), d)
}

/// The sum of squared differences that is left where it was this sum and grows by so much.
#[inline(always)]
fn grown(squares: u32, growth: i32) -> i32
    requires squares { squares ≤ 65025 * 4096 }
    requires growth { unsigned_abs growth ≤ 2 ^ 29 }
    ensures value { result ≡ pos squares +ℤ growth }
    ensures most { unsigned_abs result ≤ 2 ^ 30 }
{
    squares as i32 + growth
}

/// The candidate of a kind that has these offsets, where the squared differences of what is
/// deblocked have this sum.
fn from_offsets(kind: SaoKind, offsets: [Offset; 4], squares: u32) -> Candidate
    requires squares { squares ≤ 65025 * 4096 }
    requires first { unsigned_abs (growth_at_index offsets 0) ≤ 2 ^ 27 }
    requires second { unsigned_abs (growth_at_index offsets 1) ≤ 2 ^ 27 }
    requires third { unsigned_abs (growth_at_index offsets 2) ≤ 2 ^ 27 }
    requires fourth { unsigned_abs (growth_at_index offsets 3) ≤ 2 ^ 27 }
    ensures component { result.component ≡ component_from kind offsets }
    ensures squares { result.squares ≡ pos squares +ℤ
        (growth_at_index offsets 0 +ℤ growth_at_index offsets 1 +ℤ
        growth_at_index offsets 2 +ℤ growth_at_index offsets 3) }
    ensures bins { result.bins ≡ own_bins result.component }
{
    let [a, b, c, d] = offsets;
    let component = SaoComponent {
        kind,
        offsets: [a.value, b.value, c.value, d.value],
    };
    Candidate {
        component,
        squares: grown(squares, sum_of_four(a.growth, b.growth, c.growth, d.growth)),
        bins: own_bins(component),
    }
}

/// Off.
pub(crate) fn off_candidate(squares: u32) -> Candidate
    requires { squares ≤ 65025 * 4096 }
    ensures { (b : Block) → IsMeasured b squares → IsCandidate b Off result }
{
    from_offsets(SaoKind::Off, [Offset::NONE; 4], squares)
}

/// The offset of a band of 8 values.
fn band_offset(tallies: &[Tally], band: u8) -> Offset
    requires band { band < 32 }
    requires room { length tallies.now ≡ 256 }
    requires few { AreAtMost 256 4096 tallies.now }
    ensures value { (b : Block) (squares position i : ℕ) → IsCounted b tallies.now squares →
        position ≤ 28 → i < 4 → position + i ≡ band →
        IsOffset b (Band position) i result.value result.growth }
    ensures small { unsigned_abs result.growth ≤ 2 ^ 27 }
{
    offset_from(tallies, usize::from(8 * band), 8 * band, -7, 7)
}

/// The offset of each band.
pub(crate) fn band_offsets(tallies: &[Tally]) -> [Offset; 32]
    requires room { length tallies.now ≡ 256 }
    requires few { AreAtMost 256 4096 tallies.now }
    ensures value { (b : Block) (squares : ℕ) → IsCounted b tallies.now squares →
        HasBandOffsets 32 b result }
    ensures small { AreSmallTo 32 result }
{
    let mut offsets = [Offset::NONE; 32];
    for band in 0..32u8 {
        offsets[usize::from(band)] = band_offset(tallies, band);
    }
    offsets
}

/// The band from a position on, from the offsets of all bands.
pub(crate) fn band_candidate(offsets: &[Offset; 32], position: u8, squares: u32) -> Candidate
    requires position { position ≤ 28 }
    requires small { AreSmallTo 32 offsets.now }
    requires squares { squares ≤ 65025 * 4096 }
    ensures { (b : Block) → HasBandOffsets 32 b offsets.now → IsMeasured b squares →
        IsCandidate b (Band position) result }
{
    let at = usize::from(position);
    let four = [
        offsets[at],
        offsets[at + 1],
        offsets[at + 2],
        offsets[at + 3],
    ];
    from_offsets(SaoKind::Band { position }, four, squares)
}

/// The offset of edge `index`, of the four from a local minimum to a local maximum.
fn edge_offset(tallies: &[Tally], index: u8) -> Offset
    requires index { index < 4 }
    requires room { length tallies.now ≡ 33 }
    requires few { AreAtMost 33 4096 tallies.now }
    ensures value { (class : ℕ) (b : Block) (squares : ℕ) →
        IsCountedByEdge class b tallies.now squares →
        IsOffset b (Edge class) index result.value result.growth }
    ensures small { unsigned_abs result.growth ≤ 2 ^ 27 }
{
    let at = usize::from(8 * index);
    if index < 2 {
        offset_from(tallies, at, 248, 0, 7)
    } else {
        offset_from(tallies, at, 0, -7, 0)
    }
}

/// The edges of a class, from counts by edges.
pub(crate) fn edge_candidate(tallies: &[Tally], class: u8, squares: u32) -> Candidate
    requires room { length tallies.now ≡ 33 }
    requires few { AreAtMost 33 4096 tallies.now }
    requires squares { squares ≤ 65025 * 4096 }
    ensures { (b : Block) → IsCountedByEdge class b tallies.now squares →
        IsCandidate b (Edge class) result }
{
    let offsets = [
        edge_offset(tallies, 0),
        edge_offset(tallies, 1),
        edge_offset(tallies, 2),
        edge_offset(tallies, 3),
    ];
    from_offsets(SaoKind::Edge { class }, offsets, squares)
}
