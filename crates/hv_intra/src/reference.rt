//! The reference samples of an angular mode.

ghost use Rattle.std.specs.Prelude.{◌≡◌, ◌+◌, ◌*◌, ◌^◌, ◌<◌, ◌≤◌, length, pos, negsuc, ◌*ℤ◌};
ghost use Rattle.std.specs.Int.RustNames.{unsigned_abs};
ghost use Rattle.hv_tables.specs.Angles.{intraPredAngle, invAngle};
ghost use Rattle.hv_intra.specs.References.{shift, first, part, projected, projected_count, HoldsReference};
ghost use Rattle.hv_sample_model.specs.IntraPrediction.{left, above};

use crate::neighbours::{Neighbours, Side};
use hv_tables::{intra_pred_angle, inv_angle};

/// The places of a list of reference samples: those before the corner, the main side, and some that
/// are read and have no weight.
pub(crate) const PLACES: usize = 112;

/// An angular mode, 2 to 34.
#[derive(Clone, Copy)]
pub(crate) struct AngularMode {
    pub(crate) number: u8,
    ghost first: { 2 ≤ number },
    ghost last: { number ≤ 34 },
}

impl AngularMode {
    /// How far along a mode's line has come at a row, in 32nds of a sample.
    #[inline(always)]
    fn way(self, across: usize) -> i32
        requires { across < 32 }
        ensures value { result ≡ pos (across + 1) *ℤ intraPredAngle self.number }
        ensures most { unsigned_abs result ≤ 1024 }
    {
        (across as i32 + 1) * i32::from(intra_pred_angle(self.number))
    }

    /// The whole samples of it.
    #[inline(always)]
    fn shift(self, across: usize) -> i32
        requires { across < 32 }
        ensures value { result ≡ shift self.number across }
        ensures most { unsigned_abs result ≤ 32 }
    {
        self.way(across) >> 5
    }

    /// iFact of a row (8.4.4.2.6): the weight of the further reference sample, in 32nds.
    #[inline(always)]
    pub(crate) fn part(self, across: usize) -> u8
        requires { across < 32 }
        ensures value { result ≡ part self.number across }
        ensures most { result < 32 }
    {
        self.way(across).rem_euclid(32) as u8
    }

    /// The place of the reference sample from which a row of a block begins: that of its first
    /// sample, and iIdx further (8.4.4.2.6).
    #[inline(always)]
    pub(crate) fn first(self, side: Side, across: usize) -> usize
        requires { across < 2 ^ side.log2 }
        ensures { result ≡ first side.log2 self.number across }
    {
        (side.count() as i32 + 1 + self.shift(across)) as usize
    }

    /// How many samples before the corner it refers to.
    #[inline(always)]
    fn projected_count(self, side: Side) -> usize
        ensures { result ≡ projected_count side.log2 self.number }
    {
        if 11 <= self.number && self.number <= 25 {
            self.shift(side.count() - 1).unsigned_abs() as usize - 1
        } else {
            0
        }
    }
}

/// How far along the other side a mode's line has come at the sample that is `i + 1` before the
/// corner, in 256ths of a sample.
#[inline(always)]
fn way_back(mode: u8, i: usize) -> i32
    requires first { 11 ≤ mode }
    requires last { mode ≤ 25 }
    requires sample { i < 32 }
    ensures value { result ≡ negsuc i *ℤ invAngle mode }
    ensures most { unsigned_abs result ≤ 131072 }
{
    (-1 - i as i32) * i32::from(inv_angle(mode))
}

/// Where that sample lies on the other side (8.4.4.2.6).
#[inline(always)]
fn projected(mode: u8, i: usize) -> usize
    requires first { 11 ≤ mode }
    requires last { mode ≤ 25 }
    requires sample { i < 32 }
    ensures { result ≡ projected mode i }
{
    ((way_back(mode, i) + 128) >> 8) as usize
}

/// The reference samples of a mode that predicts from above: its main side is above the block, the
/// other one at the left.
#[inline(always)]
#[tactic(auto, using(crate::proofs::FactLemmas::counted_first, crate::proofs::FactLemmas::counted_last, crate::proofs::FactLemmas::counted_side, crate::proofs::FactLemmas::projected_inside))]
pub(crate) fn fill_from_above(
    neighbours: Neighbours<'_>,
    mode: AngularMode,
    reference: &mut [u8; PLACES],
)
    ensures { HoldsReference neighbours.entry.side.log2 mode.number
        (above neighbours.entry.side.log2 neighbours.entry.line.now)
        (left neighbours.entry.side.log2 neighbours.entry.line.now) reference.new }
{
    let n = neighbours.side.count();
    for i in 0..2 * n + 1 {
        reference[n + i] = neighbours.above(i);
    }
    for i in 0..mode.projected_count(neighbours.side) {
        reference[n - 1 - i] = neighbours.left(projected(mode.number, i));
    }
}

/// The reference samples of a mode that predicts from the left, with the sides exchanged.
#[inline(always)]
#[tactic(auto, using(crate::proofs::FactLemmas::counted_first, crate::proofs::FactLemmas::counted_last, crate::proofs::FactLemmas::counted_side, crate::proofs::FactLemmas::projected_inside))]
pub(crate) fn fill_from_left(
    neighbours: Neighbours<'_>,
    mode: AngularMode,
    reference: &mut [u8; PLACES],
)
    ensures { HoldsReference neighbours.entry.side.log2 mode.number
        (left neighbours.entry.side.log2 neighbours.entry.line.now)
        (above neighbours.entry.side.log2 neighbours.entry.line.now) reference.new }
{
    let n = neighbours.side.count();
    for i in 0..2 * n + 1 {
        reference[n + i] = neighbours.left(i);
    }
    for i in 0..mode.projected_count(neighbours.side) {
        reference[n - 1 - i] = neighbours.above(projected(mode.number, i));
    }
}
