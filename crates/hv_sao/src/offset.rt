//! The offset of a category, from the counts and sums of its samples.

ghost use Rattle.std.specs.Prelude.{◌≡◌, ◌+◌, ◌*◌, ◌<◌, ◌≤◌, ◌^◌, length, pos, negsuc, ◌≤ℤ◌, ◌+ℤ◌};
ghost use Rattle.std.specs.Int.RustNames.{unsigned_abs};
ghost use Rattle.hv_lemmas.specs.Clipping.{clip3};
ghost use Rattle.hv_filter_model.specs.OffsetDecision.{mean};
ghost use Rattle.hv_sao.specs.Tallies.{AreAtMost};
ghost use Rattle.hv_sao.specs.Decisions.{group_count, group_sum, group_growth, moved, tally_growth};

use crate::samples::with_offset;
use crate::tally::Tally;

/// An offset, and by how much the sum of squared differences grows where the samples of its
/// category get it.
#[derive(Clone, Copy)]
pub(crate) struct Offset {
    pub(crate) value: i8,
    pub(crate) growth: i32,
}

impl Offset {
    /// Nothing changes.
    pub(crate) const NONE: Offset = Offset {
        value: 0,
        growth: 0,
    };
}

/// The mean of numbers, rounded to the nearest, a half away from 0; 0 of none.
#[inline(always)]
fn mean(sum: i32, count: u32) -> i32
    requires sum { unsigned_abs sum < 2 ^ 24 }
    requires count { count < 2 ^ 24 }
    ensures { result ≡ mean sum count }
{
    if count == 0 {
        return 0;
    }
    let size = ((2 * sum.unsigned_abs() + count) / (2 * count)) as i32;
    if sum < 0 { -size } else { size }
}

/// How far a sample moves by an offset.
#[inline(always)]
fn moved(sample: u8, offset: i8) -> i32
    requires { unsigned_abs offset ≤ 7 }
    ensures value { result ≡ moved sample offset }
    ensures most { unsigned_abs result ≤ 7 }
{
    i32::from(with_offset(sample, offset)) - i32::from(sample)
}

/// By how much the squared differences of a tally's samples grow where each moves so far.
#[inline(always)]
fn growth(tally: Tally, by: i32) -> i32
    requires by { unsigned_abs by ≤ 7 }
    requires count { tally.count ≤ 4096 }
    requires sum { unsigned_abs tally.sum ≤ 255 * 4096 }
    ensures value { result ≡ tally_growth tally by }
    ensures most { unsigned_abs result ≤ 2 ^ 24 }
{
    tally.count as i32 * (by * by) - 2 * (by * tally.sum)
}

/// The sum of two numbers.
#[inline(always)]
pub(crate) fn plus(a: i32, b: i32) -> i32
    requires a { unsigned_abs a ≤ 2 ^ 29 }
    requires b { unsigned_abs b ≤ 2 ^ 29 }
    ensures value { result ≡ a +ℤ b }
    ensures most { unsigned_abs result ≤ unsigned_abs a + unsigned_abs b }
{
    a + b
}

/// How many samples a group of eight tallies from place `at` on counts, and the sum of their
/// differences.
#[tactic(auto, using(crate::proofs::TallyLemmas::counts_none, crate::proofs::TallyLemmas::counts_more, crate::proofs::TallyLemmas::sums_none, crate::proofs::TallyLemmas::sums_more))]
fn total(tallies: &[Tally], at: usize) -> Tally
    requires room { at + 8 ≤ length tallies.now }
    requires most { AreAtMost (at + 8) 4096 tallies.now }
    ensures count { pos result.count ≡ group_count tallies.now at }
    ensures sum { result.sum ≡ group_sum tallies.now at }
    ensures few { result.count < 2 ^ 24 }
    ensures small { unsigned_abs result.sum < 2 ^ 24 }
{
    let mut count = 0u32;
    let mut sum = 0i32;
    for j in 0..8usize {
        let tally = tallies[at + j];
        count += tally.count;
        sum = plus(sum, tally.sum);
    }
    Tally { count, sum }
}

/// A sum of growths, and that of one tally more, whose samples have this value and get an offset.
#[inline(always)]
fn grown(all: i32, tally: Tally, sample: u8, offset: i8) -> i32
    requires all { unsigned_abs all ≤ 2 ^ 28 }
    requires offset { unsigned_abs offset ≤ 7 }
    requires count { tally.count ≤ 4096 }
    requires sum { unsigned_abs tally.sum ≤ 255 * 4096 }
    ensures value { result ≡ all +ℤ tally_growth tally (moved sample offset) }
    ensures most { unsigned_abs result ≤ unsigned_abs all + 2 ^ 24 }
{
    plus(all, growth(tally, moved(sample, offset)))
}

/// By how much the squared differences of a group of eight tallies grow by an offset. Its samples
/// have the values from `base` on, one a tally.
#[tactic(auto, using(crate::proofs::TallyLemmas::growths_none, crate::proofs::TallyLemmas::growths_more))]
fn group_growth(tallies: &[Tally], at: usize, base: u8, offset: i8) -> i32
    requires room { at + 8 ≤ length tallies.now }
    requires most { AreAtMost (at + 8) 4096 tallies.now }
    requires base { base ≤ 248 }
    requires offset { unsigned_abs offset ≤ 7 }
    ensures value { result ≡ group_growth tallies.now at base offset }
    ensures small { unsigned_abs result ≤ 2 ^ 27 }
{
    let mut all = 0i32;
    for j in 0..8u8 {
        all = grown(all, tallies[at + usize::from(j)], base + j, offset);
    }
    all
}

/// The mean of the differences of these samples, in a range.
fn mean_between(all: Tally, least: i8, most: i8) -> i8
    requires count { all.count < 2 ^ 24 }
    requires sum { unsigned_abs all.sum < 2 ^ 24 }
    requires least { unsigned_abs least ≤ 7 }
    requires most { unsigned_abs most ≤ 7 }
    requires order { least ≤ℤ most }
    ensures value { result ≡ clip3 least most (mean all.sum all.count) }
    ensures small { unsigned_abs result ≤ 7 }
{
    let mean = mean(all.sum, all.count);
    if mean < i32::from(least) {
        least
    } else if mean > i32::from(most) {
        most
    } else {
        mean as i8
    }
}

/// The offset of a group of eight tallies, in a range, whose samples have the values from `base`
/// on, one a tally.
pub(crate) fn offset_from(tallies: &[Tally], at: usize, base: u8, least: i8, most: i8) -> Offset
    requires room { at + 8 ≤ length tallies.now }
    requires few { AreAtMost (at + 8) 4096 tallies.now }
    requires base { base ≤ 248 }
    requires least { unsigned_abs least ≤ 7 }
    requires most { unsigned_abs most ≤ 7 }
    requires order { least ≤ℤ most }
    ensures value { result.value ≡ clip3 least most
        (mean (group_sum tallies.now at) (unsigned_abs (group_count tallies.now at))) }
    ensures growth { result.growth ≡ group_growth tallies.now at base result.value }
    ensures small { unsigned_abs result.growth ≤ 2 ^ 27 }
{
    let value = mean_between(total(tallies, at), least, most);
    Offset {
        value,
        growth: group_growth(tallies, at, base, value),
    }
}
