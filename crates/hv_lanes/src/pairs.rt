//! Rows of a block in pairs.
ghost use Rattle.std.specs.Prelude.{ℕ, true, ◌+◌, ◌*◌, ◌/◌, ◌≡◌, ◌<◌, ◌≤◌, length};
ghost use Rattle.hv_lanes.specs.Passes.{HasFirst};
ghost use Rattle.hv_lanes.specs.Lanes.{at, Numbers, woven, IsOrder, ArePairs, HasPairs, IsShort, AreZero};

use std::simd::prelude::*;

/// Eight numbers of each of two rows, in turn.
#[inline(always)]
pub fn weave_eight(first: &[i16], second: &[i16], out: &mut [i16])
    requires first { length first.now ≡ 8 }
    requires second { length second.now ≡ 8 }
    requires first_numbers { Numbers first.now }
    requires second_numbers { Numbers second.now }
    requires room { length out.old ≡ 16 }
    ensures count { length out.new ≡ 16 }
    ensures each { (k : ℕ) → k < 16 → at out.new k ≡ woven first.now second.now k }
{
    i16x8::from_slice(first)
        .shuffle(
            i16x8::from_slice(second),
            [0, 8, 1, 9, 2, 10, 3, 11, 4, 12, 5, 13, 6, 14, 7, 15],
        )
        .copy_to_slice(out);
}

/// The numbers of two rows, in turn.
#[inline(always)]
fn weave_row(first: &[i16], second: &[i16], out: &mut [i16])
    requires eights { 8 * (length first.now / 8) ≡ length first.now }
    requires most { length first.now ≤ 32 }
    requires alike { length second.now ≡ length first.now }
    requires first_numbers { Numbers first.now }
    requires second_numbers { Numbers second.now }
    requires room { 2 * length first.now ≤ length out.old }
    ensures { HasFirst (2 * length first.now) (woven first.now second.now) out.new }
{
    for g in 0..first.len() / 8 {
        weave_eight(
            &first[8 * g..8 * g + 8],
            &second[8 * g..8 * g + 8],
            &mut out[16 * g..16 * g + 16],
        );
    }
}

/// The same, at the beginning of a row of pairs.
#[inline(always)]
fn weave_into<const W: usize>(first: &[i16], second: &[i16], out: &mut [i16; W])
    requires eights { 8 * (length first.now / 8) ≡ length first.now }
    requires most { length first.now ≤ 32 }
    requires alike { length second.now ≡ length first.now }
    requires first_numbers { Numbers first.now }
    requires second_numbers { Numbers second.now }
    requires room { 2 * length first.now ≤ W }
    ensures { HasFirst (2 * length first.now) (woven first.now second.now) out.new }
{
    let row = &mut out[..];
    weave_row(first, second, row);
}

/// The rows of a block of N columns in pairs, in their first columns. If the rows are few, all
/// behind the first eight are 0, and so are those of `out` before.
#[inline(always)]
pub fn weave<const N: usize, const W: usize, const P: usize, const FEW: bool>(
    block: &[i16],
    order: &[[usize; 2]; P],
    columns: usize,
    out: &mut [[i16; W]; P],
)
    requires whole { length block.now ≡ N * N }
    requires n_most { N ≤ 32 }
    requires pairs { 2 * P ≡ N }
    requires eights { 8 * (columns / 8) ≡ columns }
    requires columns { columns ≤ N }
    requires wide { 2 * N ≤ W }
    requires w_most { W ≤ 128 }
    requires numbers { Numbers block.now }
    requires order { ArePairs P N order.now }
    requires short { FEW ≡ true → IsShort N block.now }
    requires clear { FEW ≡ true → AreZero out.old }
    ensures { (d : ℕ) → IsOrder d P order.now → HasPairs d N columns block.now out.new }
{
    for p in 0..P {
        let [first, second] = order[p];
        if !FEW || first < 8 {
            weave_into(
                &block[first * N..first * N + columns],
                &block[second * N..second * N + columns],
                &mut out[p],
            );
        }
    }
}

/// Two rows of four numbers that stand behind each other, in turn.
#[inline(always)]
fn halves_in_turn(two: &[i16]) -> [i16; 8]
    requires eight { length two.now ≡ 8 }
    requires numbers { Numbers two.now }
    ensures { (i h : ℕ) → i < 4 → h < 2 → at result (2 * i + h) ≡ at two.now (4 * h + i) }
{
    i16x8::from_slice(two)
        .swizzle([0, 4, 1, 5, 2, 6, 3, 7])
        .to_array()
}

/// The rows of a block of 4 columns in pairs, as they stand.
#[inline(always)]
pub fn pairs_of_4(block: &[i16]) -> [[i16; 8]; 2]
    requires whole { length block.now ≡ 16 }
    requires numbers { Numbers block.now }
    ensures { HasPairs 0 4 4 block.now result }
{
    [halves_in_turn(&block[0..8]), halves_in_turn(&block[8..16])]
}
