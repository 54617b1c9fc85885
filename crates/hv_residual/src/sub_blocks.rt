//! The sub-blocks of a transform block, from the last one down (7.3.8.11).

ghost use Rattle.std.specs.Prelude.{◌≡◌, ◌+◌, ◌-◌, ◌*◌, ◌^◌, ◌<◌, ◌≤◌, ◌++◌, length, true, nat_eq, nat_lt, if◌then◌else◌};
ghost use Rattle.hv_residual_model.specs.UnitBins.{PutsUnit};
ghost use Rattle.hv_residual_model.specs.ResidualSyntax.{Earlier, nothing_earlier, had_greater1_after, positions};
ghost use Rattle.hv_residual_model.specs.ResidualBins.{level_bins, greater1_of, levels_below, coded_sub_block_value, coded_sub_block_bins, sub_block_bins, behind_levels, sub_blocks_bins, last_sub_block_bins};
ghost use Rattle.hv_residual.specs.Blocks.{block_of, spot_of};
ghost use Rattle.hv_residual.specs.Earlier.{Shows, coded_flag_bins, flag_value, coded_bins, had_behind};

use crate::block::{Block, Spot};
use crate::coded::Coded;
use crate::contexts::coded_sub_block_context;
use crate::flags::{ctx_set, first_above_1, put_greater1, put_greater2, put_signs};
use crate::gathering::{Last, gather};
use crate::remaining::put_all_remaining;
use crate::scans::sub_block;
use crate::significance::{any_significant, nonzero_levels, put_significance};
use hv_tables::BinSink;

/// Whether a greater1 flag was 1 in the last sub-block that had such flags: so many levels that
/// aren't 0, of which the first above 1 of the first eight is `first`, come behind `had`.
#[inline(always)]
fn had_after(had: bool, count: usize, first: u16) -> bool
    ensures { result ≡ (if nat_eq count 0 then had else nat_lt 1 first) }
{
    if count == 0 { had } else { first > 1 }
}

/// Puts what follows the significance of these levels, and says whether a greater1 flag was 1 in
/// the last sub-block that had such flags.
#[inline(always)]
fn put_levels<B: BinSink>(sink: &mut B, block: Block, set: u8, had: bool, levels: &[i16]) -> bool
    requires set { set ≤ 3 }
    requires few { length levels.now ≤ 16 }
    ensures puts { PutsUnit B.stands_for sink.old sink.new
        (level_bins (block_of block) set levels.now) }
    ensures had { result ≡ had_greater1_after had (greater1_of levels.now) }
{
    let mut all = [0; 16];
    let mut negative = [false; 16];
    let count = nonzero_levels(levels, &mut all, &mut negative);
    let magnitudes = &all[..count];
    let first = first_above_1(magnitudes);
    put_greater1(sink, block, set, magnitudes);
    put_greater2(sink, block, set, magnitudes, first);
    put_signs(sink, &negative[..count]);
    put_all_remaining(sink, magnitudes, first > 2);
    had_after(had, count, first)
}

/// Puts what follows a coded_sub_block_flag that is 1, or inferred to be 1, from those of the
/// sub-blocks at the right and below, and says whether a greater1 flag was 1 in the last sub-block
/// that had such flags.
#[inline(always)]
fn put_coded<B: BinSink>(
    sink: &mut B,
    block: Block,
    s: u8,
    corner: Spot,
    right: bool,
    below: bool,
    had: bool,
    levels: &[i16],
) -> bool
    requires { length levels.now ≤ 16 }
    ensures puts { PutsUnit B.stands_for sink.old sink.new (coded_bins (block_of block) s
        (spot_of corner) right below had true levels.now) }
    ensures had { result ≡ had_greater1_after had (greater1_of levels.now) }
{
    put_significance(sink, block, corner, right, below, levels, s > 0);
    put_levels(sink, block, ctx_set(block, s, had), had, levels)
}

/// The same by the value of coded_sub_block_flag.
#[inline(always)]
fn put_if_coded<B: BinSink>(
    sink: &mut B,
    block: Block,
    s: u8,
    corner: Spot,
    right: bool,
    below: bool,
    had: bool,
    levels: &[i16],
    flag: bool,
) -> bool
    requires { length levels.now ≤ 16 }
    ensures puts { PutsUnit B.stands_for sink.old sink.new (coded_bins (block_of block) s
        (spot_of corner) right below had flag levels.now) }
    ensures had { result ≡ had_behind flag had levels.now }
{
    if flag {
        return put_coded(sink, block, s, corner, right, below, had, levels);
    }
    had
}

/// Puts coded_sub_block_flag, which sub-block 0 doesn't have.
#[inline(always)]
fn put_coded_flag<B: BinSink>(
    sink: &mut B,
    block: Block,
    s: u8,
    right: bool,
    below: bool,
    flag: bool,
)
    ensures { PutsUnit B.stands_for sink.old sink.new
        (coded_flag_bins (block_of block) s right below flag) }
{
    if s == 0 {
        return;
    }
    sink.bin(coded_sub_block_context(block, right, below), flag);
}

/// The value of coded_sub_block_flag, which is inferred to be 1 for sub-block 0.
#[inline(always)]
pub fn flag_value(s: u8, any: bool) -> bool
    ensures { result ≡ flag_value s any }
{
    if s == 0 {
        return true;
    }
    any
}

/// Puts a sub-block before the last one.
#[inline(always)]
fn put_sub_block<B: BinSink>(sink: &mut B, levels: &[i16], block: Block, s: u8, coded: &mut Coded)
    requires whole { length levels.now ≡ 2 ^ block.log2 * 2 ^ block.log2 }
    requires number { s < 2 ^ (block.log2 - 2) * 2 ^ (block.log2 - 2) }
    ensures { (e : Earlier) → Shows coded.old e →
        (let these = levels_below (block_of block) levels.now s positions in
        let flag = coded_sub_block_value s these in
        PutsUnit B.stands_for sink.old sink.new
        (coded_sub_block_bins (block_of block) s e these ++
        sub_block_bins (block_of block) s e flag these) ×
        Shows coded.new (behind_levels (block_of block) s e flag these)) }
{
    let these = gather(levels, block, s);
    let corner = sub_block(block, s);
    let right = coded.flag(corner.x + 1, corner.y);
    let below = coded.flag(corner.x, corner.y + 1);
    let any = any_significant(&these);
    put_coded_flag(sink, block, s, right, below, any);
    let flag = flag_value(s, any);
    let had = coded.had_greater1;
    let now = put_if_coded(sink, block, s, corner, right, below, had, &these, flag);
    coded.set(corner, flag, now);
}

/// Puts the sub-blocks below this number.
#[inline(always)]
pub fn put_sub_blocks<B: BinSink>(
    sink: &mut B,
    levels: &[i16],
    block: Block,
    number: u8,
    coded: &mut Coded,
)
    requires whole { length levels.now ≡ 2 ^ block.log2 * 2 ^ block.log2 }
    requires number { number ≤ 2 ^ (block.log2 - 2) * 2 ^ (block.log2 - 2) }
    ensures { (e : Earlier) → Shows coded.old e → PutsUnit B.stands_for sink.old sink.new
        (sub_blocks_bins (block_of block) levels.now number e) }
{
    let mut s = number;
    while s > 0 {
        s -= 1;
        put_sub_block(sink, levels, block, s, coded);
    }
}

/// Puts the sub-block of the last level that isn't 0, and says what is kept of it.
#[inline(always)]
pub fn put_last_sub_block<B: BinSink>(
    sink: &mut B,
    levels: &[i16],
    block: Block,
    last: Last,
) -> Coded
    requires whole { length levels.now ≡ 2 ^ block.log2 * 2 ^ block.log2 }
    requires number { last.sub_block < 2 ^ (block.log2 - 2) * 2 ^ (block.log2 - 2) }
    ensures puts { PutsUnit B.stands_for sink.old sink.new (last_sub_block_bins (block_of block)
        last.sub_block
        (levels_below (block_of block) levels.now last.sub_block (last.position + 1))) }
    ensures shows { Shows result (behind_levels (block_of block) last.sub_block nothing_earlier true
        (levels_below (block_of block) levels.now last.sub_block (last.position + 1))) }
{
    let s = last.sub_block;
    let these = gather(levels, block, s);
    let corner = sub_block(block, s);
    let from = 15 - usize::from(last.position);
    put_significance(sink, block, corner, false, false, &these[from + 1..], false);
    let had = put_levels(sink, block, ctx_set(block, s, false), false, &these[from..]);
    let mut coded = Coded::nothing();
    coded.set(corner, true, had);
    coded
}
