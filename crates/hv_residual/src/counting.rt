//! How many bins the levels of a transform block have (7.3.8.11). No bin is visited: the lengths of
//! binarizations (9.3.3) are added.

ghost use Rattle.std.specs.Prelude.{◌≡◌, ◌+◌, ◌-◌, ◌*◌, ◌^◌, ◌<◌, ◌≤◌, ◌&&◌, length, min, nat_le, true, ℕ};
ghost use Rattle.hv_residual_model.specs.UnitBins.{UnitQuestion};
ghost use Rattle.hv_residual_model.specs.Binarization.{exp_golomb_bins, remaining_bins, truncated_unary_bins};
ghost use Rattle.hv_residual_model.specs.ResidualSyntax.{bases, positions, suffix_length};
ghost use Rattle.hv_residual_model.specs.ResidualBins.{residual_bins, all_remaining_bins, greater1_values, levels_below, last_bins, prefix_of};
ghost use Rattle.hv_plan.specs.Levels.{any_significant};
ghost use Rattle.hv_residual.specs.Blocks.{block_of};
ghost use Rattle.hv_residual.specs.Levels.{one_remaining_bins, zeros_before};
ghost use Rattle.hv_residual.specs.Counts.{sig_count, level_count, coded_count, flag_count, sub_block_count, sub_blocks_count, greatest_magnitude};

use crate::binarization::power;
use crate::block::Block;
use crate::flags::first_above_1;
use crate::gathering::{Last, find_last, gather, zeros_before};
use crate::last::{coded_position, prefix_of, suffix_length};
use crate::remaining::{Base, base_of, rice_behind, still_first};
use crate::significance::{any_significant, is_significant, nonzero_levels};
use crate::sub_blocks::flag_value;
use hv_plan::Scan;

/// The length of a number in Exp-Golomb of order `k` (9.3.3.5).
#[inline(always)]
pub fn count_exp_golomb(k: u8, value: u32) -> u32
    requires order { k ≤ 8 }
    requires most { value < 524288 }
    ensures value { result ≡ length (exp_golomb_bins 32 k value) }
    ensures most { result ≤ 48 }
{
    let top = 31 - (value + power(k)).leading_zeros();
    2 * top + 1 - u32::from(k)
}

/// The length of coeff_abs_level_remaining with cRiceParam `k` (9.3.3.11).
#[inline(always)]
fn count_remaining(k: u8, value: u32) -> u32
    requires order { k ≤ 4 }
    requires most { value < 524288 }
    ensures value { result ≡ length (remaining_bins k value) }
    ensures most { result ≤ 64 }
{
    let prefix = value / power(k);
    if prefix < 4 {
        prefix + 1 + u32::from(k)
    } else {
        4 + count_exp_golomb(k + 1, value - 4 * power(k))
    }
}

/// The length of what is left of a level of this magnitude above its base.
#[inline(always)]
fn count_above_base(rice: u8, magnitude: u16, base: Base) -> u32
    requires { rice ≤ 4 }
    ensures value { result ≡
        length (one_remaining_bins base.has_remaining rice (magnitude - base.base_level)) }
    ensures most { result ≤ 64 }
{
    if base.has_remaining {
        return count_remaining(rice, u32::from(magnitude.saturating_sub(base.base_level)));
    }
    0
}

/// The length of what is left of the magnitudes of a sub-block above their bases.
#[inline(always)]
fn count_all_remaining(magnitudes: &[u16], greater2: bool) -> u32
    requires { length magnitudes.now ≤ 16 }
    ensures value { result ≡ length (all_remaining_bins
        (bases true greater2 (greater1_values 8 magnitudes.now) (length magnitudes.now))
        magnitudes.now 0) }
    ensures most { result ≤ 1024 }
{
    let mut total = 0u32;
    let mut rice = 0u8;
    let mut left = 8u8;
    let mut first = true;
    for m in magnitudes {
        let flag = *m > 1;
        let base = base_of(left, first, greater2, flag);
        total += count_above_base(rice, *m, base);
        rice = rice_behind(rice, *m, base);
        first = still_first(left, first, flag);
        left = left.saturating_sub(1);
    }
    total
}

/// The greatest magnitude of these levels.
#[inline(always)]
fn greatest_magnitude(levels: &[i16]) -> u16
    ensures { result ≡ greatest_magnitude levels.now }
{
    let mut greatest = 0u16;
    for level in levels {
        greatest = greatest.max(level.unsigned_abs());
    }
    greatest
}

/// How many bins follow the significance of levels of magnitudes up to 3: each that isn't 0 has as
/// many as its magnitude, and its sign, since cRiceParam stays 0.
#[inline(always)]
fn count_small_levels(levels: &[i16]) -> u32
    requires few { length levels.now ≤ 16 }
    requires small { greatest_magnitude levels.now ≤ 3 }
    ensures value { result ≡ level_count levels.now }
    ensures most { result ≤ 1049 }
{
    let mut total = 0u16;
    for level in levels {
        total += level.unsigned_abs() + u16::from(is_significant(*level));
    }
    u32::from(total)
}

/// How many bins follow the significance of levels of any magnitude.
#[inline(always)]
fn count_all_levels(levels: &[i16]) -> u32
    requires { length levels.now ≤ 16 }
    ensures value { result ≡ level_count levels.now }
    ensures most { result ≤ 1049 }
{
    let mut all = [0; 16];
    let mut negative = [false; 16];
    let nonzero = nonzero_levels(levels, &mut all, &mut negative);
    let magnitudes = &all[..nonzero];
    let first = first_above_1(magnitudes);
    let count = nonzero as u32;
    let remaining = count_all_remaining(magnitudes, first > 2);
    count.min(8) + (u32::from(first > 1) + (count + remaining))
}

/// How many bins follow the significance of these levels.
#[inline(always)]
fn count_levels(levels: &[i16]) -> u32
    requires { length levels.now ≤ 16 }
    ensures value { result ≡ level_count levels.now }
    ensures most { result ≤ 1049 }
{
    if greatest_magnitude(levels) <= 3 {
        return count_small_levels(levels);
    }
    count_all_levels(levels)
}

/// Whether sig_coeff_flag of the last of these levels is inferred: it is sure that one of them
/// isn't 0, and no other is it.
#[inline(always)]
fn is_inferred(levels: &[i16], sure: bool) -> bool
    requires { length levels.now ≤ 16 }
    ensures { result ≡ sure && nat_le (length levels.now) (zeros_before levels.now + 1) }
{
    sure && levels.len() <= zeros_before(levels) + 1
}

/// How many sig_coeff_flag these levels have.
#[inline(always)]
fn count_significance(levels: &[i16], sure: bool) -> u32
    requires { length levels.now ≤ 16 }
    ensures value { result ≡ sig_count levels.now sure }
    ensures most { result ≤ 16 }
{
    let all = levels.len() as u32;
    if is_inferred(levels, sure) {
        return all.saturating_sub(1);
    }
    all
}

/// How many bins follow coded_sub_block_flag.
#[inline(always)]
fn count_coded(s: u8, flag: bool, levels: &[i16]) -> u32
    requires { length levels.now ≤ 16 }
    ensures value { result ≡ coded_count s flag levels.now }
    ensures most { result ≤ 1065 }
{
    if flag {
        return count_significance(levels, s > 0) + count_levels(levels);
    }
    0
}

/// How many coded_sub_block_flag a sub-block has.
#[inline(always)]
fn count_flag(s: u8) -> u32
    ensures value { result ≡ flag_count s }
    ensures most { result ≤ 1 }
{
    if s == 0 {
        return 0;
    }
    1
}

/// How many bins a sub-block before the last one has.
#[inline(always)]
fn count_sub_block(levels: &[i16], block: Block, s: u8) -> u32
    requires whole { length levels.now ≡ 2 ^ block.log2 * 2 ^ block.log2 }
    requires number { s < 2 ^ (block.log2 - 2) * 2 ^ (block.log2 - 2) }
    ensures value { result ≡
        sub_block_count s (levels_below (block_of block) levels.now s positions) }
    ensures most { result ≤ 1066 }
{
    let these = gather(levels, block, s);
    let flag = flag_value(s, any_significant(&these));
    count_flag(s) + count_coded(s, flag, &these)
}

/// How many bins the sub-blocks below this number have.
#[inline(always)]
fn count_sub_blocks(levels: &[i16], block: Block, number: u8) -> u32
    requires whole { length levels.now ≡ 2 ^ block.log2 * 2 ^ block.log2 }
    requires number { number ≤ 2 ^ (block.log2 - 2) * 2 ^ (block.log2 - 2) }
    ensures value { result ≡ sub_blocks_count (block_of block) levels.now number }
    ensures most { result ≤ 1066 * number }
{
    let mut total = 0u32;
    let mut s = number;
    while s > 0 {
        s -= 1;
        total += count_sub_block(levels, block, s);
    }
    total
}

/// How many bins the sub-block of the last level that isn't 0 has.
#[inline(always)]
fn count_last_sub_block(levels: &[i16], block: Block, last: Last) -> u32
    requires whole { length levels.now ≡ 2 ^ block.log2 * 2 ^ block.log2 }
    requires number { last.sub_block < 2 ^ (block.log2 - 2) * 2 ^ (block.log2 - 2) }
    ensures value { let these = levels_below (block_of block) levels.now last.sub_block in
        result ≡ last.position + level_count (these (last.position + 1)) }
    ensures most { result ≤ 1065 }
{
    let these = gather(levels, block, last.sub_block);
    let from = 15 - usize::from(last.position);
    u32::from(last.position) + count_levels(&these[from..])
}

/// The length of a prefix of the last position.
#[inline(always)]
fn count_prefix(block: Block, prefix: u8) -> u32
    requires { prefix ≤ 2 * block.log2 - 1 }
    ensures value { (question : ℕ → UnitQuestion) → result ≡
        length (truncated_unary_bins question (2 * block.log2 - 1) 0 prefix) }
    ensures most { result ≤ 9 }
{
    u32::from(prefix + 1).min(u32::from(2 * block.log2 - 1))
}

/// How many bins one coordinate of the last position has.
#[inline(always)]
fn count_coordinate(block: Block, coordinate: u8) -> u32
    requires { coordinate < 2 ^ block.log2 }
    ensures value { (question : ℕ → UnitQuestion) → result ≡
        length (truncated_unary_bins question (2 * block.log2 - 1) 0 (prefix_of coordinate)) +
        suffix_length (prefix_of coordinate) }
    ensures most { result ≤ 12 }
{
    let prefix = prefix_of(block, coordinate);
    count_prefix(block, prefix) + u32::from(suffix_length(prefix))
}

/// How many bins the last significant position has.
#[inline(always)]
fn count_last(block: Block, last: Last) -> u32
    requires { last.sub_block < 2 ^ (block.log2 - 2) * 2 ^ (block.log2 - 2) }
    ensures value { result ≡
        length (last_bins (block_of block) (16 * last.sub_block + last.position)) }
    ensures most { result ≤ 24 }
{
    let position = coded_position(block, last);
    count_coordinate(block, position.x) + count_coordinate(block, position.y)
}

/// How many bins the levels of a transform block have: the length of what `put_residual` puts, for
/// the same block.
pub fn count_residual(levels: &[i16], scan: Scan, log2: u8, luma: bool) -> u32
    requires least { 2 ≤ log2 }
    requires most { log2 ≤ 5 }
    requires whole { length levels.now ≡ 2 ^ log2 * 2 ^ log2 }
    requires some { any_significant levels.now ≡ true }
    ensures { result ≡ length (residual_bins
        record { scanIdx = scan; log2TrafoSize = log2; is_luma = luma } levels.now) }
{
    let block = Block { scan, log2, luma };
    let last = find_last(levels, block);
    let first = count_last(block, last) + count_last_sub_block(levels, block, last);
    first + count_sub_blocks(levels, block, last.sub_block)
}
