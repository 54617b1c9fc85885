//! The levels of a sub-block in the order in which they are coded, and the last one of a block that
//! isn't 0 (7.3.8.11).

ghost use Rattle.std.specs.Prelude.{◌≡◌, ◌+◌, ◌-◌, ◌*◌, ◌^◌, ◌<◌, ◌≤◌, ℕ, true, length, pos, slice_index_or};
ghost use Rattle.hv_residual_model.specs.ScanOrder.{position_at};
ghost use Rattle.hv_residual_model.specs.ResidualBins.{levels_below, last_significant};
ghost use Rattle.hv_residual.specs.Blocks.{block_of};
ghost use Rattle.hv_residual.specs.Levels.{zeros_before, with_gaps};

use crate::binarization::power;
use crate::block::{Block, Spot};
use crate::scans::{place_in, sub_block, sub_blocks};
use crate::significance::is_significant;

/// The side of a block.
#[inline(always)]
fn side(block: Block) -> usize
    ensures value { result ≡ 2 ^ block.log2 }
    ensures most { result ≤ 32 }
{
    power(block.log2) as usize
}

/// Four levels of a row.
#[inline(always)]
fn four_of(levels: &[i16], at: usize) -> [i16; 4]
    requires { at + 4 ≤ length levels.now }
    ensures { (x : ℕ) → x < 4 →
        slice_index_or result x (pos 0) ≡ slice_index_or levels.now (at + x) (pos 0) }
{
    [levels[at], levels[at + 1], levels[at + 2], levels[at + 3]]
}

/// A row of a sub-block.
#[inline(always)]
fn row_of(levels: &[i16], block: Block, corner: Spot, y: u8) -> [i16; 4]
    requires whole { length levels.now ≡ 2 ^ block.log2 * 2 ^ block.log2 }
    requires column { corner.x < 2 ^ (block.log2 - 2) }
    requires row { corner.y < 2 ^ (block.log2 - 2) }
    requires y { y < 4 }
    ensures { (x : ℕ) → x < 4 → slice_index_or result x (pos 0) ≡ slice_index_or levels.now
        ((4 * corner.y + y) * 2 ^ block.log2 + (4 * corner.x + x)) (pos 0) }
{
    let row = usize::from(4 * corner.y + y);
    four_of(levels, row * side(block) + usize::from(4 * corner.x))
}

/// Four rows of four, each eight entries behind the one before.
#[inline(always)]
fn with_gaps(first: [i16; 4], second: [i16; 4], third: [i16; 4], fourth: [i16; 4]) -> [i16; 28]
    ensures { result ≡ with_gaps first second third fourth }
{
    let [a, b, c, d] = first;
    let [e, f, g, h] = second;
    let [i, j, k, l] = third;
    let [m, n, o, p] = fourth;
    [
        a, b, c, d, 0, 0, 0, 0, e, f, g, h, 0, 0, 0, 0, i, j, k, l, 0, 0, 0, 0, m, n, o, p,
    ]
}

/// A sub-block by rows, each eight entries behind the one before: so the entry of a scan is the
/// place of the level.
#[inline(always)]
fn by_rows(levels: &[i16], block: Block, corner: Spot) -> [i16; 28]
    requires whole { length levels.now ≡ 2 ^ block.log2 * 2 ^ block.log2 }
    requires column { corner.x < 2 ^ (block.log2 - 2) }
    requires row { corner.y < 2 ^ (block.log2 - 2) }
    ensures { (x y : ℕ) → x < 4 → y < 4 → slice_index_or result (8 * y + x) (pos 0) ≡
        slice_index_or levels.now
        ((4 * corner.y + y) * 2 ^ block.log2 + (4 * corner.x + x)) (pos 0) }
{
    with_gaps(
        row_of(levels, block, corner, 0),
        row_of(levels, block, corner, 1),
        row_of(levels, block, corner, 2),
        row_of(levels, block, corner, 3),
    )
}

/// The level at the position of this number in a sub-block by rows.
#[inline(always)]
fn level_in(rows: &[i16; 28], block: Block, i: u8) -> i16
    requires number { i < 16 }
    ensures { let P = position_at block.scan 2 i in
        result ≡ slice_index_or rows.now (8 * P.y + P.x) (pos 0) }
{
    let place = place_in(block.scan, 2, i);
    rows[usize::from(8 * place.y + place.x)]
}

/// Whether four levels of a row are 0.
#[inline(always)]
fn are_zero(levels: &[i16], at: usize) -> bool
    requires { at + 4 ≤ length levels.now }
    ensures { result ≡ true → (x : ℕ) → x < 4 →
        slice_index_or levels.now (at + x) (pos 0) ≡ pos 0 }
{
    let first = (levels[at] == 0) & (levels[at + 1] == 0);
    let second = (levels[at + 2] == 0) & (levels[at + 3] == 0);
    first & second
}

/// Whether a row of a sub-block is 0.
#[inline(always)]
fn is_clear_row(levels: &[i16], block: Block, corner: Spot, y: u8) -> bool
    requires whole { length levels.now ≡ 2 ^ block.log2 * 2 ^ block.log2 }
    requires column { corner.x < 2 ^ (block.log2 - 2) }
    requires row { corner.y < 2 ^ (block.log2 - 2) }
    requires y { y < 4 }
    ensures { result ≡ true → (x : ℕ) → x < 4 → slice_index_or levels.now
        ((4 * corner.y + y) * 2 ^ block.log2 + (4 * corner.x + x)) (pos 0) ≡ pos 0 }
{
    let row = usize::from(4 * corner.y + y);
    are_zero(levels, row * side(block) + usize::from(4 * corner.x))
}

/// Whether a sub-block is 0, row by row.
#[inline(always)]
fn is_clear(levels: &[i16], block: Block, corner: Spot) -> bool
    requires whole { length levels.now ≡ 2 ^ block.log2 * 2 ^ block.log2 }
    requires column { corner.x < 2 ^ (block.log2 - 2) }
    requires row { corner.y < 2 ^ (block.log2 - 2) }
    ensures { result ≡ true → (x y : ℕ) → x < 4 → y < 4 → slice_index_or levels.now
        ((4 * corner.y + y) * 2 ^ block.log2 + (4 * corner.x + x)) (pos 0) ≡ pos 0 }
{
    let upper = is_clear_row(levels, block, corner, 0) & is_clear_row(levels, block, corner, 1);
    let lower = is_clear_row(levels, block, corner, 2) & is_clear_row(levels, block, corner, 3);
    upper & lower
}

/// The levels of a sub-block, from position 15 down to position 0.
#[inline(always)]
pub fn gather(levels: &[i16], block: Block, s: u8) -> [i16; 16]
    requires whole { length levels.now ≡ 2 ^ block.log2 * 2 ^ block.log2 }
    requires number { s < 2 ^ (block.log2 - 2) * 2 ^ (block.log2 - 2) }
    ensures { result ≡ levels_below (block_of block) levels.now s 16 }
{
    let corner = sub_block(block, s);
    if is_clear(levels, block, corner) {
        return [0; 16];
    }
    let rows = by_rows(levels, block, corner);
    let mut all = [0i16; 16];
    for k in 0..16u8 {
        all[usize::from(k)] = level_in(&rows, block, 15 - k);
    }
    all
}

/// How many levels that are 0 stand before the first other.
#[inline(always)]
pub fn zeros_before(levels: &[i16]) -> usize
    ensures value { result ≡ zeros_before levels.now }
    ensures most { result ≤ length levels.now }
{
    let mut zeros = 0usize;
    for level in levels {
        if is_significant(*level) {
            return zeros;
        }
        zeros += 1;
    }
    zeros
}

/// The last level of a block that isn't 0: the number of its sub-block, and of its position there.
#[derive(Clone, Copy)]
pub struct Last {
    pub sub_block: u8,
    pub position: u8,
    pub ghost inside: { position < 16 },
}

/// The last level that isn't 0, in the order of the scan.
#[inline(always)]
pub fn find_last(levels: &[i16], block: Block) -> Last
    requires { length levels.now ≡ 2 ^ block.log2 * 2 ^ block.log2 }
    ensures value { last_significant (block_of block) levels.now ≡
        16 * result.sub_block + result.position }
    ensures inside { result.sub_block < 2 ^ (block.log2 - 2) * 2 ^ (block.log2 - 2) }
{
    let mut s = sub_blocks(block);
    while s > 0 {
        s -= 1;
        let zeros = zeros_before(&gather(levels, block, s));
        if zeros < 16 {
            return Last {
                sub_block: s,
                position: 15 - zeros as u8,
            };
        }
    }
    Last {
        sub_block: 0,
        position: 0,
    }
}
