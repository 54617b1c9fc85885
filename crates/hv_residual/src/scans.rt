//! The scans of positions (6.5.3 to 6.5.5) as tables. An entry is 8 * row + column.

ghost use Rattle.std.specs.Prelude.{◌≡◌, ◌<◌, ◌≤◌, ◌-◌, ◌*◌, ◌^◌, true, map};
ghost use Rattle.std.specs.List.{list_all};
ghost use Rattle.hv_plan.specs.declared.prediction.Scan.TheVariants.{Diagonal, Horizontal, Vertical};
ghost use Rattle.hv_residual_model.specs.ScanOrder.{scan_order, position_at};
ghost use Rattle.hv_residual_model.specs.ResidualSyntax.{sub_block_at};
ghost use Rattle.hv_residual.specs.Blocks.{block_of, spot_of};
ghost use Rattle.hv_residual.specs.Scans.{place_of, is_place};

use crate::block::{Block, Spot};
use hv_plan::Scan;

/// Each scan of side 1.
static ONLY: [u8; 1] = [0];

/// Up-right diagonal scan (6.5.3) of side 2.
#[rattlefmt::skip]
static DIAGONAL_2: [u8; 4] = [
     0,  8,  1,  9,
];

/// Up-right diagonal scan (6.5.3) of side 4.
#[rattlefmt::skip]
static DIAGONAL_4: [u8; 16] = [
     0,  8,  1, 16,  9,  2, 24, 17,
    10,  3, 25, 18, 11, 26, 19, 27,
];

/// Up-right diagonal scan (6.5.3) of side 8.
#[rattlefmt::skip]
static DIAGONAL_8: [u8; 64] = [
     0,  8,  1, 16,  9,  2, 24, 17,
    10,  3, 32, 25, 18, 11,  4, 40,
    33, 26, 19, 12,  5, 48, 41, 34,
    27, 20, 13,  6, 56, 49, 42, 35,
    28, 21, 14,  7, 57, 50, 43, 36,
    29, 22, 15, 58, 51, 44, 37, 30,
    23, 59, 52, 45, 38, 31, 60, 53,
    46, 39, 61, 54, 47, 62, 55, 63,
];

/// Horizontal scan (6.5.4) of side 2.
#[rattlefmt::skip]
static HORIZONTAL_2: [u8; 4] = [
     0,  1,  8,  9,
];

/// Horizontal scan (6.5.4) of side 4.
#[rattlefmt::skip]
static HORIZONTAL_4: [u8; 16] = [
     0,  1,  2,  3,  8,  9, 10, 11,
    16, 17, 18, 19, 24, 25, 26, 27,
];

/// Horizontal scan (6.5.4) of side 8.
#[rattlefmt::skip]
static HORIZONTAL_8: [u8; 64] = [
     0,  1,  2,  3,  4,  5,  6,  7,
     8,  9, 10, 11, 12, 13, 14, 15,
    16, 17, 18, 19, 20, 21, 22, 23,
    24, 25, 26, 27, 28, 29, 30, 31,
    32, 33, 34, 35, 36, 37, 38, 39,
    40, 41, 42, 43, 44, 45, 46, 47,
    48, 49, 50, 51, 52, 53, 54, 55,
    56, 57, 58, 59, 60, 61, 62, 63,
];

/// Vertical scan (6.5.5) of side 2.
#[rattlefmt::skip]
static VERTICAL_2: [u8; 4] = [
     0,  8,  1,  9,
];

/// Vertical scan (6.5.5) of side 4.
#[rattlefmt::skip]
static VERTICAL_4: [u8; 16] = [
     0,  8, 16, 24,  1,  9, 17, 25,
     2, 10, 18, 26,  3, 11, 19, 27,
];

/// Vertical scan (6.5.5) of side 8.
#[rattlefmt::skip]
static VERTICAL_8: [u8; 64] = [
     0,  8, 16, 24, 32, 40, 48, 56,
     1,  9, 17, 25, 33, 41, 49, 57,
     2, 10, 18, 26, 34, 42, 50, 58,
     3, 11, 19, 27, 35, 43, 51, 59,
     4, 12, 20, 28, 36, 44, 52, 60,
     5, 13, 21, 29, 37, 45, 53, 61,
     6, 14, 22, 30, 38, 46, 54, 62,
     7, 15, 23, 31, 39, 47, 55, 63,
];

/// The up-right diagonal scan (6.5.3) of a side of 2^log2.
#[inline(always)]
fn diagonal(log2: u8) -> &'static [u8]
    requires { log2 ≤ 3 }
    ensures order { scan_order Diagonal log2 ≡ map place_of result.now }
    ensures inside { list_all (is_place log2) result.now ≡ true }
{
    if log2 == 0 {
        return &ONLY;
    }
    if log2 == 1 {
        return &DIAGONAL_2;
    }
    if log2 == 2 {
        return &DIAGONAL_4;
    }
    &DIAGONAL_8
}

/// The horizontal scan (6.5.4) of a side of 2^log2.
#[inline(always)]
fn horizontal(log2: u8) -> &'static [u8]
    requires { log2 ≤ 3 }
    ensures order { scan_order Horizontal log2 ≡ map place_of result.now }
    ensures inside { list_all (is_place log2) result.now ≡ true }
{
    if log2 == 0 {
        return &ONLY;
    }
    if log2 == 1 {
        return &HORIZONTAL_2;
    }
    if log2 == 2 {
        return &HORIZONTAL_4;
    }
    &HORIZONTAL_8
}

/// The vertical scan (6.5.5) of a side of 2^log2.
#[inline(always)]
fn vertical(log2: u8) -> &'static [u8]
    requires { log2 ≤ 3 }
    ensures order { scan_order Vertical log2 ≡ map place_of result.now }
    ensures inside { list_all (is_place log2) result.now ≡ true }
{
    if log2 == 0 {
        return &ONLY;
    }
    if log2 == 1 {
        return &VERTICAL_2;
    }
    if log2 == 2 {
        return &VERTICAL_4;
    }
    &VERTICAL_8
}

/// The scan of a block of side 2^log2 (6.5.3 to 6.5.5).
#[inline(always)]
pub fn order(scan: Scan, log2: u8) -> &'static [u8]
    requires { log2 ≤ 3 }
    ensures order { scan_order scan log2 ≡ map place_of result.now }
    ensures inside { list_all (is_place log2) result.now ≡ true }
{
    match scan {
        Scan::Diagonal => diagonal(log2),
        Scan::Horizontal => horizontal(log2),
        Scan::Vertical => vertical(log2),
    }
}

/// The place of the position of this number in a scan.
#[inline(always)]
pub fn place_in(scan: Scan, log2: u8, number: u8) -> Spot
    requires log2 { log2 ≤ 3 }
    requires number { number < 2 ^ log2 * 2 ^ log2 }
    ensures spot { spot_of result ≡ position_at scan log2 number }
    ensures column { result.x < 2 ^ log2 }
    ensures row { result.y < 2 ^ log2 }
{
    let place = order(scan, log2)[usize::from(number)];
    Spot {
        x: place % 8,
        y: place / 8,
    }
}

/// How many sub-blocks a block has.
#[inline(always)]
pub fn sub_blocks(block: Block) -> u8
    ensures value { result ≡ 2 ^ (block.log2 - 2) * 2 ^ (block.log2 - 2) }
    ensures most { result ≤ 64 }
{
    match block.log2 {
        2 => 1,
        3 => 4,
        4 => 16,
        _ => 64,
    }
}

/// The sub-block of this number.
#[inline(always)]
pub fn sub_block(block: Block, s: u8) -> Spot
    requires { s < 2 ^ (block.log2 - 2) * 2 ^ (block.log2 - 2) }
    ensures spot { spot_of result ≡ sub_block_at (block_of block) s }
    ensures column { result.x < 2 ^ (block.log2 - 2) }
    ensures row { result.y < 2 ^ (block.log2 - 2) }
{
    place_in(block.scan, block.log2 - 2, s)
}
