//! The contexts of coded_sub_block_flag and sig_coeff_flag (9.3.4.2.4, 9.3.4.2.5).

ghost use Rattle.std.specs.Prelude.{◌≡◌, ◌<◌, ◌≤◌, cond, map, true, false};
ghost use Rattle.std.specs.List.{list_all};
ghost use Rattle.hv_residual_model.specs.UnitBins.{ByContext};
ghost use Rattle.hv_residual_model.specs.ScanOrder.{scan_order, position_at};
ghost use Rattle.hv_residual_model.specs.ResidualContexts.{coded_sub_block_at, by_neighbours, sigCtx, is_diagonal, added_in_luma, added_in_chroma};
ghost use Rattle.hv_residual.specs.Blocks.{block_of, spot_of};
ghost use Rattle.hv_residual.specs.Levels.{sig_question};
ghost use Rattle.hv_residual.specs.ContextTables.{of_map, is_below};

use crate::block::{Block, Spot};
use hv_plan::Scan;
use hv_tables::{Ctx, CtxTable};

/// ctxIdxMap (9.3.4.2.5) of a block of 4x4, along each scan; 0 at the last position, whose flag is
/// never coded.
#[rattlefmt::skip]
static OF_SIDE_4: [[u8; 16]; 3] = [
    /* diagonal   */ [0, 2, 1, 6, 3, 4, 7, 6, 4, 5, 7, 8, 5, 8, 8, 0],
    /* horizontal */ [0, 1, 4, 5, 2, 3, 4, 5, 6, 6, 8, 8, 7, 7, 8, 0],
    /* vertical   */ [0, 2, 6, 7, 1, 3, 6, 7, 4, 4, 8, 8, 5, 5, 8, 0],
];

/// sigCtx (9.3.4.2.5) in greater blocks, before something is added, along each scan: where the
/// flags of the sub-blocks at the right and below are 0.
#[rattlefmt::skip]
static OF_NEITHER: [[u8; 16]; 3] = [
    /* diagonal   */ [2, 1, 1, 1, 1, 1, 0, 0, 0, 0, 0, 0, 0, 0, 0, 0],
    /* horizontal */ [2, 1, 1, 0, 1, 1, 0, 0, 1, 0, 0, 0, 0, 0, 0, 0],
    /* vertical   */ [2, 1, 1, 0, 1, 1, 0, 0, 1, 0, 0, 0, 0, 0, 0, 0],
];

/// The same where that at the right alone is 1.
#[rattlefmt::skip]
static OF_RIGHT: [[u8; 16]; 3] = [
    /* diagonal   */ [2, 1, 2, 0, 1, 2, 0, 0, 1, 2, 0, 0, 1, 0, 0, 0],
    /* horizontal */ [2, 2, 2, 2, 1, 1, 1, 1, 0, 0, 0, 0, 0, 0, 0, 0],
    /* vertical   */ [2, 1, 0, 0, 2, 1, 0, 0, 2, 1, 0, 0, 2, 1, 0, 0],
];

/// The same where that below alone is 1.
#[rattlefmt::skip]
static OF_BELOW: [[u8; 16]; 3] = [
    /* diagonal   */ [2, 2, 1, 2, 1, 0, 2, 1, 0, 0, 1, 0, 0, 0, 0, 0],
    /* horizontal */ [2, 1, 0, 0, 2, 1, 0, 0, 2, 1, 0, 0, 2, 1, 0, 0],
    /* vertical   */ [2, 2, 2, 2, 1, 1, 1, 1, 0, 0, 0, 0, 0, 0, 0, 0],
];

/// The same where both are 1.
static OF_BOTH: [u8; 16] = [2, 2, 2, 2, 2, 2, 2, 2, 2, 2, 2, 2, 2, 2, 2, 2];

/// ctxIdxMap of a block of 4x4 along a scan (9.3.4.2.5).
#[inline(always)]
fn of_side_4(scan: Scan) -> &'static [u8; 16]
    ensures value { result.now ≡ map of_map (scan_order scan 2) }
    ensures most { list_all (is_below 9) result.now ≡ true }
{
    match scan {
        Scan::Diagonal => &OF_SIDE_4[0],
        Scan::Horizontal => &OF_SIDE_4[1],
        Scan::Vertical => &OF_SIDE_4[2],
    }
}

/// sigCtx before something is added, along a scan, where neither neighbour has a flag of 1.
#[inline(always)]
fn of_neither(scan: Scan) -> &'static [u8; 16]
    ensures value { result.now ≡ map (by_neighbours false false) (scan_order scan 2) }
    ensures most { list_all (is_below 3) result.now ≡ true }
{
    match scan {
        Scan::Diagonal => &OF_NEITHER[0],
        Scan::Horizontal => &OF_NEITHER[1],
        Scan::Vertical => &OF_NEITHER[2],
    }
}

/// The same where the sub-block at the right alone has it.
#[inline(always)]
fn of_right(scan: Scan) -> &'static [u8; 16]
    ensures value { result.now ≡ map (by_neighbours true false) (scan_order scan 2) }
    ensures most { list_all (is_below 3) result.now ≡ true }
{
    match scan {
        Scan::Diagonal => &OF_RIGHT[0],
        Scan::Horizontal => &OF_RIGHT[1],
        Scan::Vertical => &OF_RIGHT[2],
    }
}

/// The same where the sub-block below alone has it.
#[inline(always)]
fn of_below(scan: Scan) -> &'static [u8; 16]
    ensures value { result.now ≡ map (by_neighbours false true) (scan_order scan 2) }
    ensures most { list_all (is_below 3) result.now ≡ true }
{
    match scan {
        Scan::Diagonal => &OF_BELOW[0],
        Scan::Horizontal => &OF_BELOW[1],
        Scan::Vertical => &OF_BELOW[2],
    }
}

/// The same where both have it.
#[inline(always)]
fn of_both(scan: Scan) -> &'static [u8; 16]
    ensures value { result.now ≡ map (by_neighbours true true) (scan_order scan 2) }
    ensures most { list_all (is_below 3) result.now ≡ true }
{
    match scan {
        Scan::Diagonal => &OF_BOTH,
        Scan::Horizontal => &OF_BOTH,
        Scan::Vertical => &OF_BOTH,
    }
}

/// sigCtx before something is added, along a scan, by the flags of the sub-blocks at the right and
/// below.
#[inline(always)]
fn of_neighbours(scan: Scan, right: bool, below: bool) -> &'static [u8; 16]
    ensures value { result.now ≡ map (by_neighbours right below) (scan_order scan 2) }
    ensures most { list_all (is_below 3) result.now ≡ true }
{
    match (right, below) {
        (false, false) => of_neither(scan),
        (true, false) => of_right(scan),
        (false, true) => of_below(scan),
        (true, true) => of_both(scan),
    }
}

/// Whether a scan is the up-right diagonal one.
#[inline(always)]
fn is_diagonal(scan: Scan) -> bool
    ensures { result ≡ is_diagonal scan }
{
    match scan {
        Scan::Diagonal => true,
        Scan::Horizontal => false,
        Scan::Vertical => false,
    }
}

/// What is added to sigCtx in luma (9.3.4.2.5).
#[inline(always)]
fn luma_addend(block: Block, corner: Spot) -> u8
    ensures value { result ≡ added_in_luma (block_of block) (spot_of corner) }
    ensures most { result ≤ 24 }
{
    let place = if corner.x + corner.y > 0 { 3 } else { 0 };
    let greatest = if is_diagonal(block.scan) { 9 } else { 15 };
    let side = if block.log2 == 3 { greatest } else { 21 };
    place + side
}

/// What is added to sigCtx in chroma (9.3.4.2.5).
#[inline(always)]
fn chroma_addend(block: Block) -> u8
    ensures value { result ≡ added_in_chroma (block_of block) }
    ensures most { result ≤ 12 }
{
    if block.log2 == 3 { 9 } else { 12 }
}

/// What is added to sigCtx (9.3.4.2.5).
#[inline(always)]
fn addend(block: Block, corner: Spot) -> u8
    ensures value { result ≡ cond block.luma
        (added_in_luma (block_of block) (spot_of corner)) (added_in_chroma (block_of block)) }
    ensures most { result ≤ 24 }
{
    if block.luma {
        luma_addend(block, corner)
    } else {
        chroma_addend(block)
    }
}

/// sigCtx (9.3.4.2.5) at the position of this number.
#[inline(always)]
fn sig_ctx(block: Block, corner: Spot, right: bool, below: bool, i: u8) -> u8
    requires { i < 16 }
    ensures value { result ≡ sigCtx (block_of block) right below (spot_of corner)
        (position_at block.scan 2 i) }
    ensures most { result ≤ 26 }
{
    if block.log2 == 2 {
        return of_side_4(block.scan)[usize::from(i)];
    }
    if corner.x + corner.y + i == 0 {
        return 0;
    }
    of_neighbours(block.scan, right, below)[usize::from(i)] + addend(block, corner)
}

/// The context of sig_coeff_flag at the position of this number (9.3.4.2.5).
#[inline(always)]
pub fn sig_context(block: Block, corner: Spot, right: bool, below: bool, i: u8) -> Ctx
    requires { i < 16 }
    ensures { ByContext result ≡ sig_question (block_of block) right below (spot_of corner) i }
{
    let component = if block.luma { 0 } else { 27 };
    Ctx {
        table: CtxTable::Sig,
        index: component + sig_ctx(block, corner, right, below, i),
    }
}

/// The context of coded_sub_block_flag (9.3.4.2.4).
#[inline(always)]
pub fn coded_sub_block_context(block: Block, right: bool, below: bool) -> Ctx
    ensures { ByContext result ≡ coded_sub_block_at (block_of block) right below }
{
    let neighbours = if right || below { 1 } else { 0 };
    let component = if block.luma { 0 } else { 2 };
    Ctx {
        table: CtxTable::CodedSub,
        index: neighbours + component,
    }
}
