//! coeff_abs_level_greater1_flag, coeff_abs_level_greater2_flag and coeff_sign_flag of a sub-block
//! (7.3.8.11, 9.3.4.2.6, 9.3.4.2.7).

ghost use Rattle.std.specs.Prelude.{◌≡◌, ◌+◌, ◌≤◌};
ghost use Rattle.hv_residual_model.specs.UnitBins.{PutsUnit, ByContext};
ghost use Rattle.hv_residual_model.specs.ResidualContexts.{ctxSet, next_greater1Ctx, greater1_at, greater2_at};
ghost use Rattle.hv_residual_model.specs.ResidualBins.{greater1_bins, greater2_bins, first_above_1, sign_bins};
ghost use Rattle.hv_residual.specs.Blocks.{block_of};

use crate::block::Block;
use hv_tables::{BinSink, Ctx, CtxTable};

/// ctxSet of a sub-block of this number, where a greater1 flag was 1 in the last one before it that
/// had such flags, or not (9.3.4.2.6).
#[inline(always)]
pub fn ctx_set(block: Block, s: u8, had_greater1: bool) -> u8
    ensures value { result ≡ ctxSet (block_of block) s had_greater1 }
    ensures most { result ≤ 3 }
{
    let set = if s == 0 || !block.luma { 0 } else { 2 };
    set + u8::from(had_greater1)
}

/// greater1Ctx behind a flag (9.3.4.2.6).
#[inline(always)]
fn next_greater1_ctx(greater1_ctx: u8, flag: bool) -> u8
    requires { greater1_ctx ≤ 200 }
    ensures value { result ≡ next_greater1Ctx greater1_ctx flag }
    ensures most { result ≤ greater1_ctx + 1 }
{
    if flag || greater1_ctx == 0 {
        0
    } else {
        greater1_ctx + 1
    }
}

/// The context of a greater1 flag (9.3.4.2.6).
#[inline(always)]
fn greater1_context(block: Block, set: u8, greater1_ctx: u8) -> Ctx
    requires { set ≤ 3 }
    ensures { ByContext result ≡ greater1_at (block_of block) set greater1_ctx }
{
    let component = if block.luma { 0 } else { 16 };
    Ctx {
        table: CtxTable::Greater1,
        index: 4 * set + greater1_ctx.min(3) + component,
    }
}

/// Puts the greater1 flags of the first eight magnitudes.
#[inline(always)]
pub fn put_greater1<B: BinSink>(sink: &mut B, block: Block, set: u8, magnitudes: &[u16])
    requires { set ≤ 3 }
    ensures { PutsUnit B.stands_for sink.old sink.new
        (greater1_bins (block_of block) set 8 magnitudes.now 1) }
{
    let mut greater1_ctx = 1u8;
    let mut left = 8u8;
    for m in magnitudes {
        if left == 0 {
            break;
        }
        let flag = *m > 1;
        sink.bin(greater1_context(block, set, greater1_ctx), flag);
        greater1_ctx = next_greater1_ctx(greater1_ctx, flag);
        left -= 1;
    }
}

/// The first magnitude above 1 of the first eight, or 0.
#[inline(always)]
pub fn first_above_1(magnitudes: &[u16]) -> u16
    ensures { result ≡ first_above_1 8 magnitudes.now }
{
    let mut left = 8u8;
    for m in magnitudes {
        if left == 0 {
            return 0;
        }
        if *m > 1 {
            return *m;
        }
        left -= 1;
    }
    0
}

/// The context of a greater2 flag (9.3.4.2.7).
#[inline(always)]
fn greater2_context(block: Block, set: u8) -> Ctx
    requires { set ≤ 3 }
    ensures { ByContext result ≡ greater2_at (block_of block) set }
{
    let component = if block.luma { 0 } else { 4 };
    Ctx {
        table: CtxTable::Greater2,
        index: set + component,
    }
}

/// Puts the greater2 flag of the first magnitude above 1 of the first eight, where there is one.
#[inline(always)]
pub fn put_greater2<B: BinSink>(sink: &mut B, block: Block, set: u8, magnitudes: &[u16], first: u16)
    requires set { set ≤ 3 }
    requires first { first ≡ first_above_1 8 magnitudes.now }
    ensures { PutsUnit B.stands_for sink.old sink.new
        (greater2_bins (block_of block) set magnitudes.now) }
{
    if first > 1 {
        sink.bin(greater2_context(block, set), first > 2);
    }
}

/// Puts the sign flags of a sub-block, true where a level is negative.
#[inline(always)]
pub fn put_signs<B: BinSink>(sink: &mut B, signs: &[bool])
    ensures { PutsUnit B.stands_for sink.old sink.new (sign_bins signs.now) }
{
    for sign in signs {
        sink.bypass(*sign);
    }
}
