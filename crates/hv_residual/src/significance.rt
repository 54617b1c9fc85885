//! sig_coeff_flag of a sub-block, and its levels that aren't 0 (7.3.8.11).
ghost use Rattle.std.specs.Prelude.{◌≡◌, ◌<◌, ◌≤◌, ◌&&◌, not, nat_eq, length, take};
ghost use Rattle.hv_residual_model.specs.UnitBins.{PutsUnit};
ghost use Rattle.hv_residual_model.specs.ResidualBins.{magnitudes, signs, sig_coeff_bins};
ghost use Rattle.hv_plan.specs.Levels.{is_significant, any_significant};
ghost use Rattle.hv_residual.specs.Blocks.{block_of, spot_of};
ghost use Rattle.hv_residual.specs.Levels.{one_sig_bins, sig_question};

use crate::block::{Block, Spot};
use crate::contexts::sig_context;
use hv_tables::BinSink;

/// Whether a level isn't 0.
#[inline(always)]
pub fn is_significant(level: i16) -> bool
    ensures { result ≡ is_significant level }
{
    level != 0
}

/// Whether one of these levels isn't 0, as `put_residual` and `count_residual` ask of a block.
#[inline(always)]
pub fn any_significant(levels: &[i16]) -> bool
    ensures { result ≡ any_significant levels.now }
{
    for level in levels {
        if is_significant(*level) {
            return true;
        }
    }
    false
}

/// Writes the magnitudes and signs of those of these levels that aren't 0 to the first entries, in
/// their order, and says how many they are.
#[inline(always)]
pub fn nonzero_levels(levels: &[i16], all: &mut [u16; 16], negative: &mut [bool; 16]) -> usize
    requires { length levels.now ≤ 16 }
    ensures magnitudes { take result all.new ≡ magnitudes levels.now }
    ensures signs { take result negative.new ≡ signs levels.now }
    ensures count { result ≡ length (magnitudes levels.now) }
    ensures few { result ≤ 16 }
{
    let mut count = 0usize;
    for level in levels {
        all[count] = level.unsigned_abs();
        negative[count] = level.is_negative();
        count += usize::from(is_significant(*level));
    }
    count
}

/// Whether sig_coeff_flag at a position is left out: it is sure to be 1, and the last one.
#[inline(always)]
fn is_left_out(i: u8, sure: bool) -> bool
    ensures { result ≡ sure && nat_eq i 0 }
{
    sure && i == 0
}

/// Puts sig_coeff_flag at a position; not that of position 0 where it is sure.
#[inline(always)]
fn put_flag<B: BinSink>(
    sink: &mut B,
    block: Block,
    corner: Spot,
    right: bool,
    below: bool,
    i: u8,
    sure: bool,
    flag: bool,
)
    requires { i < 16 }
    ensures { PutsUnit B.stands_for sink.old sink.new (one_sig_bins
        (sig_question (block_of block) right below (spot_of corner)) i sure flag) }
{
    let out = is_left_out(i, sure);
    if out {
        return;
    }
    sink.bin(sig_context(block, corner, right, below, i), flag);
}

/// Whether it is sure that one of the levels left isn't 0, behind one of this flag.
#[inline(always)]
fn still_sure(sure: bool, flag: bool) -> bool
    ensures { result ≡ sure && not flag }
{
    sure && !flag
}

/// Puts sig_coeff_flag of these levels, the last of them at position 0; that one only where it
/// isn't sure to be 1.
#[inline(always)]
pub fn put_significance<B: BinSink>(
    sink: &mut B,
    block: Block,
    corner: Spot,
    right: bool,
    below: bool,
    levels: &[i16],
    sure: bool,
)
    requires { length levels.now ≤ 16 }
    ensures { PutsUnit B.stands_for sink.old sink.new (sig_coeff_bins
        (sig_question (block_of block) right below (spot_of corner)) levels.now sure) }
{
    let mut still = sure;
    let mut left = levels.len() as u8;
    for level in levels {
        left -= 1;
        let flag = is_significant(*level);
        put_flag(sink, block, corner, right, below, left, still, flag);
        still = still_sure(still, flag);
    }
}
