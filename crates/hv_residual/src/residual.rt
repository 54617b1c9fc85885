//! A transform block's levels as bins (7.3.8.11), and which scan it has (7.4.9.11).

ghost use Rattle.std.specs.Prelude.{◌≡◌, ◌*◌, ◌^◌, ◌≤◌, ◌&&◌, ◌||◌, length, nat_eq, true};
ghost use Rattle.hv_residual_model.specs.UnitBins.{PutsUnit};
ghost use Rattle.hv_residual_model.specs.ScanOrder.{scan_of_mode, scanIdx_of};
ghost use Rattle.hv_residual_model.specs.ResidualBins.{residual_bins};
ghost use Rattle.hv_plan.specs.Levels.{any_significant};

use crate::block::Block;
use crate::gathering::find_last;
use crate::last::put_last;
use crate::sub_blocks::{put_last_sub_block, put_sub_blocks};
use hv_plan::{Pred, Scan};
use hv_tables::BinSink;

/// The scan of blocks whose scan depends on the intra prediction mode (7.4.9.11).
#[inline(always)]
fn scan_of_mode(mode: u8) -> Scan
    ensures { result ≡ scan_of_mode mode }
{
    if 6 <= mode && mode <= 14 {
        return Scan::Vertical;
    }
    if 22 <= mode && mode <= 30 {
        return Scan::Horizontal;
    }
    Scan::Diagonal
}

/// Whether the scan of a block depends on the intra prediction mode (7.4.9.11).
#[inline(always)]
fn depends_on_mode(log2: u8, luma: bool) -> bool
    ensures { result ≡ (nat_eq log2 2 || (nat_eq log2 3 && luma)) }
{
    log2 == 2 || (log2 == 3 && luma)
}

/// The scan of a transform block of side 2^log2 in a coding unit predicted so, in luma or chroma
/// (`scanIdx`, 7.4.9.11): in intra units, for 4x4 blocks and 8x8 blocks of luma, vertical for modes
/// 6 to 14 and horizontal for modes 22 to 30; else diagonal. The mode of chroma is that of luma.
pub fn scan_of(pred: Pred, log2: u8, luma: bool) -> Scan
    ensures { result ≡ scanIdx_of pred log2 luma }
{
    match pred {
        Pred::Intra { mode } => {
            if depends_on_mode(log2, luma) {
                return scan_of_mode(mode);
            }
            Scan::Diagonal
        }
        Pred::Inter { .. } => Scan::Diagonal,
    }
}

/// Puts the levels of a transform block (`residual_coding`, 7.3.8.11): of side 2^log2, 4 to 32, by
/// rows, each from left to right, and one of them not 0. It takes no memory.
pub fn put_residual<B: BinSink>(sink: &mut B, levels: &[i16], scan: Scan, log2: u8, luma: bool)
    requires least { 2 ≤ log2 }
    requires most { log2 ≤ 5 }
    requires whole { length levels.now ≡ 2 ^ log2 * 2 ^ log2 }
    requires some { any_significant levels.now ≡ true }
    ensures { PutsUnit B.stands_for sink.old sink.new
        (residual_bins record { scanIdx = scan; log2TrafoSize = log2; is_luma = luma } levels.now) }
{
    let block = Block { scan, log2, luma };
    let last = find_last(levels, block);
    put_last(sink, block, last);
    let mut coded = put_last_sub_block(sink, levels, block, last);
    put_sub_blocks(sink, levels, block, last.sub_block, &mut coded);
}
