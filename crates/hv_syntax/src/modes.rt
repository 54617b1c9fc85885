//! The luma mode of intra prediction (8.4.2), and its bins (7.3.8.5).

ghost use Rattle.std.specs.Prelude.{◌≡◌, ◌<◌, ◌∷◌, [], true};
ghost use Rattle.hv_tables.specs.declared.bins.CtxTable.TheVariants.{PrevIntra};
ghost use Rattle.hv_residual_model.specs.Binarization.{bypass_at, truncated_unary_bins};
ghost use Rattle.hv_residual_model.specs.UnitBins.{PutsUnit};
ghost use Rattle.hv_tree_model.specs.MostProbableModes.{candModeList, third_mode, remaining_of};
ghost use Rattle.hv_unit_model.specs.Bins.{bin, luma_mode_bins};

use crate::elements::put_bin;
use hv_residual::{put_fixed_length, put_truncated_unary};
use hv_tables::{BinSink, CtxTable};

/// The first of planar, DC and vertical (modes 0, 1 and 26) that is neither.
fn third_mode(left: u8, above: u8) -> u8
    ensures { result ≡ third_mode left above }
{
    if left != 0 && above != 0 {
        return 0;
    }
    if left != 1 && above != 1 {
        return 1;
    }
    26
}

/// The most probable luma modes (`candModeList`, 8.4.2), of the modes at the left and above
/// (`candIntraPredModeA` and `candIntraPredModeB`), 0 to 34 each: 1 where there is no such
/// neighbour, or it isn't predicted inside the picture, and 1 above where it lies in another row of
/// coding tree blocks.
pub fn most_probable(left: u8, above: u8) -> [u8; 3]
    ensures { result ≡ candModeList left above }
{
    if left != above {
        return [left, above, third_mode(left, above)];
    }
    if left < 2 {
        return [0, 1, 26];
    }
    [
        left,
        2 + ((u16::from(left) + 29) % 32) as u8,
        2 + (left - 1) % 32,
    ]
}

/// The number of a mode among those that aren't most probable (`rem_intra_luma_pred_mode`).
fn remaining(first: u8, second: u8, third: u8, mode: u8) -> u8
    ensures { result ≡ remaining_of (first ∷ second ∷ third ∷ []) mode }
{
    let below = u8::from(first < mode) + (u8::from(second < mode) + u8::from(third < mode));
    mode.saturating_sub(below)
}

/// Puts `prev_intra_luma_pred_flag` 1 and `mpm_idx`.
#[inline(always)]
fn put_index<B: BinSink>(sink: &mut B, index: u8)
    requires { index < 3 }
    ensures { PutsUnit B.stands_for sink.old sink.new
        (bin PrevIntra 0 true ∷ truncated_unary_bins bypass_at 2 0 index) }
{
    put_bin(sink, CtxTable::PrevIntra, 0, true);
    put_truncated_unary(sink, 2, index);
}

/// Puts a luma mode by the three most probable ones.
fn put_mode_by<B: BinSink>(sink: &mut B, first: u8, second: u8, third: u8, mode: u8)
    ensures { PutsUnit B.stands_for sink.old sink.new
        (luma_mode_bins (first ∷ second ∷ third ∷ []) mode) }
{
    if mode == first {
        return put_index(sink, 0);
    }
    if mode == second {
        return put_index(sink, 1);
    }
    if mode == third {
        return put_index(sink, 2);
    }
    put_bin(sink, CtxTable::PrevIntra, 0, false);
    put_fixed_length(sink, 5, u32::from(remaining(first, second, third, mode)));
}

/// Puts a luma mode (`prev_intra_luma_pred_flag`, and `mpm_idx` or `rem_intra_luma_pred_mode`) by
/// the most probable ones.
pub fn put_luma_mode<B: BinSink>(sink: &mut B, candidates: [u8; 3], mode: u8)
    ensures { PutsUnit B.stands_for sink.old sink.new (luma_mode_bins candidates mode) }
{
    let [first, second, third] = candidates;
    put_mode_by(sink, first, second, third, mode);
}
