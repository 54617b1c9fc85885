//! Prediction of a block.

ghost use Rattle.std.specs.Prelude.{◌≡◌, ◌≢◌, ◌+◌, ◌*◌, ◌^◌, ◌≤◌, length};
ghost use Rattle.hv_intra.specs.Blocks.{HasRows};
ghost use Rattle.hv_sample_model.specs.IntraPrediction.{angular, by_mode, predicted};

use crate::angular::{predict_from_above, predict_from_left};
use crate::dc::predict_dc;
use crate::line::Line;
use crate::neighbours::{Neighbours, Side};
use crate::planar::predict_planar;
use crate::reference::AngularMode;
use crate::smoothing::fill_filtered;
use crate::straight::{predict_horizontal, predict_vertical};

/// An angular mode (8.4.4.2.6).
#[inline(always)]
#[tactic(auto, using(crate::proofs::StraightModeLemmas::vertical_block, crate::proofs::StraightModeLemmas::horizontal_block))]
fn predict_angular(neighbours: Neighbours<'_>, mode: AngularMode, luma: bool, out: &mut [u8])
    requires { length out.old ≡ 2 ^ neighbours.side.log2 * 2 ^ neighbours.side.log2 }
    ensures { HasRows (2 ^ neighbours.entry.side.log2) (2 ^ neighbours.entry.side.log2)
        (angular neighbours.entry.side.log2 mode.number luma neighbours.entry.line.now) out.new }
{
    if mode.number == 10 && luma && neighbours.side.log2 < 5 {
        predict_horizontal(neighbours, out);
    } else if mode.number == 26 && luma && neighbours.side.log2 < 5 {
        predict_vertical(neighbours, out);
    } else if mode.number < 18 {
        predict_from_left(neighbours, mode, out);
    } else {
        predict_from_above(neighbours, mode, out);
    }
}

/// Intra_Planar or an angular mode, from the neighbours that it predicts from.
#[inline(always)]
fn predict_from_filtered(neighbours: Neighbours<'_>, mode: u8, luma: bool, out: &mut [u8])
    requires mode { mode ≤ 34 }
    requires other { mode ≢ 1 }
    requires room { length out.old ≡ 2 ^ neighbours.side.log2 * 2 ^ neighbours.side.log2 }
    ensures { HasRows (2 ^ neighbours.entry.side.log2) (2 ^ neighbours.entry.side.log2)
        (by_mode neighbours.entry.side.log2 mode luma neighbours.entry.line.now) out.new }
{
    if mode == 0 {
        predict_planar(neighbours, out);
    } else {
        predict_angular(neighbours, AngularMode { number: mode }, luma, out);
    }
}

/// A block of 2^LOG2 columns and rows, from COUNT neighbours. It isn't inlined, so that all its
/// loops are made for its side: the compiler joins calls that differ in a number alone. But for DC
/// the neighbours are copied even where they aren't filtered, so that the loops read an array of
/// known length that can't be the block.
#[inline(never)]
fn predict_side<const LOG2: u8, const COUNT: usize>(
    line: &[u8],
    mode: u8,
    luma: bool,
    out: &mut [u8],
)
    requires least { 2 ≤ LOG2 }
    requires most { LOG2 ≤ 5 }
    requires count { COUNT ≡ 4 * 2 ^ LOG2 + 1 }
    requires mode { mode ≤ 34 }
    requires line { length line.now ≡ COUNT }
    requires room { length out.old ≡ 4 ^ LOG2 }
    ensures { out.new ≡ predicted LOG2 mode luma line.now }
{
    let side = Side { log2: LOG2 };
    let neighbours = Neighbours { side, line };
    if mode == 1 {
        predict_dc(neighbours, luma, out);
    } else {
        let mut filtered = [0; COUNT];
        fill_filtered(neighbours, mode, luma, &mut filtered);
        let neighbours = Neighbours {
            side,
            line: &filtered,
        };
        predict_from_filtered(neighbours, mode, luma, out);
    }
}

/// Predicts a transform block from its neighbours (8.4.4.2), which are smoothed where the mode asks
/// for it.
///
/// `log2` is 2 to 5, and the block has 2^log2 columns and rows; `mode` is the intra prediction
/// mode: 0 planar, 1 DC, 2 to 34 angular; `luma` is false for a block of chroma, whose neighbours
/// and edges aren't smoothed. `line` has the neighbours of a block of this side, and `out` a place
/// for each sample, by rows; each is written. It takes no memory and always answers.
pub fn predict_intra(line: &Line, log2: u8, mode: u8, luma: bool, out: &mut [u8])
    requires least { 2 ≤ log2 }
    requires most { log2 ≤ 5 }
    requires mode { mode ≤ 34 }
    requires line { length line.now ≡ 4 * 2 ^ log2 + 1 }
    requires room { length out.old ≡ 4 ^ log2 }
    ensures { out.new ≡ predicted log2 mode luma line.now }
{
    let line = line.samples();
    match log2 {
        2 => predict_side::<2, 17>(line, mode, luma, out),
        3 => predict_side::<3, 33>(line, mode, luma, out),
        4 => predict_side::<4, 65>(line, mode, luma, out),
        _ => predict_side::<5, 129>(line, mode, luma, out),
    }
}
