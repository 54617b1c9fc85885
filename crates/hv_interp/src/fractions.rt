//! Predictions at all fractions of a luma sample from one window (8.5.3.3.3, 8.5.3.3.4.2).
ghost use Rattle.std.specs.Prelude.{◌≡◌, ℕ, ◌+◌, ◌*◌, ◌/◌, ◌%◌, ◌<◌, ◌≤◌, length, pos, ◌+ℤ◌, ℤ};
ghost use Rattle.std.specs.Int.{int_shr};
ghost use Rattle.std.specs.Int.RustNames.{unsigned_abs};
ghost use Rattle.hv_types.specs.Samples.{Plane};
ghost use Rattle.hv_inter_model.specs.Interpolation.{fL, weighted_sample};
ghost use Rattle.hv_interp.specs.Filters.{HasFirst, filtered_twice, strided_total};
ghost use Rattle.hv_interp.specs.Fractions.{ShowsFractions};
ghost use Rattle.hv_interp.specs.Lanes.{lane};
ghost use Rattle.hv_interp.specs.Windows.{Shows};

use crate::filters::{filter_sums, sum_rows};
use crate::lanes::round_16;
use crate::taps::luma_taps;

/// The samples of a prediction at one fraction: 81 rows of 96.
const AREA: usize = 7776;

/// Rounds sums along rows to the samples of a prediction, sixteen at a time.
fn put_rounded(sums: &[i16], out: &mut [u8])
    requires sums { length sums.now ≡ 7776 }
    requires range { (k : ℕ) → unsigned_abs (lane sums.now k) ≤ 28560 }
    requires room { length out.old ≡ 7776 }
    ensures count { length out.new ≡ 7776 }
    ensures each { HasFirst 0 7776 (λ k. weighted_sample (lane sums.now k)) out.new }
{
    for g in 0..AREA / 16 {
        let at = 16 * g;
        round_16(&sums[at..at + 16], &mut out[at..at + 16]);
    }
}

/// Filters sums along rows down their columns to the samples of a prediction. With no fraction of
/// rows the sums of the fourth row on are rounded.
fn put_prediction(below: u8, sums: &[i16], out: &mut [u8])
    requires below { below < 4 }
    requires sums { length sums.now ≡ 8448 }
    requires range { (k : ℕ) → unsigned_abs (lane sums.now k) ≤ 28560 }
    requires room { length out.old ≡ 7776 }
    ensures count { length out.new ≡ 7776 }
    ensures each { HasFirst 0 7776
        (λ k. weighted_sample (int_shr (strided_total (fL below) sums.now k 96) 6)) out.new }
{
    if below == 0 {
        put_rounded(&sums[288..288 + AREA], out);
    } else {
        filter_sums(luma_taps(below), sums, 96, 81, out);
    }
}

/// Fills the predictions of a fraction of columns, one for each fraction of rows, with room for the
/// sums along rows.
fn put_four(right: u8, window: &[u8], sums: &mut [i16], out: &mut [u8])
    requires right { right < 4 }
    requires window { length window.now ≡ 10816 }
    requires sums { length sums.old ≡ 8448 }
    requires room { length out.old ≡ 31104 }
    ensures sums { length sums.new ≡ 8448 }
    ensures count { length out.new ≡ 31104 }
    ensures each { HasFirst 0 31104
        (λ k. filtered_twice (fL right) (fL (k / 7776)) window.now 104 96 (k % 7776)) out.new }
{
    sum_rows(luma_taps(right), window, 104, 96, 88, sums);
    for below in 0..4u8 {
        let at = AREA * usize::from(below);
        put_prediction(below, sums, &mut out[at..at + AREA]);
    }
}

/// The predictions of a block of luma of 96 columns and 81 rows at all sixteen fractions of a
/// sample, from a window of a reference that begins three columns and three rows before the block:
/// 104 rows of 104 samples, of which the first 88 rows and 103 columns count.
///
/// The prediction that leads `right` quarters of a sample further right and `below` further down
/// stands at place `4 * right + below`, by rows. No memory is taken.
pub fn predict_fractions(window: &[u8], out: &mut [u8])
    requires window { length window.now ≡ 10816 }
    requires room { length out.old ≡ 124416 }
    ensures count { length out.new ≡ 124416 }
    ensures shows { (reference : Plane) (x y : ℤ) → Shows reference x y 103 88 window.now 104 →
        ShowsFractions reference (x +ℤ pos 3) (y +ℤ pos 3) out.new }
{
    let mut sums = [0; 8448];
    for right in 0..4u8 {
        let at = 4 * AREA * usize::from(right);
        put_four(right, window, &mut sums, &mut out[at..at + 4 * AREA]);
    }
}
