//! Coding of a transform block: the input's samples, what its prediction leaves of them, its
//! levels, and its samples behind them.

ghost use Rattle.std.specs.Prelude.{◌≡◌, ◌+◌, ◌*◌, ◌^◌, ◌≤◌, true, length, pos, ◌-ℤ◌};
ghost use Rattle.std.specs.Int.RustNames.{unsigned_abs};
ghost use Rattle.hv_forward.specs.Ranges.{AreDifferences};
ghost use Rattle.hv_sample_model.specs.IntraPrediction.{predicted, substituted};
ghost use Rattle.hv_sample_model.specs.Quantisation.{levels};
ghost use Rattle.hv_recon_model.specs.SeenSamples.{seen_block};
ghost use Rattle.hv_recon.specs.Coding.{input_block, differences, coded_levels};
ghost use Rattle.hv_recon.specs.Levels.{is_coded};

use crate::put::put_row;
use crate::shapes::Spot;
use crate::sizes::side_of;
use crate::transform_block::add_coded;
use hv_forward::{forward, quantise};
use hv_intra::{Line, predict_intra};
use hv_types::Plane;

/// Copies a block of 2^log2 columns and rows of a plane to `out`, by rows: the one whose upper left
/// sample is in column `x` of row `y`. It takes no memory and always answers.
pub fn read_block(plane: &Plane, x: usize, y: usize, log2: u8, out: &mut [u8])
    requires least { 2 ≤ log2 }
    requires most { log2 ≤ 5 }
    requires across { x + 2 ^ log2 ≤ plane.now.width }
    requires down { y + 2 ^ log2 ≤ plane.now.height }
    requires room { length out.old ≡ 2 ^ log2 * 2 ^ log2 }
    ensures { out.new ≡ input_block plane.now x y log2 }
{
    let n = side_of(log2);
    let stride = plane.width() as usize;
    let samples = plane.samples();
    for r in 0..n {
        let from = (y + r) * stride + x;
        put_row(out, r * n, &samples[from..from + n]);
    }
}

/// A sample minus its prediction.
#[inline(always)]
fn difference(sample: u8, predicted: u8) -> i16
    ensures { result ≡ pos sample -ℤ pos predicted }
{
    i16::from(sample) - i16::from(predicted)
}

/// Samples minus their prediction, one by one, into `out`: the residual of a block. There are as
/// many predicted samples, and as many numbers in `out`, as samples. It takes no memory and always
/// answers.
pub fn subtract(samples: &[u8], predicted: &[u8], out: &mut [i16])
    requires even { length predicted.now ≡ length samples.now }
    requires room { length out.old ≡ length samples.now }
    ensures value { out.new ≡ differences samples.now predicted.now }
    ensures range { AreDifferences out.new }
{
    for i in 0..out.len() {
        out[i] = difference(samples[i], predicted[i]);
    }
}

/// Gives a block of `COUNT` samples of the input its levels behind this prediction, and tells
/// whether one of them isn't 0.
fn choose_levels<const COUNT: usize>(
    samples: &[u8],
    predicted: &[u8],
    spot: Spot,
    out: &mut [i16],
) -> bool
    requires count { COUNT ≡ 4 ^ spot.log2 }
    requires few { COUNT ≤ 1024 }
    requires samples { length samples.now ≡ COUNT }
    requires predicted { length predicted.now ≡ COUNT }
    requires room { length out.old ≡ COUNT }
    ensures value { out.new ≡ levels spot.log2 spot.qp true
        (differences samples.now predicted.now) }
    ensures some { result ≡ is_coded out.new }
{
    let mut residual = [0; COUNT];
    let mut coefficients = [0; COUNT];
    subtract(samples, predicted, &mut residual);
    forward(&residual, spot.log2, &mut coefficients);
    quantise(&coefficients, spot.log2, spot.qp, true, out)
}

/// Codes an intra transform block of `COUNT` samples of the input: gives it its levels, and `out`
/// its samples behind them (8.4.4.1).
pub fn code_intra<const COUNT: usize>(
    known: &[Option<u8>],
    input: &[u8],
    spot: Spot,
    levels: &mut [i16],
    out: &mut [u8],
)
    requires count { COUNT ≡ 4 ^ spot.log2 }
    requires few { COUNT ≤ 1024 }
    requires line { length known.now ≡ 4 * 2 ^ spot.log2 + 1 }
    requires input { length input.now ≡ COUNT }
    requires levels { length levels.old ≡ COUNT }
    requires room { length out.old ≡ COUNT }
    ensures levels { levels.new ≡ coded_levels spot.log2 spot.mode spot.luma spot.qp input.now
        known.now }
    ensures value { out.new ≡ seen_block spot.log2 spot.mode spot.luma spot.qp levels.new
        known.now }
{
    let line = Line::of(known);
    predict_intra(&line, spot.log2, spot.mode, spot.luma, out);
    let coded = choose_levels::<COUNT>(input, out, spot, levels);
    add_coded::<COUNT>(coded, levels, spot.log2, spot.qp, out);
}
