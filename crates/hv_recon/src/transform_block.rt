//! A transform block: its prediction, and the residual that is added to it.

ghost use Rattle.std.specs.Prelude.{◌≡◌, ◌+◌, ◌*◌, ◌^◌, ◌≤◌, length, pos, ◌+ℤ◌};
ghost use Rattle.hv_lemmas.specs.Clipping.{clip1};
ghost use Rattle.hv_sample_model.specs.IntraPrediction.{predicted, substituted};
ghost use Rattle.hv_sample_model.specs.InverseTransform.{residual};
ghost use Rattle.hv_recon_model.specs.Reconstruction.{sum_of};
ghost use Rattle.hv_recon.specs.Levels.{is_other_than_0, is_coded};

use hv_intra::{Line, predict_intra};
use hv_transform::{inverse, scale};

/// Rebuilds an intra transform block (8.4.4.1): each of the 4^log2 samples in `out`, by rows, is
/// that of the prediction with the residual added, clipped to 8 bits (8.6.7).
///
/// `log2` is 2 to 5. `known` has the 4 * 2^log2 + 1 neighbouring samples, from the lowest at the
/// left upwards and then from above to the right, `None` where one isn't available (8.4.4.2.2).
/// `mode` is 0 to 34, and `luma` is false for a block of chroma. `levels` has 4^log2 levels by
/// rows, and `qp` is the quantiser of the component, 0 to 51. It takes no memory and always
/// answers.
pub fn rebuild_intra(
    known: &[Option<u8>],
    levels: &[i16],
    log2: u8,
    qp: u8,
    mode: u8,
    luma: bool,
    out: &mut [u8],
)
    requires least { 2 ≤ log2 }
    requires most { log2 ≤ 5 }
    requires quantiser { qp ≤ 51 }
    requires mode { mode ≤ 34 }
    requires line { length known.now ≡ 4 * 2 ^ log2 + 1 }
    requires levels { length levels.now ≡ 4 ^ log2 }
    requires room { length out.old ≡ 4 ^ log2 }
    ensures { out.new ≡ sum_of (predicted log2 mode luma (substituted known.now))
        (residual log2 qp levels.now) }
{
    let line = Line::of(known);
    predict_intra(&line, log2, mode, luma, out);
    add_levels(levels, log2, qp, out);
}

/// Whether a level isn't 0.
#[inline(always)]
fn is_other_than_0(level: i16) -> bool
    ensures { result ≡ is_other_than_0 level }
{
    level != 0
}

/// Whether one of these levels isn't 0.
#[inline(always)]
fn is_coded(levels: &[i16]) -> bool
    ensures { result ≡ is_coded levels.now }
{
    for level in levels {
        if is_other_than_0(*level) {
            return true;
        }
    }
    false
}

/// Adds the residual of these levels to the samples of a block; where all are 0 it is 0, and the
/// samples are kept.
pub fn add_levels(levels: &[i16], log2: u8, qp: u8, out: &mut [u8])
    requires least { 2 ≤ log2 }
    requires most { log2 ≤ 5 }
    requires quantiser { qp ≤ 51 }
    requires levels { length levels.now ≡ 4 ^ log2 }
    requires room { length out.old ≡ 4 ^ log2 }
    ensures { out.new ≡ sum_of out.old (residual log2 qp levels.now) }
{
    if !is_coded(levels) {
        return;
    }
    match log2 {
        2 => add_residual::<16>(levels, log2, qp, out),
        3 => add_residual::<64>(levels, log2, qp, out),
        4 => add_residual::<256>(levels, log2, qp, out),
        _ => add_residual::<1024>(levels, log2, qp, out),
    }
}

/// Adds the residual of `COUNT` levels to as many samples of a block, where it is told whether one
/// of them isn't 0; where all are 0 the samples are kept.
pub fn add_coded<const COUNT: usize>(coded: bool, levels: &[i16], log2: u8, qp: u8, out: &mut [u8])
    requires coded { coded ≡ is_coded levels.now }
    requires least { 2 ≤ log2 }
    requires most { log2 ≤ 5 }
    requires quantiser { qp ≤ 51 }
    requires side { COUNT ≡ 4 ^ log2 }
    requires few { COUNT ≤ 1024 }
    requires levels { length levels.now ≡ COUNT }
    requires room { length out.old ≡ COUNT }
    ensures { out.new ≡ sum_of out.old (residual log2 qp levels.now) }
{
    if coded {
        add_residual::<COUNT>(levels, log2, qp, out);
    }
}

/// Adds the residual of `COUNT` levels to as many samples of a block.
fn add_residual<const COUNT: usize>(levels: &[i16], log2: u8, qp: u8, out: &mut [u8])
    requires least { 2 ≤ log2 }
    requires most { log2 ≤ 5 }
    requires quantiser { qp ≤ 51 }
    requires side { COUNT ≡ 4 ^ log2 }
    requires few { COUNT ≤ 1024 }
    requires levels { length levels.now ≡ COUNT }
    requires room { length out.old ≡ COUNT }
    ensures { out.new ≡ sum_of out.old (residual log2 qp levels.now) }
{
    let mut coefficients = [0; COUNT];
    let mut residual = [0; COUNT];
    scale(levels, log2, qp, &mut coefficients);
    inverse(&coefficients, log2, &mut residual);
    add(out, &residual);
}

/// Adds a number to each sample, and clips the sum to 8 bits (8.6.7).
fn add(samples: &mut [u8], numbers: &[i16])
    requires { length numbers.now ≡ length samples.old }
    ensures { samples.new ≡ sum_of samples.old numbers.now }
{
    for i in 0..samples.len() {
        samples[i] = clipped_sum(samples[i], numbers[i]);
    }
}

/// Clip1 of a sample and a number (5.8).
#[inline(always)]
fn clipped_sum(sample: u8, number: i16) -> u8
    ensures { result ≡ clip1 (pos sample +ℤ number) }
{
    clip1(i32::from(sample) + i32::from(number))
}

/// The nearest sample of 8 bits (5.8).
#[inline(always)]
fn clip1(value: i32) -> u8
    ensures { result ≡ clip1 value }
{
    value.clamp(0, 255) as u8
}

#[cfg(test)]
mod tests {
    use super::*;
    use std::test::Fail;

    /// A block of 8x8 at quantiser 32 whose first level alone isn't 0, in DC, beside samples that
    /// are all `known`: its first and its last sample.
    fn flat(known: Option<u8>, first: i16) -> (u8, u8) {
        let mut levels = [0; 64];
        levels[0] = first;
        let mut out = [0; 64];
        rebuild_intra(&[known; 33], &levels, 3, 32, 1, true, &mut out);
        (out[0], out[63])
    }

    /// The first level 3 is 10 in each sample of 8x8 at quantiser 32, and 17 in each of 4x4 at 31.
    #[test]
    fn flat_blocks(rt: HostRuntime) -> Result<(), Fail> {
        assert_eq!(rt; flat(None, 3), (138, 138));
        assert_eq!(rt; flat(Some(250), 3), (255, 255));
        assert_eq!(rt; flat(Some(4), -3), (0, 0));
        assert_eq!(rt; flat(Some(77), 0), (77, 77));

        let mut levels = [0; 16];
        levels[0] = 3;
        let mut out = [0; 16];
        rebuild_intra(&[None; 17], &levels, 2, 31, 1, false, &mut out);
        assert_eq!(rt; (out[0], out[15]), (145, 145));
        Ok(())
    }
}
