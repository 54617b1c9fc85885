//! The forward transform of the encoder: the rows first, and then the columns.
ghost use Rattle.std.specs.Prelude.{◌≡◌, ◌^◌, ◌≤◌, length};
ghost use Rattle.hv_sample_model.specs.Quantisation.{transformed};
ghost use Rattle.hv_lanes.specs.Ranges.{Have16Bits};
ghost use Rattle.hv_forward.specs.Ranges.{AreDifferences};

use crate::forward_lanes::{forward_4, forward_8, forward_16, forward_32};

/// The transform coefficients of a block of residual samples.
///
/// Both slices have 4^log2 members, by rows, and log2 is 2 to 5. A residual sample is a difference
/// of two samples of 8 bits. Each coefficient has 16 bits.
pub fn forward(residual: &[i16], log2: u8, out: &mut [i32])
    requires least { 2 ≤ log2 }
    requires greatest { log2 ≤ 5 }
    requires block { length residual.now ≡ 4 ^ log2 }
    requires range { AreDifferences residual.now }
    requires room { length out.old ≡ 4 ^ log2 }
    ensures value { out.new ≡ transformed log2 residual.now }
    ensures range { Have16Bits out.new }
{
    match log2 {
        2 => forward_4(residual, out),
        3 => forward_8(residual, out),
        4 => forward_16(residual, out),
        _ => forward_32(residual, out),
    }
}
