//! The inverse transform (8.6.4.2): the columns first, and then the rows.
ghost use Rattle.std.specs.Prelude.{◌≡◌, ◌^◌, ◌≤◌, length};
ghost use Rattle.hv_sample_model.specs.InverseTransform.{inverse_transformed};
ghost use Rattle.hv_lanes.specs.Ranges.{Have16Bits};

use crate::inverse_lanes::{inverse_4, inverse_8, inverse_16, inverse_32};

/// The residual of a block of scaled coefficients (8.6.4.2).
///
/// Both slices have 4^log2 members, by rows, and log2 is 2 to 5. Coefficients have 16 bits. The
/// sums of the columns are clipped to 16 bits; those of the rows have 16 bits by themselves.
pub fn inverse(coefficients: &[i32], log2: u8, out: &mut [i16])
    requires least { 2 ≤ log2 }
    requires greatest { log2 ≤ 5 }
    requires block { length coefficients.now ≡ 4 ^ log2 }
    requires range { Have16Bits coefficients.now }
    requires room { length out.old ≡ 4 ^ log2 }
    ensures { out.new ≡ inverse_transformed log2 coefficients.now }
{
    match log2 {
        2 => inverse_4(coefficients, out),
        3 => inverse_8(coefficients, out),
        4 => inverse_16(coefficients, out),
        _ => inverse_32(coefficients, out),
    }
}
