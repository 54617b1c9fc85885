//! Scaling (8.6.3), number by number.
ghost use Rattle.std.specs.Prelude.{◌≡◌, ◌+◌, ◌-◌, ◌*◌, ◌/◌, ◌^◌, ◌<◌, ◌≤◌, length, map, pos, ◌*ℤ◌};
ghost use Rattle.std.specs.Int.RustNames.{unsigned_abs};
ghost use Rattle.hv_lemmas.specs.Clipping.{clip16};
ghost use Rattle.hv_sample_model.specs.InverseTransform.{scaled};
ghost use Rattle.hv_sample_model.specs.Quantisation.{rounded};
ghost use Rattle.hv_tables.specs.Quantisers.{levelScale};
ghost use Rattle.hv_lanes.specs.Ranges.{Have16Bits};

use hv_tables::level_scale;

/// A level by its factor.
#[inline(always)]
fn product(level: i16, factor: u32) -> i32
    requires { factor ≤ 18432 }
    ensures value { result ≡ level *ℤ pos factor }
    ensures most { unsigned_abs result ≤ 32768 * 18432 }
{
    i32::from(level) * factor as i32
}

/// A product by 2^shift, rounded to the nearest, a half upwards.
#[inline(always)]
fn rounded(product: i32, shift: u32) -> i32
    requires range { unsigned_abs product ≤ 32768 * 18432 }
    requires some { 0 < shift }
    requires most { shift ≤ 4 }
    ensures { result ≡ rounded product shift }
{
    (product + (1 << (shift - 1))) >> shift
}

/// The nearest number of 16 bits.
#[inline(always)]
fn clipped(value: i32) -> i32
    ensures { result ≡ clip16 value }
{
    value.clamp(-32768, 32767)
}

/// A scaled transform coefficient, by its factor and the shift.
#[inline(always)]
fn scaled_by(level: i16, factor: u32, shift: u32) -> i32
    requires factor_most { factor ≤ 18432 }
    requires some { 0 < shift }
    requires shift_most { shift ≤ 4 }
    ensures { result ≡ clip16 (rounded (level *ℤ pos factor) shift) }
{
    clipped(rounded(product(level, factor), shift))
}

/// The factor of a quantiser, but for the scaling factor m, which is 16 everywhere (8.6.3).
#[inline(always)]
fn factor_of(qp: u8) -> u32
    requires { qp ≤ 51 }
    ensures value { result ≡ levelScale qp * 2 ^ (qp / 6) }
    ensures most { result ≤ 18432 }
{
    u32::from(level_scale(qp)) << (qp / 6)
}

/// Scales the levels of a block to transform coefficients (8.6.3).
///
/// `levels` are those of a block of 2^log2 columns, log2 is 2 to 5, and `qp` is the quantiser of
/// its component, 0 to 51. `out` has as many members. Each coefficient is clipped to 16 bits.
pub fn scale(levels: &[i16], log2: u8, qp: u8, out: &mut [i32])
    requires least { 2 ≤ log2 }
    requires greatest { log2 ≤ 5 }
    requires quantiser { qp ≤ 51 }
    requires room { length out.old ≡ length levels.now }
    ensures value { out.new ≡ map (scaled log2 qp) levels.now }
    ensures range { Have16Bits out.new }
{
    // The factor 16 is left out, and so four bits less are shifted away: all fits 32 bits.
    let shift = u32::from(log2) - 1;
    let factor = factor_of(qp);
    for i in 0..out.len() {
        out[i] = scaled_by(levels[i], factor, shift);
    }
}
