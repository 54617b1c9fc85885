//! The levels of eight coefficients at a time, in lanes of 32 bits.
ghost use Rattle.std.specs.Prelude.{◌≡◌, ◌+◌, ◌*◌, ◌/◌, ◌^◌, ◌<◌, ◌≤◌, length, map, pos, All, ◌*ℤ◌};
ghost use Rattle.std.specs.Int.RustNames.{unsigned_abs};
ghost use Rattle.hv_lanes.specs.Ranges.{Have16Bits};
ghost use Rattle.hv_forward.specs.Levels.{rounded_level, level_by};

use hv_lanes::clipped;
use std::simd::prelude::*;

/// The products of coefficients and a factor.
#[inline(always)]
fn products(coefficients: i32x8, factor: u32) -> i32x8
    requires eight { length coefficients ≡ 8 }
    requires range { All (λ z. unsigned_abs z ≤ 32768) coefficients }
    requires most { factor ≤ 26214 }
    ensures { result ≡ map (λ z. z *ℤ pos factor) coefficients }
{
    coefficients * i32x8::splat(factor as i32)
}

/// Products by 2^shift, where an offset is added to their size and the rest is left out.
///
/// A shift rounds downwards: so what is below 0 gets all of a step but the offset and one.
#[inline(always)]
fn rounded_levels(products: i32x8, offset: u32, shift: u32) -> i32x8
    requires eight { length products ≡ 8 }
    requires range { All (λ z. unsigned_abs z ≤ 1073741824) products }
    requires least { 16 ≤ shift }
    requires greatest { shift ≤ 27 }
    requires part { 2 * offset < 2 ^ shift }
    ensures { result ≡ map (rounded_level offset shift) products }
{
    let other = (1 << shift) - 1 - 2 * offset;
    let more = products
        .simd_lt(i32x8::splat(0))
        .select(i32x8::splat(other as i32), i32x8::splat(0));
    (products + i32x8::splat(offset as i32) + more) >> i32x8::splat(shift as i32)
}

/// Writes the levels of eight coefficients, by their factor, what is added, and the shift.
#[inline(always)]
pub(crate) fn quantise_eight(
    coefficients: &[i32],
    factor: u32,
    offset: u32,
    shift: u32,
    out: &mut [i16],
)
    requires eight { length coefficients.now ≡ 8 }
    requires range { Have16Bits coefficients.now }
    requires some { 0 < factor }
    requires most { factor ≤ 26214 }
    requires least { 16 ≤ shift }
    requires greatest { shift ≤ 27 }
    requires part { 2 * offset < 2 ^ shift }
    requires room { length out.old ≡ 8 }
    ensures { out.new ≡ map (level_by factor offset shift) coefficients.now }
{
    let products = products(i32x8::from_slice(coefficients), factor);
    clipped(rounded_levels(products, offset, shift)).copy_to_slice(out);
}
