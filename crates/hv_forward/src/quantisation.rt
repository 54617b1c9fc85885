//! The encoder's quantisation, eight coefficients at a time.
ghost use Rattle.std.specs.Prelude.{◌≡◌, ◌+◌, ◌-◌, ◌*◌, ◌/◌, ◌^◌, ◌<◌, ◌≤◌, length, map};
ghost use Rattle.std.specs.List.{list_any};
ghost use Rattle.std.specs.Int.RustNames.{unsigned_abs};
ghost use Rattle.hv_lemmas.specs.Clipping.{clip16};
ghost use Rattle.hv_sample_model.specs.Quantisation.{quantised, with_sign_of, offset_of_kind};
ghost use Rattle.hv_lanes.specs.Ranges.{Have16Bits, is_other_than_0};

use crate::level_lanes::quantise_eight;
use hv_lanes::have_other_than_0;
use hv_tables::quantisation_factor;

/// The size of a level, by that of its coefficient, its factor, what is added, and the shift.
#[inline(always)]
fn size_of_level(size: u32, factor: u32, offset: u32, shift: u32) -> u32
    requires range { size ≤ 32768 }
    requires most { factor ≤ 26214 }
    requires least { 16 ≤ shift }
    requires greatest { shift ≤ 27 }
    requires part { offset ≤ 2 ^ shift }
    ensures value { result ≡ (size * factor + offset) / 2 ^ shift }
    ensures most { result ≤ 13108 }
{
    (size * factor + offset) >> shift
}

/// The level of a coefficient, by its factor, what is added, and the shift.
#[inline(always)]
fn quantised_by(coefficient: i32, factor: u32, offset: u32, shift: u32) -> i16
    requires range { unsigned_abs coefficient ≤ 32768 }
    requires most { factor ≤ 26214 }
    requires least { 16 ≤ shift }
    requires greatest { shift ≤ 27 }
    requires part { offset ≤ 2 ^ shift }
    ensures { result ≡ clip16 (with_sign_of coefficient
        ((unsigned_abs coefficient * factor + offset) / 2 ^ shift)) }
{
    let size = size_of_level(coefficient.unsigned_abs(), factor, offset, shift) as i16;
    if coefficient < 0 { -size } else { size }
}

/// What is added before the last division, in 512ths of a level: a third of a level in intra units,
/// a sixth in others.
#[inline(always)]
fn offset_of_kind(intra: bool) -> u32
    ensures value { result ≡ offset_of_kind intra }
    ensures most { result ≤ 171 }
{
    if intra { 171 } else { 85 }
}

/// The same, in parts of 2^shift.
#[inline(always)]
fn offset_of(intra: bool, shift: u32) -> u32
    requires least { 16 ≤ shift }
    requires greatest { shift ≤ 27 }
    ensures value { result ≡ offset_of_kind intra * 2 ^ (shift - 9) }
    ensures part { 2 * result < 2 ^ shift }
{
    offset_of_kind(intra) << (shift - 9)
}

/// The levels of a block of transform coefficients, as the encoder chooses them.
///
/// `coefficients` are those of a block of 2^log2 columns, log2 is 2 to 5, and each has 16 bits.
/// `qp` is the quantiser of its component, 0 to 51, and `intra` tells whether its unit is intra.
/// `out` has as many members. The answer is whether a level isn't 0.
pub fn quantise(coefficients: &[i32], log2: u8, qp: u8, intra: bool, out: &mut [i16]) -> bool
    requires least { 2 ≤ log2 }
    requires greatest { log2 ≤ 5 }
    requires quantiser { qp ≤ 51 }
    requires range { Have16Bits coefficients.now }
    requires room { length out.old ≡ length coefficients.now }
    ensures value { out.new ≡ map (quantised log2 qp intra) coefficients.now }
    ensures some { result ≡ list_any is_other_than_0 out.new }
{
    let shift = u32::from(21 + qp / 6 - log2);
    let factor = u32::from(quantisation_factor(qp));
    let offset = offset_of(intra, shift);
    let eights = out.len() / 8;
    for g in 0..eights {
        quantise_eight(
            &coefficients[8 * g..8 * g + 8],
            factor,
            offset,
            shift,
            &mut out[8 * g..8 * g + 8],
        );
    }
    for i in 8 * eights..out.len() {
        out[i] = quantised_by(coefficients[i], factor, offset, shift);
    }
    have_other_than_0(out)
}
