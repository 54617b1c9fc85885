//! Samples of a row with the offsets of their bands, sixteen at a time.
//!
//! By how much each of the four bands raises and lowers its samples stands in two vectors, with
//! nothing for all other bands behind them. A lane takes its own from there by its band's place.

ghost use Rattle.std.specs.Prelude.{◌≡◌, ℕ, ◌+◌, ◌-◌, ◌<◌, ◌≤◌, cond, nat_lt, length, slice_index_or};
ghost use Rattle.hv_types.specs.Samples.{IsPlane};
ghost use Rattle.hv_plan.specs.declared.offsets.SaoComponent.{SaoComponent};
ghost use Rattle.hv_plan.specs.declared.offsets.SaoKind.TheVariants.{Band};
ghost use Rattle.hv_filter_model.specs.SampleAdaptiveOffset.{sao_sample};
ghost use Rattle.hv_sao.specs.Bands.{raise, lower, band_place, raised_lowered, AreMade};
ghost use Rattle.hv_sao.specs.Planes.{IsWritten};
ghost use Rattle.hv_sao.specs.Rows.{IsRow, band_sample};

use crate::edges::part_of_row;
use crate::samples::{VECTOR, band_category, shown_sample};
use hv_plan::SaoComponent;
use hv_types::Plane;
use std::simd::prelude::*;

/// How many samples are done at once, as a number of columns.
pub(crate) const LANES: u32 = 16;

/// An offset as a byte: what is negative is 128 and more.
#[inline(always)]
fn byte_of(offset: i8) -> u8
    ensures raised { raise offset ≡ cond (nat_lt result 128) result 0 }
    ensures lowered { lower offset ≡ cond (nat_lt result 128) 0 (256 - result) }
    ensures byte { result < 256 }
{
    offset.cast_unsigned()
}

/// By how much each of the four bands raises its samples.
#[inline(always)]
fn raises(offsets: [i8; 4]) -> u8x16
    ensures { AreMade raise offsets result }
{
    let [a, b, c, d] = offsets;
    let (a, b, c, d) = (byte_of(a), byte_of(b), byte_of(c), byte_of(d));
    let bytes = u8x16::from_array([a, b, c, d, 0, 0, 0, 0, 0, 0, 0, 0, 0, 0, 0, 0]);
    bytes
        .simd_lt(u8x16::splat(128))
        .select(bytes, u8x16::splat(0))
}

/// By how much each of the four bands lowers its samples.
#[inline(always)]
fn lowers(offsets: [i8; 4]) -> u8x16
    ensures { AreMade lower offsets result }
{
    let [a, b, c, d] = offsets;
    let (a, b, c, d) = (byte_of(a), byte_of(b), byte_of(c), byte_of(d));
    let bytes = u8x16::from_array([a, b, c, d, 0, 0, 0, 0, 0, 0, 0, 0, 0, 0, 0, 0]);
    let negative = bytes
        .simd_lt(u8x16::splat(128))
        .select(u8x16::splat(0), bytes);
    u8x16::splat(0) - negative
}

/// How many bands behind the first of the four each sample's lies, at most 4.
#[inline(always)]
fn places(samples: u8x16, position: u8) -> u8x16
    requires { position < 32 }
    ensures { (i : ℕ) → i < 16 →
        slice_index_or result i 0 ≡ band_place position (slice_index_or samples i 0) }
{
    let behind = (samples - u8x16::splat(8 * position)) >> u8x16::splat(3);
    behind.simd_min(u8x16::splat(4))
}

/// What stands at each of these places.
#[inline(always)]
fn taken(made: u8x16, places: u8x16) -> u8x16
    requires { (i : ℕ) → i < 16 → slice_index_or places i 0 < 16 }
    ensures { (i : ℕ) → i < 16 →
        slice_index_or result i 0 ≡ slice_index_or made (slice_index_or places i 0) 0 }
{
    made.swizzle_dyn(places)
}

/// Samples that are raised, then lowered, each cut to a byte.
#[inline(always)]
fn raised_lowered(samples: u8x16, up: u8x16, down: u8x16) -> u8x16
    ensures count { length result ≡ 16 }
    ensures lanes { (i : ℕ) → i < 16 → slice_index_or result i 0 ≡ raised_lowered
        (slice_index_or samples i 0) (slice_index_or up i 0) (slice_index_or down i 0) }
{
    samples.saturating_add(up).saturating_sub(down)
}

/// The sixteen samples from place `at` on, where bands raise and lower them so.
#[inline(always)]
fn sixteen_shown(samples: &[u8], at: usize, position: u8, up: u8x16, down: u8x16) -> [u8; 16]
    requires position { position < 32 }
    requires inside { at + 16 ≤ length samples.now }
    ensures count { length result ≡ 16 }
    ensures samples { (component : SaoComponent) → AreMade raise component.offsets up →
        AreMade lower component.offsets down →
        IsRow (λ i. band_sample component position samples.now (at + i)) result }
{
    let sixteen = u8x16::from_slice(&samples[at..at + VECTOR]);
    let places = places(sixteen, position);
    raised_lowered(sixteen, taken(up, places), taken(down, places)).to_array()
}

/// Samples of a row with the offsets of their bands, one by one.
pub(crate) fn fill_bands(samples: &[u8], position: u8, component: SaoComponent, out: &mut [u8])
    requires position { position < 32 }
    requires room { length out.old ≡ length samples.now }
    ensures { IsRow (band_sample component position samples.now) out.new }
{
    for i in 0..samples.len() {
        out[i] = shown_sample(component, samples[i], band_category(samples[i], position));
    }
}

/// Writes the samples of row `y` in the columns `from` to `to`, sixteen at least, with the offsets
/// of their bands. The last sixteen may overlap those before.
#[inline(always)]
pub(crate) fn put_bands(
    component: SaoComponent,
    position: u8,
    plane: &Plane,
    y: u32,
    from: u32,
    to: u32,
    shown: &mut Plane,
)
    requires kind { component.kind ≡ Band position }
    requires position { position < 32 }
    requires down { y < plane.now.height }
    requires least { from + 16 ≤ to }
    requires across { to ≤ plane.now.width }
    requires shown { IsPlane plane.now.width plane.now.height shown.old }
    ensures { IsWritten from y (to - from) (λ i. sao_sample component plane.now (from + i) y)
        shown.old shown.new }
{
    let count = to - from;
    let samples = part_of_row(plane, y, from, count);
    let up = raises(component.offsets);
    let down = lowers(component.offsets);
    for g in 0..(count - 1) / LANES {
        let sixteen = sixteen_shown(samples, VECTOR * g as usize, position, up, down);
        shown.set_run(from + LANES * g, y, &sixteen);
    }
    let last = sixteen_shown(samples, (count - LANES) as usize, position, up, down);
    shown.set_run(to - LANES, y, &last);
}
