//! Steps in lanes of 32 bits, which wrap.
ghost use Rattle.std.specs.Prelude.{ℕ, ℤ, ◌+◌, ◌-◌, ◌^◌, ◌≡◌, ◌<◌, ◌≤◌, length, ◌++◌, map, All, ◌+ℤ◌};
ghost use Rattle.std.specs.Int.RustNames.{unsigned_abs};
ghost use Rattle.hv_lemmas.specs.Clipping.{clip16};
ghost use Rattle.hv_sample_model.specs.Quantisation.{rounded};
ghost use Rattle.hv_lanes.specs.Lanes.{Numbers32, FourLanes};

use std::simd::prelude::*;

/// The sums of lanes.
#[inline(always)]
pub fn sums(a: i32x4, b: i32x4) -> i32x4
    ensures { (f g : ℕ → ℤ) → FourLanes f a → FourLanes g b → FourLanes (λ j. f j +ℤ g j) result }
{
    a + b
}

/// Eight lanes of twice four.
#[inline(always)]
fn joined(low: i32x4, high: i32x4) -> i32x8
    requires first_four { length low ≡ 4 }
    requires second_four { length high ≡ 4 }
    requires first { Numbers32 low }
    requires second { Numbers32 high }
    ensures { result ≡ low ++ high }
{
    low.shuffle(high, [0, 1, 2, 3, 4, 5, 6, 7])
}

/// Lanes by 2^shift, rounded to the nearest, a half upwards.
#[inline(always)]
fn means(lanes: i32x8, shift: u32) -> i32x8
    requires eight { length lanes ≡ 8 }
    requires lanes_most { All (λ z. unsigned_abs z ≤ 1073741824) lanes }
    requires some { 0 < shift }
    requires shift_most { shift ≤ 12 }
    ensures { result ≡ map (λ z. rounded z shift) lanes }
{
    (lanes + i32x8::splat(1 << (shift - 1))) >> i32x8::splat(shift as i32)
}

/// The nearest numbers of 16 bits.
#[inline(always)]
pub fn clipped(lanes: i32x8) -> i16x8
    requires eight { length lanes ≡ 8 }
    requires numbers { Numbers32 lanes }
    ensures { result ≡ map clip16 lanes }
{
    lanes
        .simd_clamp(i32x8::splat(-32768), i32x8::splat(32767))
        .cast::<i16>()
}

/// Writes the means of eight lanes, by 2^shift, to the nearest of 16 bits.
#[inline(always)]
pub fn put_means(low: i32x4, high: i32x4, shift: u32, out: &mut [i16])
    requires first_four { length low ≡ 4 }
    requires second_four { length high ≡ 4 }
    requires low { All (λ z. unsigned_abs z ≤ 1073741824) low }
    requires high { All (λ z. unsigned_abs z ≤ 1073741824) high }
    requires some { 0 < shift }
    requires shift_most { shift ≤ 12 }
    requires room { length out.old ≡ 8 }
    ensures { out.new ≡ map (λ z. clip16 (rounded z shift)) (low ++ high) }
{
    clipped(means(joined(low, high), shift)).copy_to_slice(out);
}
