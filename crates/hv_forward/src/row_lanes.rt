//! Steps of the sums over rows of numbers, in lanes of 16 and of 32 bits.
ghost use Rattle.std.specs.Prelude.{ℕ, ℤ, ◌+◌, ◌-◌, ◌*◌, ◌≡◌, ◌<◌, ◌≤◌, length, ◌+ℤ◌, ◌-ℤ◌};
ghost use Rattle.hv_lanes.specs.Lanes.{Numbers, FourLanes};
ghost use Rattle.hv_forward.specs.Forward.{EightLanes, quarter_sum, in_turn};

use std::simd::prelude::*;

/// Eight numbers, in lanes.
#[inline(always)]
pub(crate) fn eight_of(numbers: &[i16]) -> i16x8
    requires eight { length numbers.now ≡ 8 }
    requires numbers { Numbers numbers.now }
    ensures { result ≡ numbers.now }
{
    i16x8::from_slice(numbers)
}

/// The sums and the differences of the numbers of two eights, the second of them from its end.
#[inline(always)]
pub(crate) fn folded(first: i16x8, second: i16x8) -> (i16x8, i16x8)
    ensures sums { (most : ℕ) (c d : ℕ → ℤ) → most ≤ 16383 →
        EightLanes most c first → EightLanes most d second →
        EightLanes (2 * most) (λ x. c x +ℤ d (7 - x)) result.0 }
    ensures differences { (most : ℕ) (c d : ℕ → ℤ) → most ≤ 16383 →
        EightLanes most c first → EightLanes most d second →
        EightLanes (2 * most) (λ x. c x -ℤ d (7 - x)) result.1 }
{
    let turned = second.swizzle([7, 6, 5, 4, 3, 2, 1, 0]);
    (first + turned, first - turned)
}

/// Four sums of the products of the first four numbers.
#[inline(always)]
pub(crate) fn low_quads(x: i16x8, weights: &[i16; 16]) -> i32x4
    requires weights { Numbers weights.now }
    ensures { (most : ℕ) (c : ℕ → ℤ) → most ≤ 32767 → EightLanes most c x →
        FourLanes (quarter_sum weights.now c 0) result }
{
    let x = x.swizzle([0, 1, 0, 1, 0, 1, 0, 1, 2, 3, 2, 3, 2, 3, 2, 3]);
    let w = i16x16::from_slice(weights);
    let m = x.swizzle([0, 2, 4, 6, 8, 10, 12, 14]).cast::<i32>()
        * w.swizzle([0, 2, 4, 6, 8, 10, 12, 14]).cast::<i32>()
        + x.swizzle([1, 3, 5, 7, 9, 11, 13, 15]).cast::<i32>()
            * w.swizzle([1, 3, 5, 7, 9, 11, 13, 15]).cast::<i32>();
    m.extract::<0, 4>() + m.extract::<4, 4>()
}

/// Four sums of the products of the last four numbers.
#[inline(always)]
pub(crate) fn high_quads(x: i16x8, weights: &[i16; 16]) -> i32x4
    requires weights { Numbers weights.now }
    ensures { (most : ℕ) (c : ℕ → ℤ) → most ≤ 32767 → EightLanes most c x →
        FourLanes (quarter_sum weights.now c 1) result }
{
    let x = x.swizzle([4, 5, 4, 5, 4, 5, 4, 5, 6, 7, 6, 7, 6, 7, 6, 7]);
    let w = i16x16::from_slice(weights);
    let m = x.swizzle([0, 2, 4, 6, 8, 10, 12, 14]).cast::<i32>()
        * w.swizzle([0, 2, 4, 6, 8, 10, 12, 14]).cast::<i32>()
        + x.swizzle([1, 3, 5, 7, 9, 11, 13, 15]).cast::<i32>()
            * w.swizzle([1, 3, 5, 7, 9, 11, 13, 15]).cast::<i32>();
    m.extract::<0, 4>() + m.extract::<4, 4>()
}

/// Four and four lanes, in turn.
#[inline(always)]
pub(crate) fn interleaved(first: i32x4, second: i32x4) -> (i32x4, i32x4)
    ensures low { (f g : ℕ → ℤ) → FourLanes f first → FourLanes g second →
        FourLanes (in_turn f g) result.0 }
    ensures high { (f g : ℕ → ℤ) → FourLanes f first → FourLanes g second →
        FourLanes (λ j. in_turn f g (4 + j)) result.1 }
{
    (
        first.shuffle(second, [0, 4, 1, 5]),
        first.shuffle(second, [2, 6, 3, 7]),
    )
}
