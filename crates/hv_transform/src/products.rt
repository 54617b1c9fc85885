//! Sums of products of 16 bits, in lanes of 32 bits, which wrap.
ghost use Rattle.std.specs.Prelude.{ℕ, ℤ, ◌+◌, ◌-◌, ◌*◌, ◌≡◌, ◌<◌, ◌≤◌, [], ◌∷◌, ◌-ℤ◌};
ghost use Rattle.std.specs.Int.RustNames.{FitsSigned};
ghost use mir.Syntax.{w16};
ghost use Rattle.hv_transform.specs.Columns.{quad, pair_of, lane_sum};
ghost use Rattle.hv_lanes.specs.Lanes.{Numbers, FourLanes, in_pairs};

use std::simd::prelude::*;

/// Four sums of four products.
#[inline(always)]
fn quads(a: &[i16; 2], b: &[i16; 2], weights: &[i16; 16]) -> i32x4
    requires first { Numbers a.now }
    requires second { Numbers b.now }
    requires weights { Numbers weights.now }
    ensures { result ≡ quad a.now b.now weights.now 0 ∷ quad a.now b.now weights.now 1 ∷
        quad a.now b.now weights.now 2 ∷ quad a.now b.now weights.now 3 ∷ [] }
{
    let a = i16x2::from_slice(a);
    let b = i16x2::from_slice(b);
    let x = a.shuffle(b, [0, 1, 0, 1, 0, 1, 0, 1, 2, 3, 2, 3, 2, 3, 2, 3]);
    let w = i16x16::from_slice(weights);
    let m = x.swizzle([0, 2, 4, 6, 8, 10, 12, 14]).cast::<i32>()
        * w.swizzle([0, 2, 4, 6, 8, 10, 12, 14]).cast::<i32>()
        + x.swizzle([1, 3, 5, 7, 9, 11, 13, 15]).cast::<i32>()
            * w.swizzle([1, 3, 5, 7, 9, 11, 13, 15]).cast::<i32>();
    m.extract::<0, 4>() + m.extract::<4, 4>()
}

/// Pair i of a row.
#[inline(always)]
fn pair_of<const W: usize>(row: &[i16; W], i: usize) -> &[i16; 2]
    requires { 2 * i + 2 ≤ W }
    ensures { result.now ≡ pair_of row.now i }
{
    let numbers = &row[..];
    let (pairs, _) = numbers[2 * i..2 * i + 2].as_chunks::<2>();
    &pairs[0]
}

/// Sums of the products of four numbers of column i: those of the rows p and p + 1, which have
/// pairs.
#[inline(always)]
pub(crate) fn lane_sums<const W: usize, const P: usize>(
    rows: &[[i16; W]; P],
    p: usize,
    i: usize,
    weights: &[i16; 16],
) -> i32x4
    requires rows { p + 2 ≤ P }
    requires columns { 2 * i + 2 ≤ W }
    requires w_most { W ≤ 128 }
    requires p_most { P ≤ 128 }
    requires numbers { (r : ℕ) → r < 4 → FitsSigned w16 (in_pairs rows.now i (2 * p + r)) }
    requires weights { Numbers weights.now }
    ensures { FourLanes (lane_sum weights.now rows.now i (2 * p)) result }
{
    quads(pair_of(&rows[p], i), pair_of(&rows[p + 1], i), weights)
}

/// The differences of lanes, in the other order.
#[inline(always)]
pub(crate) fn mirrored_differences(a: i32x4, b: i32x4) -> i32x4
    ensures { (f g : ℕ → ℤ) → FourLanes f a → FourLanes g b →
        FourLanes (λ j. f (3 - j) -ℤ g (3 - j)) result }
{
    (a - b).swizzle([3, 2, 1, 0])
}
