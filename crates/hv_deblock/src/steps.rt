//! Steps: what is added to a sample, and taken from the one across the edge.

ghost use Rattle.std.specs.Prelude.{◌≡◌, ◌≤◌, pos, neg_ℤ, ◌+ℤ◌, ◌-ℤ◌, ◌*ℤ◌, unsigned_abs};
ghost use Rattle.std.specs.Int.{int_shr};
ghost use Rattle.hv_lemmas.specs.Clipping.{clip1};
ghost use Rattle.hv_deblock_model.specs.EdgeFilters.{clip_to};

/// `a - b`.
#[inline(always)]
pub(crate) fn difference(a: u8, b: u8) -> i32
    ensures value { result ≡ pos a -ℤ pos b }
    ensures most { unsigned_abs result ≤ 255 }
{
    i32::from(a) - i32::from(b)
}

/// The step of luma, before it is clipped, by the differences of q0 and p0 and of q1 and p1.
#[inline(always)]
pub(crate) fn luma_step(first: i32, second: i32) -> i32
    requires first { unsigned_abs first ≤ 255 }
    requires second { unsigned_abs second ≤ 255 }
    ensures value { result ≡ int_shr (pos 9 *ℤ first -ℤ pos 3 *ℤ second +ℤ pos 8) 4 }
    ensures most { unsigned_abs result ≤ 4096 }
{
    (9 * first - 3 * second + 8) >> 4
}

/// The step of chroma, before it is clipped, by the differences of q0 and p0 and of p1 and q1.
#[inline(always)]
pub(crate) fn chroma_step(first: i32, second: i32) -> i32
    requires first { unsigned_abs first ≤ 255 }
    requires second { unsigned_abs second ≤ 255 }
    ensures { result ≡ int_shr (pos 4 *ℤ first +ℤ second +ℤ pos 4) 3 }
{
    (4 * first + second + 4) >> 3
}

/// Half of a difference and a step, rounded down.
#[inline(always)]
pub(crate) fn half_of_sum(difference: i32, step: i32) -> i32
    requires difference { unsigned_abs difference ≤ 255 }
    requires step { unsigned_abs step ≤ 24 }
    ensures { result ≡ int_shr (difference +ℤ step) 1 }
{
    (difference + step) >> 1
}

/// Cut to -`tc` to `tc`.
#[inline(always)]
pub(crate) fn clip_to(tc: u8, value: i32) -> i32
    requires tc { tc ≤ 24 }
    ensures value { result ≡ clip_to tc value }
    ensures most { unsigned_abs result ≤ 24 }
{
    let most = i32::from(tc);
    value.clamp(-most, most)
}

/// The step of the other side.
#[inline(always)]
pub(crate) fn turned_step(step: i32) -> i32
    requires { unsigned_abs step ≤ 24 }
    ensures value { result ≡ neg_ℤ step }
    ensures most { unsigned_abs result ≤ 24 }
{
    -step
}

/// A sample and a step, cut to a byte (`Clip1`).
#[inline(always)]
pub(crate) fn moved(sample: u8, step: i32) -> u8
    requires { unsigned_abs step ≤ 24 }
    ensures { result ≡ clip1 (pos sample +ℤ step) }
{
    (i32::from(sample) + step).clamp(0, 255) as u8
}
