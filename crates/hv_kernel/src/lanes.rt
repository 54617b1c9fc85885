//! What the kernels do with lanes of samples.
ghost use Rattle.std.specs.Prelude.{◌≡◌, ◌+◌, ◌*◌, ◌^◌, ◌<◌, ◌≤◌, ◌++◌, ℕ, sum, slice_index, length, take, drop};
ghost use Rattle.std.specs.Int.{abs_diff};
ghost use Rattle.std.specs.Simd.Lanes.{zip2, sum_l};
ghost use Rattle.hv_kernel.specs.Differences.{sad_of, ssd_of};

use std::simd::Simd;
use std::simd::prelude::*;

#[rattlefmt::skip]
const IN_ORDER_32: [usize; 32] = [
    0, 1, 2, 3, 4, 5, 6, 7, 8, 9, 10, 11, 12, 13, 14, 15,
    16, 17, 18, 19, 20, 21, 22, 23, 24, 25, 26, 27, 28, 29, 30, 31,
];

#[rattlefmt::skip]
const IN_ORDER_64: [usize; 64] = [
    0, 1, 2, 3, 4, 5, 6, 7, 8, 9, 10, 11, 12, 13, 14, 15,
    16, 17, 18, 19, 20, 21, 22, 23, 24, 25, 26, 27, 28, 29, 30, 31,
    32, 33, 34, 35, 36, 37, 38, 39, 40, 41, 42, 43, 44, 45, 46, 47,
    48, 49, 50, 51, 52, 53, 54, 55, 56, 57, 58, 59, 60, 61, 62, 63,
];

/// N samples from a place on.
#[inline(always)]
pub(crate) fn load<const N: usize>(samples: &[u8], at: usize) -> Simd<u8, N>
    requires { at + N ≤ length samples.now }
    ensures { result ≡ take N (drop at samples.now) }
{
    Simd::<u8, N>::from_slice(&samples[at..])
}

/// Both vectors, one after the other.
#[inline(always)]
pub(crate) fn join_16(first: u8x16, second: u8x16) -> u8x32
    ensures { result ≡ first ++ second }
{
    first.shuffle(second, IN_ORDER_32)
}

/// Both vectors, one after the other.
#[inline(always)]
pub(crate) fn join_32(first: u8x32, second: u8x32) -> u8x64
    ensures { result ≡ first ++ second }
{
    first.shuffle(second, IN_ORDER_64)
}

/// How far the lanes are apart.
#[inline(always)]
fn gaps<const N: usize>(a: Simd<u8, N>, b: Simd<u8, N>) -> Simd<u8, N>
    ensures { result ≡ zip2 abs_diff a.entry b.entry }
{
    a.abs_diff(b)
}

/// The sum of the lanes.
#[inline(always)]
pub(crate) fn total<const N: usize>(lanes: Simd<u8, N>) -> u32
    requires { N ≤ 64 }
    ensures value { result ≡ sum_l lanes.entry }
    ensures most { result ≤ 255 * N }
{
    lanes.cast::<u32>().strict_reduce_sum()
}

/// The sum of the squares of the lanes.
#[inline(always)]
fn total_of_squares<const N: usize>(lanes: Simd<u8, N>) -> u32
    requires { N ≤ 64 }
    ensures value { result ≡ sum_l (zip2 (λ x y. x * y) lanes.entry lanes.entry) }
    ensures most { result ≤ 255 * 255 * 64 }
{
    let wide = lanes.cast::<u32>();
    wide.strict_mul(wide).strict_reduce_sum()
}

/// The sum of absolute differences of the lanes.
#[inline(always)]
pub(crate) fn sad_of_lanes<const N: usize>(a: Simd<u8, N>, b: Simd<u8, N>) -> u32
    requires { N ≤ 64 }
    ensures value { result ≡ sad_of a.entry b.entry }
    ensures most { result ≤ 255 * 64 }
{
    total(gaps(a, b))
}

/// The sum of squared differences of the lanes.
#[inline(always)]
pub(crate) fn ssd_of_lanes<const N: usize>(a: Simd<u8, N>, b: Simd<u8, N>) -> u32
    requires { N ≤ 64 }
    ensures value { result ≡ ssd_of a.entry b.entry }
    ensures most { result ≤ 255 * 255 * 64 }
{
    total_of_squares(gaps(a, b))
}

/// The sums of each four lanes, from the first on.
#[inline(always)]
pub(crate) fn sums_of_fours(lanes: u8x16) -> u32x4
    ensures value { (j : ℕ) → j < 4 → slice_index result j ≡ sum (take 4 (drop (4 * j) lanes)) }
    ensures most { (j : ℕ) → j < 4 → slice_index result j ≤ 255 * 4 }
    ensures whole { sum_l result ≤ 255 * 16 }
{
    lanes.dot4(u8x16::splat(1))
}

/// Both vectors, lane by lane.
#[inline(always)]
pub(crate) fn add(a: u32x4, b: u32x4) -> u32x4
    requires { sum_l a + sum_l b < 2 ^ 32 }
    ensures value { (j : ℕ) → j < 4 → slice_index result j ≡ slice_index a j + slice_index b j }
    ensures whole { sum_l result ≡ sum_l a + sum_l b }
{
    a.strict_add(b)
}

/// A sum for each lane, with nothing added.
#[inline(always)]
pub(crate) fn no_sums<const N: usize>() -> Simd<u32, N>
    ensures { sum_l result ≡ 0 }
{
    Simd::<u32, N>::splat(0)
}

/// How far the lanes are apart, in 32 bits.
///
/// Both differences wrap, and the smaller is the one that is not negative. The compiler finds the
/// instruction that sums differences in this form, and not in that of `gaps`, where their sums stay
/// in lanes.
#[inline(always)]
fn wide_gaps<const N: usize>(a: Simd<u8, N>, b: Simd<u8, N>) -> Simd<u32, N>
    ensures { result ≡ zip2 abs_diff a.entry b.entry }
{
    let (a, b) = (a.cast::<u32>(), b.cast::<u32>());
    (a - b).simd_min(b - a)
}

/// Adds how far the lanes are apart, each to the sum in its place.
#[inline(always)]
pub(crate) fn add_gaps<const N: usize>(
    sums: Simd<u32, N>,
    a: Simd<u8, N>,
    b: Simd<u8, N>,
) -> Simd<u32, N>
    requires lanes { N ≤ 64 }
    requires room { sum_l sums ≤ 255 * 64 * 64 }
    ensures value { sum_l result ≡ sum_l sums.entry + sad_of a.entry b.entry }
    ensures most { sum_l result ≤ sum_l sums.entry + 255 * 64 }
{
    sums.strict_add(wide_gaps(a, b))
}

/// The sum of all lanes.
#[inline(always)]
pub(crate) fn total_of_sums<const N: usize>(sums: Simd<u32, N>) -> u32
    requires { sum_l sums < 2 ^ 32 }
    ensures { result ≡ sum_l sums.entry }
{
    sums.strict_reduce_sum()
}
