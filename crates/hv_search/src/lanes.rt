//! What the kernels do with lanes of samples.
ghost use Rattle.std.specs.Prelude.{◌≡◌, ◌+◌, ◌*◌, ◌≤◌, ◌++◌, min, length, take, drop};
ghost use Rattle.std.specs.Int.{abs_diff};
ghost use Rattle.std.specs.Simd.Lanes.{zip2, sum_l};
ghost use Rattle.hv_kernel.specs.Differences.{sad_of};

use std::simd::Simd;
use std::simd::prelude::*;

#[rattlefmt::skip]
const IN_ORDER_32: [usize; 32] = [
    0, 1, 2, 3, 4, 5, 6, 7, 8, 9, 10, 11, 12, 13, 14, 15,
    16, 17, 18, 19, 20, 21, 22, 23, 24, 25, 26, 27, 28, 29, 30, 31,
];

#[rattlefmt::skip]
const IN_ORDER_64: [usize; 64] = [
    0, 1, 2, 3, 4, 5, 6, 7, 8, 9, 10, 11, 12, 13, 14, 15,
    16, 17, 18, 19, 20, 21, 22, 23, 24, 25, 26, 27, 28, 29, 30, 31,
    32, 33, 34, 35, 36, 37, 38, 39, 40, 41, 42, 43, 44, 45, 46, 47,
    48, 49, 50, 51, 52, 53, 54, 55, 56, 57, 58, 59, 60, 61, 62, 63,
];

/// N samples from a place on.
#[inline(always)]
pub(crate) fn load<const N: usize>(samples: &[u8], at: usize) -> Simd<u8, N>
    requires { at + N ≤ length samples.now }
    ensures { result ≡ take N (drop at samples.now) }
{
    Simd::<u8, N>::from_slice(&samples[at..])
}

/// Both vectors, one after the other.
#[inline(always)]
pub(crate) fn join_16(first: u8x16, second: u8x16) -> u8x32
    ensures { result ≡ first ++ second }
{
    first.shuffle(second, IN_ORDER_32)
}

/// Both vectors, one after the other.
#[inline(always)]
pub(crate) fn join_32(first: u8x32, second: u8x32) -> u8x64
    ensures { result ≡ first ++ second }
{
    first.shuffle(second, IN_ORDER_64)
}

/// How far the lanes are apart.
#[inline(always)]
fn gaps<const N: usize>(a: Simd<u8, N>, b: Simd<u8, N>) -> Simd<u8, N>
    ensures { result ≡ zip2 abs_diff a.entry b.entry }
{
    a.abs_diff(b)
}

/// The sum of the lanes.
#[inline(always)]
pub(crate) fn total<const N: usize>(lanes: Simd<u8, N>) -> u32
    requires { N ≤ 64 }
    ensures value { result ≡ sum_l lanes.entry }
    ensures small { result ≤ 255 * N }
{
    lanes.cast::<u32>().strict_reduce_sum()
}

/// The sum of absolute differences of the lanes.
#[inline(always)]
pub(crate) fn sad_of_lanes<const N: usize>(a: Simd<u8, N>, b: Simd<u8, N>) -> u32
    requires { N ≤ 64 }
    ensures value { result ≡ sad_of a.entry b.entry }
    ensures small { result ≤ 255 * 64 }
{
    total(gaps(a, b))
}

/// Lane by lane, the lesser of both: with a lane of 255 the other, and with one of 0 nothing.
#[inline(always)]
pub(crate) fn masked(a: u8x16, mask: u8x16) -> u8x16
    ensures { result ≡ zip2 min a mask }
{
    a.simd_min(mask)
}
