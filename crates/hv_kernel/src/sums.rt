//! Sums of differences over two lists of samples.
ghost use Rattle.std.specs.Prelude.{◌≡◌, ◌+◌, ◌*◌, ◌^◌, ◌<◌, ◌≤◌, length, take};
ghost use Rattle.hv_kernel.specs.Differences.{sad_of, ssd_of};

use crate::lanes::{load, sad_of_lanes, ssd_of_lanes};

/// The sum over the first `at` samples.
#[derive(Clone, Copy)]
struct Begun {
    sum: u64,
    at: usize,
}

/// Adds the absolute differences of runs of N samples, as long as a whole run is left.
#[inline(always)]
fn add_sad_of_runs<const N: usize>(begun: Begun, a: &[u8], b: &[u8]) -> Begun
    requires some { 0 < N }
    requires lanes { N ≤ 64 }
    requires even { length a.now ≡ length b.now }
    requires a_most { length a.now < 2 ^ 32 }
    requires within { begun.at ≤ length a.now }
    requires before { begun.sum ≡ sad_of (take begun.at a.now) (take begun.at b.now) }
    requires begun_most { begun.sum ≤ 255 * 64 * begun.at }
    ensures within { result.at ≤ length a.now }
    ensures value { result.sum ≡ sad_of (take result.at a.now) (take result.at b.now) }
    ensures most { result.sum ≤ 255 * 64 * result.at }
    ensures all { length a.now < result.at + N }
{
    let mut sum = begun.sum;
    let mut at = begun.at;
    while at + N <= a.len() {
        sum += u64::from(sad_of_lanes(load::<N>(a, at), load::<N>(b, at)));
        at += N;
    }
    Begun { sum, at }
}

/// Adds the squared differences of runs of N samples, as long as a whole run is left.
#[inline(always)]
fn add_ssd_of_runs<const N: usize>(begun: Begun, a: &[u8], b: &[u8]) -> Begun
    requires some { 0 < N }
    requires lanes { N ≤ 64 }
    requires even { length a.now ≡ length b.now }
    requires a_most { length a.now < 2 ^ 32 }
    requires within { begun.at ≤ length a.now }
    requires before { begun.sum ≡ ssd_of (take begun.at a.now) (take begun.at b.now) }
    requires begun_most { begun.sum ≤ 255 * 255 * 64 * begun.at }
    ensures within { result.at ≤ length a.now }
    ensures value { result.sum ≡ ssd_of (take result.at a.now) (take result.at b.now) }
    ensures most { result.sum ≤ 255 * 255 * 64 * result.at }
    ensures all { length a.now < result.at + N }
{
    let mut sum = begun.sum;
    let mut at = begun.at;
    while at + N <= a.len() {
        sum += u64::from(ssd_of_lanes(load::<N>(a, at), load::<N>(b, at)));
        at += N;
    }
    Begun { sum, at }
}

/// The sum of absolute differences of two lists of samples of equal length, below 2^32. It takes no
/// memory and always answers.
pub fn sad(a: &[u8], b: &[u8]) -> u64
    requires even { length a.now ≡ length b.now }
    requires most { length a.now < 2 ^ 32 }
    ensures { result ≡ sad_of a.now b.now }
{
    let begun = add_sad_of_runs::<64>(Begun { sum: 0, at: 0 }, a, b);
    let begun = add_sad_of_runs::<16>(begun, a, b);
    add_sad_of_runs::<1>(begun, a, b).sum
}

/// The sum of squared differences of two lists of samples of equal length, below 2^32. It takes no
/// memory and always answers.
pub fn ssd(a: &[u8], b: &[u8]) -> u64
    requires even { length a.now ≡ length b.now }
    requires most { length a.now < 2 ^ 32 }
    ensures { result ≡ ssd_of a.now b.now }
{
    let begun = add_ssd_of_runs::<64>(Begun { sum: 0, at: 0 }, a, b);
    let begun = add_ssd_of_runs::<16>(begun, a, b);
    add_ssd_of_runs::<1>(begun, a, b).sum
}
