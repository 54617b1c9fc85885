//! Blocks that are 0 outside their first eight columns and rows, and coefficients of 16 bits.
ghost use Rattle.std.specs.Prelude.{ℕ, true, ◌+◌, ◌-◌, ◌*◌, ◌/◌, ◌≡◌, ◌<◌, ◌≤◌, length, pos};
ghost use Rattle.hv_lanes.specs.Passes.{HasFirst};
ghost use Rattle.hv_lanes.specs.Ranges.{Have16Bits};
ghost use Rattle.hv_lanes.specs.Lanes.{at, Numbers, IsShort};

use hv_lanes::have_other_than_0;
use std::simd::prelude::*;

/// Eight numbers of 16 bits, in lanes of that width.
#[inline(always)]
fn narrow_eight(numbers: &[i32], out: &mut [i16])
    requires eight { length numbers.now ≡ 8 }
    requires range { Have16Bits numbers.now }
    requires room { length out.old ≡ 8 }
    ensures { out.new ≡ numbers.now }
{
    i32x8::from_slice(numbers)
        .simd_clamp(i32x8::splat(-32768), i32x8::splat(32767))
        .cast::<i16>()
        .copy_to_slice(out);
}

/// Numbers of 16 bits, in that width.
#[inline(always)]
pub(crate) fn narrow(numbers: &[i32], out: &mut [i16])
    requires eights { 8 * (length numbers.now / 8) ≡ length numbers.now }
    requires most { length numbers.now ≤ 1024 }
    requires range { Have16Bits numbers.now }
    requires room { length out.old ≡ length numbers.now }
    ensures { HasFirst (length numbers.now) (at numbers.now) out.new }
{
    for g in 0..numbers.len() / 8 {
        narrow_eight(&numbers[8 * g..8 * g + 8], &mut out[8 * g..8 * g + 8]);
    }
}

/// Whether the first rows of a block of N columns are 0 behind their first eight numbers.
#[inline(always)]
fn are_narrow<const N: usize>(block: &[i16]) -> bool
    requires some { 8 ≤ N }
    requires most { N ≤ 32 }
    requires whole { length block.now ≡ N * N }
    requires numbers { Numbers block.now }
    ensures { result ≡ true → (y x : ℕ) → y < 8 → 8 ≤ x → x < N → at block.now (y * N + x) ≡ pos 0 }
{
    for y in 0..8 {
        if have_other_than_0(&block[y * N + 8..y * N + N]) {
            return false;
        }
    }
    true
}

/// Whether a block of N columns is 0 outside its first eight columns and rows.
#[inline(always)]
pub(crate) fn is_corner<const N: usize>(block: &[i16]) -> bool
    requires some { 8 ≤ N }
    requires most { N ≤ 32 }
    requires whole { length block.now ≡ N * N }
    requires numbers { Numbers block.now }
    ensures rows { result ≡ true → IsShort N block.now }
    ensures columns { result ≡ true →
        (y x : ℕ) → y < 8 → 8 ≤ x → x < N → at block.now (y * N + x) ≡ pos 0 }
{
    !have_other_than_0(&block[8 * N..N * N]) && are_narrow::<N>(block)
}
