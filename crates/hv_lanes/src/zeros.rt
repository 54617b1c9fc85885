//! Whether one of some numbers isn't 0.
ghost use Rattle.std.specs.Prelude.{◌≡◌, ◌+◌, ◌*◌, ◌/◌, length};
ghost use Rattle.std.specs.List.{list_any};
ghost use Rattle.hv_lanes.specs.Ranges.{is_other_than_0};
ghost use Rattle.hv_lanes.specs.Lanes.{Numbers};

use std::simd::prelude::*;

/// Whether one of eight numbers isn't 0.
#[inline(always)]
fn has_other_than_0(numbers: &[i16]) -> bool
    requires eight { length numbers.now ≡ 8 }
    requires numbers { Numbers numbers.now }
    ensures { result ≡ list_any is_other_than_0 numbers.now }
{
    i16x8::from_slice(numbers).simd_ne(i16x8::splat(0)).any()
}

/// Whether a number isn't 0.
#[inline(always)]
fn is_other_than_0(level: i16) -> bool
    ensures { result ≡ is_other_than_0 level }
{
    level != 0
}

/// Whether one of the numbers isn't 0. Mostly the first eight tell.
#[inline(always)]
pub fn have_other_than_0(numbers: &[i16]) -> bool
    requires numbers { Numbers numbers.now }
    ensures { result ≡ list_any is_other_than_0 numbers.now }
{
    let eights = numbers.len() / 8;
    for g in 0..eights {
        if has_other_than_0(&numbers[8 * g..8 * g + 8]) {
            return true;
        }
    }
    for i in 8 * eights..numbers.len() {
        if is_other_than_0(numbers[i]) {
            return true;
        }
    }
    false
}
