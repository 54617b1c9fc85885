//! Sums over rows of numbers, in even and odd halves, and their means.
//!
//! The even frequencies of 2m numbers are those of the m sums of numbers that mirror each other,
//! and the odd ones are sums of the products of their m differences.
ghost use Rattle.std.specs.Prelude.{ℕ, ℤ, ◌+◌, ◌*◌, ◌≡◌, ◌<◌, ◌≤◌, length, ◌+ℤ◌};
ghost use Rattle.hv_lanes.specs.Passes.{HasFirst, AreWithin, table_row};
ghost use Rattle.hv_lanes.specs.Lanes.{at, Numbers, FourLanes};
ghost use Rattle.hv_forward.specs.Forward.{EightLanes, HasRowWeights, quarter_sum, sixteen_sums, row_sum, row_mean, rows_mean, in_eights};

use crate::row_lanes::{eight_of, folded, high_quads, interleaved, low_quads};
use hv_lanes::{put_means, sums, weave_eight};
use std::simd::prelude::*;

/// The sums over eight numbers: those of even frequencies, and of odd ones.
#[inline(always)]
fn halves_of_8<const T: usize>(x: i16x8, table: &[[i16; 16]; T]) -> (i32x4, i32x4)
    requires table { 2 ≤ T }
    requires t_most { T ≤ 128 }
    requires weights { HasRowWeights 3 table.now }
    ensures even { (most : ℕ) (c : ℕ → ℤ) → most ≤ 16383 → EightLanes most c x →
        FourLanes (λ j. row_sum 3 c (2 * j)) result.0 }
    ensures odd { (most : ℕ) (c : ℕ → ℤ) → most ≤ 16383 → EightLanes most c x →
        FourLanes (λ j. row_sum 3 c (2 * j + 1)) result.1 }
{
    let (sums, differences) = folded(x, x);
    (
        low_quads(sums, &table[0]),
        low_quads(differences, &table[1]),
    )
}

/// The means of the sums over eight numbers.
#[inline(always)]
fn put_row_of_8<const T: usize>(x: i16x8, table: &[[i16; 16]; T], shift: u32, out: &mut [i16])
    requires table { 2 ≤ T }
    requires t_most { T ≤ 128 }
    requires numbers { EightLanes 4080 (at x) x }
    requires weights { HasRowWeights 3 table.now }
    requires some { 0 < shift }
    requires shift_most { shift ≤ 12 }
    requires room { length out.old ≡ 8 }
    ensures { HasFirst 8 (row_mean 3 (at x) shift) out.new }
{
    let (even, odd) = halves_of_8(x, table);
    let (low, high) = interleaved(even, odd);
    put_means(low, high, shift, out);
}

/// Four sums of the products of eight numbers.
#[inline(always)]
fn eight_products(x: i16x8, first: &[i16; 16], second: &[i16; 16]) -> i32x4
    requires first { Numbers first.now }
    requires second { Numbers second.now }
    ensures { (most : ℕ) (c : ℕ → ℤ) → most ≤ 32767 → EightLanes most c x →
        FourLanes (λ j. quarter_sum first.now c 0 j +ℤ quarter_sum second.now c 1 j) result }
{
    sums(low_quads(x, first), high_quads(x, second))
}

/// The means of the sums over sixteen numbers.
#[inline(always)]
fn put_row_of_16<const T: usize>(
    first: i16x8,
    second: i16x8,
    table: &[[i16; 16]; T],
    shift: u32,
    out: &mut [i16],
)
    requires table { 6 ≤ T }
    requires t_most { T ≤ 128 }
    requires first_numbers { EightLanes 2040 (at first) first }
    requires second_numbers { EightLanes 2040 (at second) second }
    requires weights { HasRowWeights 4 table.now }
    requires some { 0 < shift }
    requires shift_most { shift ≤ 12 }
    requires room { length out.old ≡ 16 }
    ensures { HasFirst 16 (row_mean 4 (in_eights (at first) (at second)) shift) out.new }
{
    let (sums, differences) = folded(first, second);
    let mut even = [0; 8];
    let mut odd = [0; 8];
    put_row_of_8(sums, table, shift, &mut even);
    let low = eight_products(differences, &table[2], &table[3]);
    let high = eight_products(differences, &table[4], &table[5]);
    put_means(low, high, shift, &mut odd);
    weave_eight(&even, &odd, out);
}

/// Four sums of the products of sixteen numbers.
#[inline(always)]
fn sixteen_products<const T: usize>(x: i16x8, y: i16x8, table: &[[i16; 16]; T], at: usize) -> i32x4
    requires table { at + 4 ≤ T }
    requires t_most { T ≤ 128 }
    requires weights { (i : ℕ) → Numbers (table_row table.now i) }
    ensures { (most : ℕ) (c d : ℕ → ℤ) → most ≤ 32767 → EightLanes most c x →
        EightLanes most d y → FourLanes (sixteen_sums table.now at c d) result }
{
    sums(
        eight_products(x, &table[at], &table[at + 1]),
        eight_products(y, &table[at + 2], &table[at + 3]),
    )
}

/// Writes the means of the sums over two rows of 4.
#[inline(always)]
pub(crate) fn put_lines_of_4(lines: &[i16], table: &[[i16; 16]; 2], shift: u32, out: &mut [i16])
    requires eight { length lines.now ≡ 8 }
    requires range { AreWithin 8 255 lines.now }
    requires weights { HasRowWeights 2 table.now }
    requires some { 0 < shift }
    requires shift_most { shift ≤ 12 }
    requires room { length out.old ≡ 8 }
    ensures { HasFirst 8 (rows_mean 2 lines.now shift) out.new }
{
    let x = eight_of(lines);
    let low = low_quads(x, &table[0]);
    let high = high_quads(x, &table[0]);
    put_means(low, high, shift, out);
}

/// Writes the means of the sums over a row of 8.
#[inline(always)]
pub(crate) fn put_line_of_8(line: &[i16], table: &[[i16; 16]; 3], shift: u32, out: &mut [i16])
    requires eight { length line.now ≡ 8 }
    requires range { AreWithin 8 255 line.now }
    requires weights { HasRowWeights 3 table.now }
    requires some { 0 < shift }
    requires shift_most { shift ≤ 12 }
    requires room { length out.old ≡ 8 }
    ensures { HasFirst 8 (row_mean 3 (at line.now) shift) out.new }
{
    put_row_of_8(eight_of(line), table, shift, out);
}

/// Writes the means of the sums over a row of 16.
#[inline(always)]
pub(crate) fn put_line_of_16(line: &[i16], table: &[[i16; 16]; 7], shift: u32, out: &mut [i16])
    requires sixteen { length line.now ≡ 16 }
    requires range { AreWithin 16 255 line.now }
    requires weights { HasRowWeights 4 table.now }
    requires some { 0 < shift }
    requires shift_most { shift ≤ 12 }
    requires room { length out.old ≡ 16 }
    ensures { HasFirst 16 (row_mean 4 (at line.now) shift) out.new }
{
    let first = eight_of(&line[0..8]);
    let second = eight_of(&line[8..16]);
    put_row_of_16(first, second, table, shift, out);
}

/// Writes the means of the sums over a row of 32.
#[inline(always)]
pub(crate) fn put_line_of_32(line: &[i16], table: &[[i16; 16]; 23], shift: u32, out: &mut [i16])
    requires all { length line.now ≡ 32 }
    requires range { AreWithin 32 255 line.now }
    requires weights { HasRowWeights 5 table.now }
    requires some { 0 < shift }
    requires shift_most { shift ≤ 12 }
    requires room { length out.old ≡ 32 }
    ensures { HasFirst 32 (row_mean 5 (at line.now) shift) out.new }
{
    let (sums, differences) = folded(eight_of(&line[0..8]), eight_of(&line[24..32]));
    let (inner_sums, inner_differences) = folded(eight_of(&line[8..16]), eight_of(&line[16..24]));
    let mut even = [0; 16];
    let mut odd = [0; 8];
    let mut last_odd = [0; 8];
    put_row_of_16(sums, inner_sums, table, shift, &mut even);
    let a = sixteen_products(differences, inner_differences, table, 6);
    let b = sixteen_products(differences, inner_differences, table, 10);
    let c = sixteen_products(differences, inner_differences, table, 14);
    let d = sixteen_products(differences, inner_differences, table, 18);
    put_means(a, b, shift, &mut odd);
    put_means(c, d, shift, &mut last_odd);
    weave_eight(&even[0..8], &odd, &mut out[0..16]);
    weave_eight(&even[8..16], &last_odd, &mut out[16..32]);
}
