//! Sums over columns of coefficients, in even and odd halves.
//!
//! The rows have pairs of coefficients, in the order that `in_order` says. The sums of 2m places
//! use those of m places for the coefficients with even numbers: place n is the sum of both halves,
//! and place 2m - 1 - n their difference.
ghost use Rattle.std.specs.Prelude.{true, ◌+◌, ◌*◌, ◌≡◌, ◌<◌, ◌≤◌, ◌+ℤ◌};
ghost use Rattle.hv_lanes.specs.Lanes.{Numbers, FourLanes};
ghost use Rattle.hv_transform.specs.Columns.{HaveBits, AreFew, two_sums, numbers_from, ColumnSums, HasWeights};

use crate::products::{lane_sums, mirrored_differences};
use hv_lanes::sums;
use std::simd::prelude::*;

/// Sums of the products of 8 numbers of column i, from those of row p on. The last four are 0 if
/// they are few.
#[inline(always)]
fn sums_of_8<const W: usize, const P: usize, const FEW: bool>(
    rows: &[[i16; W]; P],
    p: usize,
    i: usize,
    first: &[i16; 16],
    second: &[i16; 16],
) -> i32x4
    requires rows { p + 4 ≤ P }
    requires columns { 2 * i + 2 ≤ W }
    requires w_most { W ≤ 128 }
    requires p_most { P ≤ 128 }
    requires numbers { HaveBits 8 rows.now i p }
    requires few { FEW ≡ true → AreFew 8 rows.now i p }
    requires first { Numbers first.now }
    requires second { Numbers second.now }
    ensures { FourLanes (two_sums first.now second.now rows.now i p) result }
{
    if FEW {
        lane_sums(rows, p, i, first)
    } else {
        sums(
            lane_sums(rows, p, i, first),
            lane_sums(rows, p + 2, i, second),
        )
    }
}

/// Sums of the products of 16 numbers of column i, from those of row p on. All but four are 0 if
/// they are few.
#[inline(always)]
fn sums_of_16<const W: usize, const P: usize, const FEW: bool>(
    rows: &[[i16; W]; P],
    p: usize,
    i: usize,
    first: &[i16; 16],
    second: &[i16; 16],
    third: &[i16; 16],
    fourth: &[i16; 16],
) -> i32x4
    requires rows { p + 8 ≤ P }
    requires columns { 2 * i + 2 ≤ W }
    requires w_most { W ≤ 128 }
    requires p_most { P ≤ 128 }
    requires numbers { HaveBits 16 rows.now i p }
    requires few { FEW ≡ true → AreFew 16 rows.now i p }
    requires first { Numbers first.now }
    requires second { Numbers second.now }
    requires third { Numbers third.now }
    requires fourth { Numbers fourth.now }
    ensures { FourLanes (λ j. two_sums first.now second.now rows.now i p j +ℤ
        two_sums third.now fourth.now rows.now i (p + 4) j) result }
{
    if FEW {
        lane_sums(rows, p, i, first)
    } else {
        sums(
            sums_of_8::<W, P, false>(rows, p, i, first, second),
            sums_of_8::<W, P, false>(rows, p + 4, i, third, fourth),
        )
    }
}

/// The sums over column i of 8, from row p on, in fours.
#[inline(always)]
pub(crate) fn column_of_8<const W: usize, const P: usize, const T: usize>(
    rows: &[[i16; W]; P],
    p: usize,
    i: usize,
    table: &[[i16; 16]; T],
) -> (i32x4, i32x4)
    requires rows { p + 4 ≤ P }
    requires columns { 2 * i + 2 ≤ W }
    requires w_most { W ≤ 128 }
    requires p_most { P ≤ 128 }
    requires table { 2 ≤ T }
    requires t_most { T ≤ 128 }
    requires numbers { HaveBits 8 rows.now i p }
    requires weights { HasWeights 3 table.now }
    ensures first { ColumnSums 1 (numbers_from rows.now i p) 0 result.0 }
    ensures second { ColumnSums 1 (numbers_from rows.now i p) 4 result.1 }
{
    let even = lane_sums(rows, p + 2, i, &table[0]);
    let odd = lane_sums(rows, p, i, &table[1]);
    (sums(even, odd), mirrored_differences(even, odd))
}

/// The sums over column i of 16, from row p on, in fours. If they are few, the coefficients with
/// numbers from 8 on are 0.
#[inline(always)]
pub(crate) fn column_of_16<const W: usize, const P: usize, const T: usize, const FEW: bool>(
    rows: &[[i16; W]; P],
    p: usize,
    i: usize,
    table: &[[i16; 16]; T],
) -> (i32x4, i32x4, i32x4, i32x4)
    requires rows { p + 8 ≤ P }
    requires columns { 2 * i + 2 ≤ W }
    requires w_most { W ≤ 128 }
    requires p_most { P ≤ 128 }
    requires table { 6 ≤ T }
    requires t_most { T ≤ 128 }
    requires numbers { HaveBits 16 rows.now i p }
    requires few { FEW ≡ true → AreFew 8 rows.now i p }
    requires weights { HasWeights 4 table.now }
    ensures first { ColumnSums 2 (numbers_from rows.now i p) 0 result.0 }
    ensures second { ColumnSums 2 (numbers_from rows.now i p) 4 result.1 }
    ensures third { ColumnSums 2 (numbers_from rows.now i p) 8 result.2 }
    ensures fourth { ColumnSums 2 (numbers_from rows.now i p) 12 result.3 }
{
    let (first, second) = column_of_8(rows, p + 4, i, table);
    let odd_first = sums_of_8::<W, P, FEW>(rows, p, i, &table[2], &table[3]);
    let odd_second = sums_of_8::<W, P, FEW>(rows, p, i, &table[4], &table[5]);
    (
        sums(first, odd_first),
        sums(second, odd_second),
        mirrored_differences(second, odd_second),
        mirrored_differences(first, odd_first),
    )
}

/// The sums over column i of 32, from row p on, in fours. If they are few, the coefficients with
/// numbers from 8 on are 0.
#[inline(always)]
pub(crate) fn column_of_32<const W: usize, const P: usize, const T: usize, const FEW: bool>(
    rows: &[[i16; W]; P],
    p: usize,
    i: usize,
    table: &[[i16; 16]; T],
) -> (i32x4, i32x4, i32x4, i32x4, i32x4, i32x4, i32x4, i32x4)
    requires rows { p + 16 ≤ P }
    requires columns { 2 * i + 2 ≤ W }
    requires w_most { W ≤ 128 }
    requires p_most { P ≤ 128 }
    requires table { 22 ≤ T }
    requires t_most { T ≤ 128 }
    requires numbers { HaveBits 32 rows.now i p }
    requires few { FEW ≡ true → AreFew 16 rows.now i p }
    requires few_others { FEW ≡ true → AreFew 8 rows.now i (p + 8) }
    requires weights { HasWeights 5 table.now }
    ensures { ColumnSums 3 (numbers_from rows.now i p) 0 result.0 ×
        ColumnSums 3 (numbers_from rows.now i p) 4 result.1 ×
        ColumnSums 3 (numbers_from rows.now i p) 8 result.2 ×
        ColumnSums 3 (numbers_from rows.now i p) 12 result.3 ×
        ColumnSums 3 (numbers_from rows.now i p) 16 result.4 ×
        ColumnSums 3 (numbers_from rows.now i p) 20 result.5 ×
        ColumnSums 3 (numbers_from rows.now i p) 24 result.6 ×
        ColumnSums 3 (numbers_from rows.now i p) 28 result.7 }
{
    let (a, b, c, d) = column_of_16::<W, P, T, FEW>(rows, p + 8, i, table);
    let e = sums_of_16::<W, P, FEW>(rows, p, i, &table[6], &table[7], &table[8], &table[9]);
    let f = sums_of_16::<W, P, FEW>(rows, p, i, &table[10], &table[11], &table[12], &table[13]);
    let g = sums_of_16::<W, P, FEW>(rows, p, i, &table[14], &table[15], &table[16], &table[17]);
    let h = sums_of_16::<W, P, FEW>(rows, p, i, &table[18], &table[19], &table[20], &table[21]);
    (
        sums(a, e),
        sums(b, f),
        sums(c, g),
        sums(d, h),
        mirrored_differences(d, h),
        mirrored_differences(c, g),
        mirrored_differences(b, f),
        mirrored_differences(a, e),
    )
}
