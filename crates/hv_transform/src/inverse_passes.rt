//! The passes of the inverse transform, over rows that have coefficients in pairs.
//!
//! Row i of what a pass writes has the means of the sums over column i: so the second pass takes
//! what the first wrote as it stands, and writes the rows of the residual.
ghost use Rattle.std.specs.Prelude.{ℕ, true, ◌+◌, ◌*◌, ◌≡◌, ◌<◌, ◌≤◌, length};
ghost use Rattle.hv_lanes.specs.Passes.{HasFirst};
ghost use Rattle.hv_lanes.specs.Lanes.{Numbers};
ghost use Rattle.hv_transform.specs.Columns.{HasEven, HaveBits, AreFew, HasWeights, numbers_from, column_mean, pass_mean};

use crate::column_sums::{column_of_8, column_of_16, column_of_32};
use crate::products::lane_sums;
use hv_lanes::put_means;

/// The means of the sums over the columns 2 i and 2 i + 1 of 4.
#[inline(always)]
fn rows_of_4(rows: &[[i16; 8]; 2], i: usize, weights: &[i16; 16], shift: u32, out: &mut [i16])
    requires columns { i < 2 }
    requires numbers { (u : ℕ) → u < 4 → HaveBits 4 rows.now u 0 }
    requires weights { HasEven weights.now }
    requires small { Numbers weights.now }
    requires some { 0 < shift }
    requires shift_most { shift ≤ 12 }
    requires room { length out.old ≡ 8 }
    ensures { HasFirst 8 (λ k. pass_mean 0 rows.now shift (8 * i + k)) out.new }
{
    let first = lane_sums(rows, 0, 2 * i, weights);
    let second = lane_sums(rows, 0, 2 * i + 1, weights);
    put_means(first, second, shift, out);
}

/// A pass over 4 columns.
#[inline(always)]
pub(crate) fn pass_4(rows: &[[i16; 8]; 2], table: &[[i16; 16]; 2], shift: u32, out: &mut [i16])
    requires numbers { (i : ℕ) → i < 4 → HaveBits 4 rows.now i 0 }
    requires weights { HasWeights 2 table.now }
    requires some { 0 < shift }
    requires shift_most { shift ≤ 12 }
    requires room { length out.old ≡ 16 }
    ensures { HasFirst 16 (pass_mean 0 rows.now shift) out.new }
{
    rows_of_4(rows, 0, &table[0], shift, &mut out[0..8]);
    rows_of_4(rows, 1, &table[0], shift, &mut out[8..16]);
}

/// The means of the sums over column i of 8.
#[inline(always)]
fn row_of_8<const W: usize>(
    rows: &[[i16; W]; 4],
    i: usize,
    table: &[[i16; 16]; 3],
    shift: u32,
    out: &mut [i16],
)
    requires columns { 2 * i + 2 ≤ W }
    requires w_most { W ≤ 128 }
    requires numbers { HaveBits 8 rows.now i 0 }
    requires weights { HasWeights 3 table.now }
    requires some { 0 < shift }
    requires shift_most { shift ≤ 12 }
    requires room { length out.old ≡ 8 }
    ensures { HasFirst 8 (column_mean 1 (numbers_from rows.now i 0) shift) out.new }
{
    let (first, second) = column_of_8(rows, 0, i, table);
    put_means(first, second, shift, out);
}

/// The means of the sums over column i of 16. If they are few, the coefficients with numbers from 8
/// on are 0.
#[inline(always)]
fn row_of_16<const W: usize, const FEW: bool>(
    rows: &[[i16; W]; 8],
    i: usize,
    table: &[[i16; 16]; 7],
    shift: u32,
    out: &mut [i16],
)
    requires columns { 2 * i + 2 ≤ W }
    requires w_most { W ≤ 128 }
    requires numbers { HaveBits 16 rows.now i 0 }
    requires few_numbers { FEW ≡ true → AreFew 8 rows.now i 0 }
    requires weights { HasWeights 4 table.now }
    requires some { 0 < shift }
    requires shift_most { shift ≤ 12 }
    requires room { length out.old ≡ 16 }
    ensures { HasFirst 16 (column_mean 2 (numbers_from rows.now i 0) shift) out.new }
{
    let (first, second, third, fourth) = column_of_16::<W, 8, 7, FEW>(rows, 0, i, table);
    put_means(first, second, shift, &mut out[0..8]);
    put_means(third, fourth, shift, &mut out[8..16]);
}

/// The means of the sums over column i of 32. If they are few, the coefficients with numbers from 8
/// on are 0.
#[inline(always)]
fn row_of_32<const W: usize, const FEW: bool>(
    rows: &[[i16; W]; 16],
    i: usize,
    table: &[[i16; 16]; 23],
    shift: u32,
    out: &mut [i16],
)
    requires columns { 2 * i + 2 ≤ W }
    requires w_most { W ≤ 128 }
    requires numbers { HaveBits 32 rows.now i 0 }
    requires few_numbers { FEW ≡ true → AreFew 16 rows.now i 0 }
    requires few_others { FEW ≡ true → AreFew 8 rows.now i 8 }
    requires weights { HasWeights 5 table.now }
    requires some { 0 < shift }
    requires shift_most { shift ≤ 12 }
    requires room { length out.old ≡ 32 }
    ensures { HasFirst 32 (column_mean 3 (numbers_from rows.now i 0) shift) out.new }
{
    let (a, b, c, d, e, f, g, h) = column_of_32::<W, 16, 23, FEW>(rows, 0, i, table);
    put_means(a, b, shift, &mut out[0..8]);
    put_means(c, d, shift, &mut out[8..16]);
    put_means(e, f, shift, &mut out[16..24]);
    put_means(g, h, shift, &mut out[24..32]);
}

/// A pass over 8 columns.
///
/// It has no loop, since the compiler would widen the weights outside it, and the multiplication of
/// pairs would be lost.
#[inline(never)]
pub(crate) fn pass_8<const W: usize>(
    rows: &[[i16; W]; 4],
    table: &[[i16; 16]; 3],
    shift: u32,
    out: &mut [i16],
)
    requires wide { 16 ≤ W }
    requires w_most { W ≤ 128 }
    requires numbers { (i : ℕ) → i < 8 → HaveBits 8 rows.now i 0 }
    requires weights { HasWeights 3 table.now }
    requires some { 0 < shift }
    requires shift_most { shift ≤ 12 }
    requires room { length out.old ≡ 64 }
    ensures { HasFirst 64 (pass_mean 1 rows.now shift) out.new }
{
    row_of_8(rows, 0, table, shift, &mut out[0..8]);
    row_of_8(rows, 1, table, shift, &mut out[8..16]);
    row_of_8(rows, 2, table, shift, &mut out[16..24]);
    row_of_8(rows, 3, table, shift, &mut out[24..32]);
    row_of_8(rows, 4, table, shift, &mut out[32..40]);
    row_of_8(rows, 5, table, shift, &mut out[40..48]);
    row_of_8(rows, 6, table, shift, &mut out[48..56]);
    row_of_8(rows, 7, table, shift, &mut out[56..64]);
}

/// A pass over the first columns of 16. If they are few, the coefficients with numbers from 8 on
/// are 0.
#[inline(never)]
pub(crate) fn pass_16<const W: usize, const FEW: bool>(
    rows: &[[i16; W]; 8],
    table: &[[i16; 16]; 7],
    columns: usize,
    shift: u32,
    out: &mut [i16],
)
    requires wide { 2 * columns ≤ W }
    requires w_most { W ≤ 128 }
    requires numbers { (i : ℕ) → i < columns → HaveBits 16 rows.now i 0 }
    requires few_numbers { FEW ≡ true → (i : ℕ) → i < columns → AreFew 8 rows.now i 0 }
    requires weights { HasWeights 4 table.now }
    requires some { 0 < shift }
    requires shift_most { shift ≤ 12 }
    requires room { length out.old ≡ columns * 16 }
    ensures { HasFirst (columns * 16) (pass_mean 2 rows.now shift) out.new }
{
    for i in 0..columns {
        row_of_16::<W, FEW>(rows, i, table, shift, &mut out[i * 16..i * 16 + 16]);
    }
}

/// A pass over the first columns of 32. If they are few, the coefficients with numbers from 8 on
/// are 0.
#[inline(never)]
pub(crate) fn pass_32<const W: usize, const FEW: bool>(
    rows: &[[i16; W]; 16],
    table: &[[i16; 16]; 23],
    columns: usize,
    shift: u32,
    out: &mut [i16],
)
    requires wide { 2 * columns ≤ W }
    requires w_most { W ≤ 128 }
    requires numbers { (i : ℕ) → i < columns → HaveBits 32 rows.now i 0 }
    requires few_numbers { FEW ≡ true → (i : ℕ) → i < columns → AreFew 16 rows.now i 0 }
    requires few_others { FEW ≡ true → (i : ℕ) → i < columns → AreFew 8 rows.now i 8 }
    requires weights { HasWeights 5 table.now }
    requires some { 0 < shift }
    requires shift_most { shift ≤ 12 }
    requires room { length out.old ≡ columns * 32 }
    ensures { HasFirst (columns * 32) (pass_mean 3 rows.now shift) out.new }
{
    for i in 0..columns {
        row_of_32::<W, FEW>(rows, i, table, shift, &mut out[i * 32..i * 32 + 32]);
    }
}
