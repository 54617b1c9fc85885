//! Sums over columns of numbers of 16 bits, four columns side by side.
//!
//! The rows have pairs of numbers: row p has those of the rows 2p and 2p + 1 of a block, in turn.
//! Two numbers that mirror each other have a sum of more than 16 bits, so there are no halves here.
ghost use Rattle.std.specs.Prelude.{ℕ, ◌+◌, ◌*◌, ◌^◌, ◌≡◌, ◌<◌, ◌≤◌, All, length, map};
ghost use Rattle.std.specs.Int.RustNames.{unsigned_abs, FitsSigned};
ghost use mir.Syntax.{w16};
ghost use Rattle.hv_sample_model.specs.Quantisation.{rounded};
ghost use Rattle.hv_lanes.specs.Passes.{HasFirst, table_row};
ghost use Rattle.hv_lanes.specs.Lanes.{at, Numbers, FourLanes, in_pairs};
ghost use Rattle.hv_forward.specs.Forward.{entry_quad, column_part, entry_mean, columns_mean, IsLight, HasNumbers};

use hv_lanes::sums;
use std::simd::prelude::*;

/// Four sums of the products of four entries: each has two numbers of both eights.
#[inline(always)]
fn entry_quads(first: &[i16], second: &[i16], entries: &[i16]) -> i32x4
    requires first { length first.now ≡ 8 }
    requires second { length second.now ≡ 8 }
    requires four { length entries.now ≡ 4 }
    requires first_numbers { Numbers first.now }
    requires second_numbers { Numbers second.now }
    requires entries { Numbers entries.now }
    ensures { FourLanes (entry_quad entries.now first.now second.now) result }
{
    let x = i16x8::from_slice(first).shuffle(
        i16x8::from_slice(second),
        [0, 1, 2, 3, 4, 5, 6, 7, 8, 9, 10, 11, 12, 13, 14, 15],
    );
    let w = i16x4::from_slice(entries).swizzle([0, 1, 0, 1, 0, 1, 0, 1, 2, 3, 2, 3, 2, 3, 2, 3]);
    let m = x.swizzle([0, 2, 4, 6, 8, 10, 12, 14]).cast::<i32>()
        * w.swizzle([0, 2, 4, 6, 8, 10, 12, 14]).cast::<i32>()
        + x.swizzle([1, 3, 5, 7, 9, 11, 13, 15]).cast::<i32>()
            * w.swizzle([1, 3, 5, 7, 9, 11, 13, 15]).cast::<i32>();
    m.extract::<0, 4>() + m.extract::<4, 4>()
}

/// Sums of the products of four entries and four numbers of the columns from 4 i on: those of the
/// rows p and p + 1 of pairs.
#[inline(always)]
fn sums_of_4<const W: usize, const P: usize>(
    rows: &[[i16; W]; P],
    p: usize,
    i: usize,
    entries: &[i16],
) -> i32x4
    requires rows { p + 2 ≤ P }
    requires columns { 8 * i + 8 ≤ W }
    requires w_most { W ≤ 128 }
    requires p_most { P ≤ 128 }
    requires four { length entries.now ≡ 4 }
    requires entries { Numbers entries.now }
    requires numbers { (j r : ℕ) → j < 4 → r < 4 →
        FitsSigned w16 (in_pairs rows.now (4 * i + j) (2 * p + r)) }
    ensures { FourLanes (column_part 4 entries.now rows.now i (2 * p)) result }
{
    let first = &rows[p][..];
    let second = &rows[p + 1][..];
    entry_quads(&first[8 * i..8 * i + 8], &second[8 * i..8 * i + 8], entries)
}

/// The same of eight entries and numbers.
#[inline(always)]
fn sums_of_8<const W: usize, const P: usize>(
    rows: &[[i16; W]; P],
    p: usize,
    i: usize,
    entries: &[i16],
) -> i32x4
    requires rows { p + 4 ≤ P }
    requires columns { 8 * i + 8 ≤ W }
    requires w_most { W ≤ 128 }
    requires p_most { P ≤ 128 }
    requires eight { length entries.now ≡ 8 }
    requires entries { Numbers entries.now }
    requires numbers { (j r : ℕ) → j < 4 → r < 8 →
        FitsSigned w16 (in_pairs rows.now (4 * i + j) (2 * p + r)) }
    ensures { FourLanes (column_part 8 entries.now rows.now i (2 * p)) result }
{
    sums(
        sums_of_4(rows, p, i, &entries[0..4]),
        sums_of_4(rows, p + 2, i, &entries[4..8]),
    )
}

/// The same of sixteen.
#[inline(always)]
fn sums_of_16<const W: usize, const P: usize>(
    rows: &[[i16; W]; P],
    p: usize,
    i: usize,
    entries: &[i16],
) -> i32x4
    requires rows { p + 8 ≤ P }
    requires columns { 8 * i + 8 ≤ W }
    requires w_most { W ≤ 128 }
    requires p_most { P ≤ 128 }
    requires sixteen { length entries.now ≡ 16 }
    requires entries { Numbers entries.now }
    requires numbers { (j r : ℕ) → j < 4 → r < 16 →
        FitsSigned w16 (in_pairs rows.now (4 * i + j) (2 * p + r)) }
    ensures { FourLanes (column_part 16 entries.now rows.now i (2 * p)) result }
{
    sums(
        sums_of_8(rows, p, i, &entries[0..8]),
        sums_of_8(rows, p + 4, i, &entries[8..16]),
    )
}

/// The same of thirty-two.
#[inline(always)]
fn sums_of_32<const W: usize, const P: usize>(
    rows: &[[i16; W]; P],
    p: usize,
    i: usize,
    entries: &[i16],
) -> i32x4
    requires rows { p + 16 ≤ P }
    requires columns { 8 * i + 8 ≤ W }
    requires w_most { W ≤ 128 }
    requires p_most { P ≤ 128 }
    requires all { length entries.now ≡ 32 }
    requires entries { Numbers entries.now }
    requires numbers { (j r : ℕ) → j < 4 → r < 32 →
        FitsSigned w16 (in_pairs rows.now (4 * i + j) (2 * p + r)) }
    ensures { FourLanes (column_part 32 entries.now rows.now i (2 * p)) result }
{
    sums(
        sums_of_16(rows, p, i, &entries[0..16]),
        sums_of_16(rows, p + 8, i, &entries[16..32]),
    )
}

/// Writes the means of four lanes, by 2^shift.
#[inline(always)]
fn put_four(lanes: i32x4, shift: u32, out: &mut [i32])
    requires four { length lanes ≡ 4 }
    requires small { All (λ z. unsigned_abs z ≤ 1073741824) lanes }
    requires some { 0 < shift }
    requires shift_most { shift ≤ 12 }
    requires room { length out.old ≡ 4 }
    ensures { out.new ≡ map (λ z. rounded z shift) lanes }
{
    let half = i32x4::splat(1 << (shift - 1));
    ((lanes + half) >> i32x4::splat(shift as i32)).copy_to_slice(out);
}

/// The means of the sums over all columns of 4, at one frequency.
#[inline(always)]
fn put_row_of_4(rows: &[[i16; 8]; 2], entries: &[i16; 4], shift: u32, out: &mut [i32])
    requires numbers { (u r : ℕ) → u < 4 → r < 4 → FitsSigned w16 (in_pairs rows.now u r) }
    requires entries { Numbers entries.now }
    requires light { IsLight 4 entries.now }
    requires some { 0 < shift }
    requires shift_most { shift ≤ 12 }
    requires room { length out.old ≡ 4 }
    ensures { HasFirst 4 (entry_mean 4 entries.now rows.now shift) out.new }
{
    put_four(sums_of_4(rows, 0, 0, &entries[..]), shift, out);
}

/// A pass over 4 columns. Row v of what it writes has frequency v of each column.
#[inline(always)]
pub(crate) fn columns_of_4(
    rows: &[[i16; 8]; 2],
    matrix: &[[i16; 4]; 4],
    shift: u32,
    out: &mut [i32],
)
    requires numbers { (u r : ℕ) → u < 4 → r < 4 → FitsSigned w16 (in_pairs rows.now u r) }
    requires entries { HasNumbers matrix.now }
    requires light { (v : ℕ) → v < 4 → IsLight 4 (table_row matrix.now v) }
    requires some { 0 < shift }
    requires shift_most { shift ≤ 12 }
    requires room { length out.old ≡ 16 }
    ensures { HasFirst 16 (columns_mean 4 matrix.now rows.now shift) out.new }
{
    put_row_of_4(rows, &matrix[0], shift, &mut out[0..4]);
    put_row_of_4(rows, &matrix[1], shift, &mut out[4..8]);
    put_row_of_4(rows, &matrix[2], shift, &mut out[8..12]);
    put_row_of_4(rows, &matrix[3], shift, &mut out[12..16]);
}

/// Writes the means of the sums over four columns of 8 numbers, from column 4 i on.
#[inline(always)]
fn put_four_of_8<const W: usize>(
    rows: &[[i16; W]; 4],
    i: usize,
    entries: &[i16; 8],
    shift: u32,
    out: &mut [i32],
)
    requires columns { 8 * i + 8 ≤ W }
    requires w_most { W ≤ 128 }
    requires numbers { (u r : ℕ) → u < 4 * i + 4 → r < 8 → FitsSigned w16 (in_pairs rows.now u r) }
    requires entries { Numbers entries.now }
    requires light { IsLight 8 entries.now }
    requires some { 0 < shift }
    requires shift_most { shift ≤ 12 }
    requires room { length out.old ≡ 4 }
    ensures count { length out.new ≡ 4 }
    ensures each { (j : ℕ) → j < 4 →
        at out.new j ≡ entry_mean 8 entries.now rows.now shift (4 * i + j) }
{
    put_four(sums_of_8(rows, 0, i, &entries[..]), shift, out);
}

/// The means of the sums over all columns of 8, at one frequency.
#[inline(always)]
fn put_row_of_8(rows: &[[i16; 24]; 4], entries: &[i16; 8], shift: u32, out: &mut [i32])
    requires numbers { (u r : ℕ) → u < 8 → r < 8 → FitsSigned w16 (in_pairs rows.now u r) }
    requires entries { Numbers entries.now }
    requires light { IsLight 8 entries.now }
    requires some { 0 < shift }
    requires shift_most { shift ≤ 12 }
    requires room { length out.old ≡ 8 }
    ensures { HasFirst 8 (entry_mean 8 entries.now rows.now shift) out.new }
{
    put_four_of_8(rows, 0, entries, shift, &mut out[0..4]);
    put_four_of_8(rows, 1, entries, shift, &mut out[4..8]);
}

/// A pass over 8 columns. Row v of what it writes has frequency v of each column.
///
/// It has no loop, since the compiler would widen the numbers outside it, and the multiplication of
/// pairs would be lost.
#[inline(never)]
pub(crate) fn columns_of_8(
    rows: &[[i16; 24]; 4],
    matrix: &[[i16; 8]; 8],
    shift: u32,
    out: &mut [i32],
)
    requires numbers { (u r : ℕ) → u < 8 → r < 8 → FitsSigned w16 (in_pairs rows.now u r) }
    requires entries { HasNumbers matrix.now }
    requires light { (v : ℕ) → v < 8 → IsLight 8 (table_row matrix.now v) }
    requires some { 0 < shift }
    requires shift_most { shift ≤ 12 }
    requires room { length out.old ≡ 64 }
    ensures { HasFirst 64 (columns_mean 8 matrix.now rows.now shift) out.new }
{
    put_row_of_8(rows, &matrix[0], shift, &mut out[0..8]);
    put_row_of_8(rows, &matrix[1], shift, &mut out[8..16]);
    put_row_of_8(rows, &matrix[2], shift, &mut out[16..24]);
    put_row_of_8(rows, &matrix[3], shift, &mut out[24..32]);
    put_row_of_8(rows, &matrix[4], shift, &mut out[32..40]);
    put_row_of_8(rows, &matrix[5], shift, &mut out[40..48]);
    put_row_of_8(rows, &matrix[6], shift, &mut out[48..56]);
    put_row_of_8(rows, &matrix[7], shift, &mut out[56..64]);
}

/// The same of 16 numbers.
#[inline(always)]
fn put_four_of_16<const W: usize>(
    rows: &[[i16; W]; 8],
    i: usize,
    entries: &[i16; 16],
    shift: u32,
    out: &mut [i32],
)
    requires columns { 8 * i + 8 ≤ W }
    requires w_most { W ≤ 128 }
    requires numbers { (u r : ℕ) → u < 4 * i + 4 → r < 16 →
        FitsSigned w16 (in_pairs rows.now u r) }
    requires entries { Numbers entries.now }
    requires light { IsLight 16 entries.now }
    requires some { 0 < shift }
    requires shift_most { shift ≤ 12 }
    requires room { length out.old ≡ 4 }
    ensures count { length out.new ≡ 4 }
    ensures each { (j : ℕ) → j < 4 →
        at out.new j ≡ entry_mean 16 entries.now rows.now shift (4 * i + j) }
{
    put_four(sums_of_16(rows, 0, i, &entries[..]), shift, out);
}

/// The same of 32 numbers.
#[inline(always)]
fn put_four_of_32<const W: usize>(
    rows: &[[i16; W]; 16],
    i: usize,
    entries: &[i16; 32],
    shift: u32,
    out: &mut [i32],
)
    requires columns { 8 * i + 8 ≤ W }
    requires w_most { W ≤ 128 }
    requires numbers { (u r : ℕ) → u < 4 * i + 4 → r < 32 →
        FitsSigned w16 (in_pairs rows.now u r) }
    requires entries { Numbers entries.now }
    requires light { IsLight 32 entries.now }
    requires some { 0 < shift }
    requires shift_most { shift ≤ 12 }
    requires room { length out.old ≡ 4 }
    ensures count { length out.new ≡ 4 }
    ensures each { (j : ℕ) → j < 4 →
        at out.new j ≡ entry_mean 32 entries.now rows.now shift (4 * i + j) }
{
    put_four(sums_of_32(rows, 0, i, &entries[..]), shift, out);
}

/// The means of the sums over all columns of 16, at one frequency.
///
/// It isn't inlined and has no loop, since the compiler would widen the numbers outside the loop
/// over the frequencies, and the multiplication of pairs would be lost.
#[inline(never)]
fn put_row_of_16(rows: &[[i16; 40]; 8], entries: &[i16; 16], shift: u32, out: &mut [i32])
    requires numbers { (u r : ℕ) → u < 16 → r < 16 →
        FitsSigned w16 (in_pairs rows.now u r) }
    requires entries { Numbers entries.now }
    requires light { IsLight 16 entries.now }
    requires some { 0 < shift }
    requires shift_most { shift ≤ 12 }
    requires room { length out.old ≡ 16 }
    ensures { HasFirst 16 (entry_mean 16 entries.now rows.now shift) out.new }
{
    put_four_of_16(rows, 0, entries, shift, &mut out[0..4]);
    put_four_of_16(rows, 1, entries, shift, &mut out[4..8]);
    put_four_of_16(rows, 2, entries, shift, &mut out[8..12]);
    put_four_of_16(rows, 3, entries, shift, &mut out[12..16]);
}

/// The means of the sums over all columns of 32, at one frequency.
///
/// It isn't inlined and has no loop, since the compiler would widen the numbers outside the loop
/// over the frequencies, and the multiplication of pairs would be lost.
#[inline(never)]
fn put_row_of_32(rows: &[[i16; 72]; 16], entries: &[i16; 32], shift: u32, out: &mut [i32])
    requires numbers { (u r : ℕ) → u < 32 → r < 32 →
        FitsSigned w16 (in_pairs rows.now u r) }
    requires entries { Numbers entries.now }
    requires light { IsLight 32 entries.now }
    requires some { 0 < shift }
    requires shift_most { shift ≤ 12 }
    requires room { length out.old ≡ 32 }
    ensures { HasFirst 32 (entry_mean 32 entries.now rows.now shift) out.new }
{
    put_four_of_32(rows, 0, entries, shift, &mut out[0..4]);
    put_four_of_32(rows, 1, entries, shift, &mut out[4..8]);
    put_four_of_32(rows, 2, entries, shift, &mut out[8..12]);
    put_four_of_32(rows, 3, entries, shift, &mut out[12..16]);
    put_four_of_32(rows, 4, entries, shift, &mut out[16..20]);
    put_four_of_32(rows, 5, entries, shift, &mut out[20..24]);
    put_four_of_32(rows, 6, entries, shift, &mut out[24..28]);
    put_four_of_32(rows, 7, entries, shift, &mut out[28..32]);
}

/// A pass over 16 columns, as that over 8.
#[inline(always)]
pub(crate) fn columns_of_16(
    rows: &[[i16; 40]; 8],
    matrix: &[[i16; 16]; 16],
    shift: u32,
    out: &mut [i32],
)
    requires numbers { (u r : ℕ) → u < 16 → r < 16 →
        FitsSigned w16 (in_pairs rows.now u r) }
    requires entries { HasNumbers matrix.now }
    requires light { (v : ℕ) → v < 16 → IsLight 16 (table_row matrix.now v) }
    requires some { 0 < shift }
    requires shift_most { shift ≤ 12 }
    requires room { length out.old ≡ 256 }
    ensures { HasFirst 256 (columns_mean 16 matrix.now rows.now shift) out.new }
{
    for v in 0..16 {
        put_row_of_16(rows, &matrix[v], shift, &mut out[v * 16..v * 16 + 16]);
    }
}

/// A pass over 32 columns, as that over 8.
#[inline(always)]
pub(crate) fn columns_of_32(
    rows: &[[i16; 72]; 16],
    matrix: &[[i16; 32]; 32],
    shift: u32,
    out: &mut [i32],
)
    requires numbers { (u r : ℕ) → u < 32 → r < 32 →
        FitsSigned w16 (in_pairs rows.now u r) }
    requires entries { HasNumbers matrix.now }
    requires light { (v : ℕ) → v < 32 → IsLight 32 (table_row matrix.now v) }
    requires some { 0 < shift }
    requires shift_most { shift ≤ 12 }
    requires room { length out.old ≡ 1024 }
    ensures { HasFirst 1024 (columns_mean 32 matrix.now rows.now shift) out.new }
{
    for v in 0..32 {
        put_row_of_32(rows, &matrix[v], shift, &mut out[v * 32..v * 32 + 32]);
    }
}
