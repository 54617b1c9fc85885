//! The angular modes.

ghost use Rattle.std.specs.Prelude.{◌≡◌, ◌+◌, ◌*◌, ◌^◌, ◌<◌, ◌≤◌, length, slice_index};
ghost use Rattle.hv_intra.specs.Blocks.{IsRow, HasRows};
ghost use Rattle.hv_intra.specs.References.{first, part, blended, sample_between};
ghost use Rattle.hv_sample_model.specs.IntraPrediction.{left, above, interpolated};

use crate::lanes::{fill_row_in_lanes, further, prepare, weights_of};
use crate::neighbours::{Neighbours, Side};
use crate::reference::{AngularMode, PLACES, fill_from_above, fill_from_left};
use crate::turn::{turn_4, turn_8, turn_16, turn_32};
use std::simd::prelude::*;

/// The sample between two neighbouring reference samples (8.4.4.2.6).
#[inline(always)]
fn blend(part: u8, a: u8, b: u8) -> u8
    requires { part < 32 }
    ensures { result ≡ blended part a b }
{
    ((u16::from(32 - part) * u16::from(a) + u16::from(part) * u16::from(b) + 16) / 32) as u8
}

/// A row from its first reference sample on.
#[inline(always)]
fn fill_row(reference: &[u8], first: usize, part: u8, row: &mut [u8])
    requires part { part < 32 }
    requires inside { first + length row.old < length reference.now }
    ensures { IsRow (length row.old) (sample_between reference.now first part) row.new }
{
    let n = row.len();
    if part == 0 {
        row.copy_from_slice(&reference[first..first + n]);
    } else {
        for x in 0..n {
            row[x] = blend(part, reference[first + x], reference[first + x + 1]);
        }
    }
}

/// The rows of a block, sample by sample.
#[inline(always)]
fn fill_rows_singly(reference: &[u8; PLACES], side: Side, mode: AngularMode, out: &mut [u8])
    requires { 2 ^ side.log2 * 2 ^ side.log2 ≤ length out.old }
    ensures { HasRows (2 ^ side.log2) (2 ^ side.log2)
        (λ x y. sample_between reference.now (first side.log2 mode.number y)
        (part mode.number y) x) out.new }
{
    let n = side.count();
    for y in 0..n {
        let row = &mut out[y * n..y * n + n];
        fill_row(reference, mode.first(side, y), mode.part(y), row);
    }
}

/// The rows of a block, in lanes, from P places of reference samples. It isn't inlined: what would
/// grow too large with it stays whole.
#[inline(never)]
fn fill_rows_in_lanes<const LOG2: u8, const P: usize>(
    reference: &[u8; PLACES],
    mode: AngularMode,
    out: &mut [u8],
)
    requires least { 3 ≤ LOG2 }
    requires most { LOG2 ≤ 5 }
    requires places { P ≡ 3 * 2 ^ LOG2 + 8 }
    requires room { 2 ^ LOG2 * 2 ^ LOG2 ≤ length out.old }
    ensures { HasRows (2 ^ LOG2) (2 ^ LOG2)
        (λ x y. sample_between reference.now (first LOG2 mode.number y)
        (part mode.number y) x) out.new }
{
    let side = Side { log2: LOG2 };
    let mut bases = [0; P];
    let mut steps = [0; P];
    prepare(reference, side, &mut bases, &mut steps);
    let turn = u16x16::splat(2048 * u16::from(mode.part(0)));
    let mut ways = u16x16::splat(0);
    let n = side.count();
    for y in 0..n {
        ways = further(ways, turn);
        let row = &mut out[y * n..y * n + n];
        fill_row_in_lanes(&bases, &steps, mode.first(side, y), weights_of(ways), row);
    }
}

/// The block by rows, from the reference samples of a mode that predicts from above; of another
/// mode, its columns. The lines of the diagonal and the straight modes meet no place between two
/// samples, so that their rows are copies.
#[inline(always)]
fn fill_rows(reference: &[u8; PLACES], side: Side, mode: AngularMode, out: &mut [u8])
    requires { 2 ^ side.log2 * 2 ^ side.log2 ≤ length out.old }
    ensures { HasRows (2 ^ side.log2) (2 ^ side.log2)
        (λ x y. sample_between reference.now (first side.log2 mode.number y)
        (part mode.number y) x) out.new }
{
    if side.log2 == 2 || mode.number % 8 == 2 {
        fill_rows_singly(reference, side, mode, out);
    } else {
        match side.log2 {
            3 => fill_rows_in_lanes::<3, 32>(reference, mode, out),
            4 => fill_rows_in_lanes::<4, 56>(reference, mode, out),
            _ => fill_rows_in_lanes::<5, 104>(reference, mode, out),
        }
    }
}

/// A mode that predicts from above.
#[inline(always)]
pub(crate) fn predict_from_above(neighbours: Neighbours<'_>, mode: AngularMode, out: &mut [u8])
    requires { length out.old ≡ 2 ^ neighbours.side.log2 * 2 ^ neighbours.side.log2 }
    ensures { HasRows (2 ^ neighbours.entry.side.log2) (2 ^ neighbours.entry.side.log2)
        (λ x y. interpolated (above neighbours.entry.side.log2 neighbours.entry.line.now)
        (left neighbours.entry.side.log2 neighbours.entry.line.now) mode.number x y) out.new }
{
    let mut reference = [0; PLACES];
    fill_from_above(neighbours, mode, &mut reference);
    fill_rows(&reference, neighbours.side, mode, out);
}

/// The rows of a block from its columns.
#[inline(always)]
fn turn(columns: &[u8], side: Side, out: &mut [u8])
    requires columns { length columns.now ≡ 2 ^ side.log2 * 2 ^ side.log2 }
    requires room { length out.old ≡ 2 ^ side.log2 * 2 ^ side.log2 }
    ensures { HasRows (2 ^ side.log2) (2 ^ side.log2)
        (λ x y. slice_index columns.now (x * 2 ^ side.log2 + y)) out.new }
{
    match side.log2 {
        2 => turn_4(columns, out),
        3 => turn_8(columns, out),
        4 => turn_16(columns, out),
        _ => turn_32(columns, out),
    }
}

/// The block by rows, from the reference samples of a mode that predicts from the left: its columns
/// are made as the rows of the other modes are.
#[inline(always)]
fn fill_columns<const AREA: usize>(
    reference: &[u8; PLACES],
    side: Side,
    mode: AngularMode,
    out: &mut [u8],
)
    requires area { AREA ≡ 2 ^ side.log2 * 2 ^ side.log2 }
    requires room { length out.old ≡ AREA }
    ensures { HasRows (2 ^ side.log2) (2 ^ side.log2)
        (λ x y. sample_between reference.now (first side.log2 mode.number x)
        (part mode.number x) y) out.new }
{
    let mut columns = [0; AREA];
    fill_rows(reference, side, mode, &mut columns);
    turn(&columns, side, out);
}

/// A mode that predicts from the left.
#[inline(always)]
pub(crate) fn predict_from_left(neighbours: Neighbours<'_>, mode: AngularMode, out: &mut [u8])
    requires { length out.old ≡ 2 ^ neighbours.side.log2 * 2 ^ neighbours.side.log2 }
    ensures { HasRows (2 ^ neighbours.entry.side.log2) (2 ^ neighbours.entry.side.log2)
        (λ x y. interpolated (left neighbours.entry.side.log2 neighbours.entry.line.now)
        (above neighbours.entry.side.log2 neighbours.entry.line.now) mode.number y x) out.new }
{
    let mut reference = [0; PLACES];
    fill_from_left(neighbours, mode, &mut reference);
    let side = neighbours.side;
    match side.log2 {
        2 => fill_columns::<16>(&reference, side, mode, out),
        3 => fill_columns::<64>(&reference, side, mode, out),
        4 => fill_columns::<256>(&reference, side, mode, out),
        _ => fill_columns::<1024>(&reference, side, mode, out),
    }
}
