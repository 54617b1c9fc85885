//! Columns of a block as rows.
//!
//! A block of 8 or 16 columns is turned by steps that each move the lowest bit of a sample's place
//! to the top: as many of them as a column's number has bits exchange column and row. A step takes
//! two runs of 16 samples in turn, one from each half of the block. One of 32 is turned by tiles.

ghost use Rattle.std.specs.Prelude.{◌≡◌, ℕ, ◌+◌, ◌*◌, ◌/◌, ◌%◌, ◌<◌, ◌≤◌, ◌++◌, length, slice_index};
ghost use Rattle.hv_intra.specs.Blocks.{IsRow, HasRows};
ghost use Rattle.hv_intra.specs.Turns.{lowest_to_top, woven, in_turn, of_tile, of_tiles};

use crate::lanes::copy_run;
use std::simd::prelude::*;

/// The samples of a block of 4x4, turned.
#[inline(always)]
pub(crate) fn turn_4(columns: &[u8], out: &mut [u8])
    requires columns { length columns.now ≡ 16 }
    requires room { length out.old ≡ 16 }
    ensures { HasRows 4 4 (λ x y. slice_index columns.now (x * 4 + y)) out.new }
{
    u8x16::from_slice(columns)
        .swizzle([0, 4, 8, 12, 1, 5, 9, 13, 2, 6, 10, 14, 3, 7, 11, 15])
        .copy_to_slice(out);
}

/// The first halves of two runs, in turn.
#[inline(always)]
fn weave_first(first: &[u8], second: &[u8], out: &mut [u8])
    requires first { length first.now ≡ 16 }
    requires second { length second.now ≡ 16 }
    requires room { length out.old ≡ 16 }
    ensures { IsRow 16 (woven first.now second.now 0) out.new }
{
    u8x16::from_slice(first)
        .shuffle(
            u8x16::from_slice(second),
            [0, 16, 1, 17, 2, 18, 3, 19, 4, 20, 5, 21, 6, 22, 7, 23],
        )
        .copy_to_slice(out);
}

/// The last halves of two runs, in turn.
#[inline(always)]
fn weave_last(first: &[u8], second: &[u8], out: &mut [u8])
    requires first { length first.now ≡ 16 }
    requires second { length second.now ≡ 16 }
    requires room { length out.old ≡ 16 }
    ensures { IsRow 16 (woven first.now second.now 8) out.new }
{
    u8x16::from_slice(first)
        .shuffle(
            u8x16::from_slice(second),
            [8, 24, 9, 25, 10, 26, 11, 27, 12, 28, 13, 29, 14, 30, 15, 31],
        )
        .copy_to_slice(out);
}

/// Moves the lowest bit of each sample's place to the top, in a block of AREA samples. That AREA is
/// a constant lets the compiler keep a whole block in lanes.
#[inline(always)]
fn step<const AREA: usize>(from: &[u8], to: &mut [u8])
    requires area { length from.now ≡ AREA }
    requires runs { 32 * (AREA / 32) ≡ AREA }
    requires most { AREA ≤ 256 }
    requires alike { length to.old ≡ AREA }
    ensures { IsRow AREA (λ j. slice_index from.now (lowest_to_top AREA j)) to.new }
{
    let half = AREA / 2;
    for i in 0..AREA / 32 {
        let first = &from[16 * i..16 * i + 16];
        let second = &from[half + 16 * i..half + 16 * i + 16];
        weave_first(first, second, &mut to[32 * i..32 * i + 16]);
        weave_last(first, second, &mut to[32 * i + 16..32 * i + 32]);
    }
}

/// Two rows of 8 samples, in turn.
#[inline(always)]
fn weave_rows(first: &[u8], second: &[u8], out: &mut [u8])
    requires first { length first.now ≡ 8 }
    requires second { length second.now ≡ 8 }
    requires room { length out.old ≡ 16 }
    ensures { IsRow 16 (in_turn first.now second.now) out.new }
{
    u8x8::from_slice(first)
        .shuffle(
            u8x8::from_slice(second),
            [0, 8, 1, 9, 2, 10, 3, 11, 4, 12, 5, 13, 6, 14, 7, 15],
        )
        .copy_to_slice(out);
}

/// A step over a block of 8x8, by its rows: they were stored one by one, and are loaded so.
#[inline(always)]
fn step_by_rows(from: &[u8], to: &mut [u8; 64])
    requires { length from.now ≡ 64 }
    ensures { IsRow 64 (λ j. slice_index from.now (lowest_to_top 64 j)) to.new }
{
    for i in 0..4 {
        weave_rows(
            &from[8 * i..8 * i + 8],
            &from[32 + 8 * i..40 + 8 * i],
            &mut to[16 * i..16 * i + 16],
        );
    }
}

/// A block of 8x8, turned.
#[inline(always)]
pub(crate) fn turn_8(columns: &[u8], out: &mut [u8])
    requires columns { length columns.now ≡ 64 }
    requires room { length out.old ≡ 64 }
    ensures { HasRows 8 8 (λ x y. slice_index columns.now (x * 8 + y)) out.new }
{
    let mut once = [0; 64];
    let mut twice = [0; 64];
    step_by_rows(columns, &mut once);
    step::<64>(&once, &mut twice);
    step::<64>(&twice, out);
}

/// A block of 16x16, turned.
#[inline(always)]
pub(crate) fn turn_16(columns: &[u8], out: &mut [u8])
    requires columns { length columns.now ≡ 256 }
    requires room { length out.old ≡ 256 }
    ensures { HasRows 16 16 (λ x y. slice_index columns.now (x * 16 + y)) out.new }
{
    let mut once = [0; 256];
    let mut twice = [0; 256];
    let mut thrice = [0; 256];
    step::<256>(columns, &mut once);
    step::<256>(&once, &mut twice);
    step::<256>(&twice, &mut thrice);
    step::<256>(&thrice, out);
}

/// The sixteen columns of a block of 32x32 from one on, from a row on.
#[inline(always)]
fn take_tile(columns: &[u8], column: usize, row: usize, tile: &mut [u8; 256])
    requires columns { length columns.now ≡ 1024 }
    requires column { column ≤ 16 }
    requires row { row ≤ 16 }
    ensures { IsRow 256 (of_tile columns.now column row) tile.new }
{
    for i in 0..16 {
        let at = 32 * (column + i) + row;
        copy_run::<16>(&columns[at..at + 16], &mut tile[16 * i..16 * i + 16]);
    }
}

/// The rows of two tiles, one beside the other.
#[inline(always)]
fn join_tiles(first: &[u8; 256], second: &[u8; 256], out: &mut [u8])
    requires { length out.old ≡ 512 }
    ensures { IsRow 512 (of_tiles first.now second.now) out.new }
{
    for i in 0..16 {
        copy_run::<16>(&first[16 * i..16 * i + 16], &mut out[32 * i..32 * i + 16]);
        copy_run::<16>(
            &second[16 * i..16 * i + 16],
            &mut out[32 * i + 16..32 * i + 32],
        );
    }
}

/// A tile of a block of 32x32, turned.
#[inline(always)]
fn turn_tile(columns: &[u8], column: usize, row: usize, out: &mut [u8; 256])
    requires columns { length columns.now ≡ 1024 }
    requires column { column ≤ 16 }
    requires row { row ≤ 16 }
    ensures { HasRows 16 16 (λ x y. slice_index columns.now (32 * (column + x) + row + y)) out.new }
{
    let mut tile = [0; 256];
    take_tile(columns, column, row, &mut tile);
    turn_16(&tile, out);
}

/// Sixteen rows of a block of 32x32 from its columns.
#[inline(always)]
fn turn_rows(columns: &[u8], row: usize, out: &mut [u8])
    requires columns { length columns.now ≡ 1024 }
    requires row { row ≤ 16 }
    requires room { length out.old ≡ 512 }
    ensures { HasRows 32 16 (λ x y. slice_index columns.now (x * 32 + (row + y))) out.new }
{
    let mut first = [0; 256];
    let mut second = [0; 256];
    turn_tile(columns, 0, row, &mut first);
    turn_tile(columns, 16, row, &mut second);
    join_tiles(&first, &second, out);
}

/// A block of 32x32, turned.
#[inline(always)]
pub(crate) fn turn_32(columns: &[u8], out: &mut [u8])
    requires columns { length columns.now ≡ 1024 }
    requires room { length out.old ≡ 1024 }
    ensures { HasRows 32 32 (λ x y. slice_index columns.now (x * 32 + y)) out.new }
{
    turn_rows(columns, 0, &mut out[0..512]);
    turn_rows(columns, 16, &mut out[512..1024]);
}
