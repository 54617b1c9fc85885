//! The forward transform of blocks of 4, 8, 16 and 32 columns, in lanes.
ghost use Rattle.std.specs.Prelude.{◌+◌, ◌*◌, ◌≡◌, ◌<◌, ◌≤◌, length};
ghost use Rattle.hv_sample_model.specs.Quantisation.{transformed};
ghost use Rattle.hv_lanes.specs.Ranges.{Have16Bits};
ghost use Rattle.hv_forward.specs.Ranges.{AreDifferences};
ghost use Rattle.hv_lanes.specs.Passes.{HasFirst, AreWithin};
ghost use Rattle.hv_forward.specs.Forward.{HasRowWeights, rows_mean};

use crate::forward_columns::{columns_of_4, columns_of_8, columns_of_16, columns_of_32};
use crate::forward_weights::{
    matrix_4, matrix_8, matrix_16, matrix_32, row_weights_4, row_weights_8, row_weights_16,
    row_weights_32,
};
use crate::orders::{rising_order_of_8, rising_order_of_16, rising_order_of_32};
use crate::row_sums::{put_line_of_8, put_line_of_16, put_line_of_32, put_lines_of_4};
use hv_lanes::{pairs_of_4, weave};

/// A pass over the rows of a block of 4 columns. Row y of what it writes has the frequencies of row
/// y of the block.
#[inline(always)]
fn rows_of_4(block: &[i16], table: &[[i16; 16]; 2], shift: u32, out: &mut [i16])
    requires block { length block.now ≡ 16 }
    requires range { AreWithin 16 255 block.now }
    requires weights { HasRowWeights 2 table.now }
    requires some { 0 < shift }
    requires shift_most { shift ≤ 12 }
    requires room { length out.old ≡ 16 }
    ensures { HasFirst 16 (rows_mean 2 block.now shift) out.new }
{
    put_lines_of_4(&block[0..8], table, shift, &mut out[0..8]);
    put_lines_of_4(&block[8..16], table, shift, &mut out[8..16]);
}

/// The coefficients of a block of 4 columns.
#[inline(never)]
pub(crate) fn forward_4(residual: &[i16], out: &mut [i32])
    requires block { length residual.now ≡ 16 }
    requires range { AreDifferences residual.now }
    requires room { length out.old ≡ 16 }
    ensures value { out.new ≡ transformed 2 residual.now }
    ensures range { Have16Bits out.new }
{
    let mut halfway = [0; 16];
    rows_of_4(residual, row_weights_4(), 1, &mut halfway);
    columns_of_4(&pairs_of_4(&halfway), matrix_4(), 8, out);
}

/// A pass over the rows of a block of 8 columns, as that of 4.
///
/// It has no loop, since the compiler would widen the weights outside it, and the multiplication of
/// pairs would be lost.
#[inline(never)]
fn rows_of_8(block: &[i16], table: &[[i16; 16]; 3], shift: u32, out: &mut [i16])
    requires block { length block.now ≡ 64 }
    requires range { AreWithin 64 255 block.now }
    requires weights { HasRowWeights 3 table.now }
    requires some { 0 < shift }
    requires shift_most { shift ≤ 12 }
    requires room { length out.old ≡ 64 }
    ensures { HasFirst 64 (rows_mean 3 block.now shift) out.new }
{
    put_line_of_8(&block[0..8], table, shift, &mut out[0..8]);
    put_line_of_8(&block[8..16], table, shift, &mut out[8..16]);
    put_line_of_8(&block[16..24], table, shift, &mut out[16..24]);
    put_line_of_8(&block[24..32], table, shift, &mut out[24..32]);
    put_line_of_8(&block[32..40], table, shift, &mut out[32..40]);
    put_line_of_8(&block[40..48], table, shift, &mut out[40..48]);
    put_line_of_8(&block[48..56], table, shift, &mut out[48..56]);
    put_line_of_8(&block[56..64], table, shift, &mut out[56..64]);
}

/// The coefficients of a block of 8 columns.
#[inline(never)]
pub(crate) fn forward_8(residual: &[i16], out: &mut [i32])
    requires block { length residual.now ≡ 64 }
    requires range { AreDifferences residual.now }
    requires room { length out.old ≡ 64 }
    ensures value { out.new ≡ transformed 3 residual.now }
    ensures range { Have16Bits out.new }
{
    let mut halfway = [0; 64];
    let mut rows = [[0; 24]; 4];
    rows_of_8(residual, row_weights_8(), 2, &mut halfway);
    weave::<8, 24, 4, false>(&halfway, rising_order_of_8(), 8, &mut rows);
    columns_of_8(&rows, matrix_8(), 9, out);
}

/// A pass over the rows of a block of 16 columns, as that of 8.
#[inline(never)]
fn rows_of_16(block: &[i16], table: &[[i16; 16]; 7], shift: u32, out: &mut [i16])
    requires block { length block.now ≡ 256 }
    requires range { AreWithin 256 255 block.now }
    requires weights { HasRowWeights 4 table.now }
    requires some { 0 < shift }
    requires shift_most { shift ≤ 12 }
    requires room { length out.old ≡ 256 }
    ensures { HasFirst 256 (rows_mean 4 block.now shift) out.new }
{
    for y in 0..16 {
        put_line_of_16(
            &block[y * 16..y * 16 + 16],
            table,
            shift,
            &mut out[y * 16..y * 16 + 16],
        );
    }
}

/// The coefficients of a block of 16 columns.
#[inline(never)]
pub(crate) fn forward_16(residual: &[i16], out: &mut [i32])
    requires block { length residual.now ≡ 256 }
    requires range { AreDifferences residual.now }
    requires room { length out.old ≡ 256 }
    ensures value { out.new ≡ transformed 4 residual.now }
    ensures range { Have16Bits out.new }
{
    let mut halfway = [0; 256];
    let mut rows = [[0; 40]; 8];
    rows_of_16(residual, row_weights_16(), 3, &mut halfway);
    weave::<16, 40, 8, false>(&halfway, rising_order_of_16(), 16, &mut rows);
    columns_of_16(&rows, matrix_16(), 10, out);
}

/// A pass over the rows of a block of 32 columns, as that of 8.
#[inline(never)]
fn rows_of_32(block: &[i16], table: &[[i16; 16]; 23], shift: u32, out: &mut [i16])
    requires block { length block.now ≡ 1024 }
    requires range { AreWithin 1024 255 block.now }
    requires weights { HasRowWeights 5 table.now }
    requires some { 0 < shift }
    requires shift_most { shift ≤ 12 }
    requires room { length out.old ≡ 1024 }
    ensures { HasFirst 1024 (rows_mean 5 block.now shift) out.new }
{
    for y in 0..32 {
        put_line_of_32(
            &block[y * 32..y * 32 + 32],
            table,
            shift,
            &mut out[y * 32..y * 32 + 32],
        );
    }
}

/// The coefficients of a block of 32 columns.
#[inline(never)]
pub(crate) fn forward_32(residual: &[i16], out: &mut [i32])
    requires block { length residual.now ≡ 1024 }
    requires range { AreDifferences residual.now }
    requires room { length out.old ≡ 1024 }
    ensures value { out.new ≡ transformed 5 residual.now }
    ensures range { Have16Bits out.new }
{
    let mut halfway = [0; 1024];
    let mut rows = [[0; 72]; 16];
    rows_of_32(residual, row_weights_32(), 4, &mut halfway);
    weave::<32, 72, 16, false>(&halfway, rising_order_of_32(), 32, &mut rows);
    columns_of_32(&rows, matrix_32(), 11, out);
}
