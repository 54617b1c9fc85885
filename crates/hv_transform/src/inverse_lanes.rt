//! The inverse transform of blocks of 4, 8, 16 and 32 columns, in lanes.
//!
//! Where all coefficients lie in the first eight columns and rows, as most do, the first pass goes
//! over eight columns, and both passes leave out the products of coefficients that are 0.
ghost use Rattle.std.specs.Prelude.{ℕ, ◌+◌, ◌*◌, ◌≡◌, ◌<◌, ◌≤◌, length, pos};
ghost use Rattle.hv_sample_model.specs.InverseTransform.{inverse_transformed};
ghost use Rattle.hv_lanes.specs.Ranges.{Have16Bits};
ghost use Rattle.hv_lanes.specs.Lanes.{at, Numbers, IsShort};
ghost use Rattle.hv_transform.specs.Columns.{HaveBits, AreFew, pass_mean};
ghost use Rattle.hv_lanes.specs.Passes.{HasFirst};

use crate::corner::{is_corner, narrow};
use crate::inverse_passes::{pass_4, pass_8, pass_16, pass_32};
use crate::lane_weights::{
    first_weights_4, first_weights_8, first_weights_16, first_weights_32, second_weights_4,
    second_weights_8, second_weights_16, second_weights_32,
};
use crate::orders::{order_of_8, order_of_16, order_of_32};
use hv_lanes::{pairs_of_4, weave};

/// The residual of a block of 4 columns.
#[inline(never)]
pub(crate) fn inverse_4(coefficients: &[i32], out: &mut [i16])
    requires block { length coefficients.now ≡ 16 }
    requires range { Have16Bits coefficients.now }
    requires room { length out.old ≡ 16 }
    ensures { out.new ≡ inverse_transformed 2 coefficients.now }
{
    let mut block = [0; 16];
    let mut halfway = [0; 16];
    narrow(coefficients, &mut block);
    pass_4(&pairs_of_4(&block), first_weights_4(), 7, &mut halfway);
    pass_4(&pairs_of_4(&halfway), second_weights_4(), 12, out);
}

/// The residual of a block of 8 columns.
#[inline(never)]
pub(crate) fn inverse_8(coefficients: &[i32], out: &mut [i16])
    requires block { length coefficients.now ≡ 64 }
    requires range { Have16Bits coefficients.now }
    requires room { length out.old ≡ 64 }
    ensures { out.new ≡ inverse_transformed 3 coefficients.now }
{
    let mut block = [0; 64];
    let mut halfway = [0; 64];
    let mut rows = [[0; 24]; 4];
    let mut turned = [[0; 24]; 4];
    narrow(coefficients, &mut block);
    weave::<8, 24, 4, false>(&block, order_of_8(), 8, &mut rows);
    pass_8(&rows, first_weights_8(), 7, &mut halfway);
    weave::<8, 24, 4, false>(&halfway, order_of_8(), 8, &mut turned);
    pass_8(&turned, second_weights_8(), 12, out);
}

/// The residual of a block of 16 columns.
#[inline(always)]
fn whole_16(block: &[i16], out: &mut [i16])
    requires block { length block.now ≡ 256 }
    requires numbers { Numbers block.now }
    requires room { length out.old ≡ 256 }
    ensures { out.new ≡ inverse_transformed 4 block.now }
{
    let mut halfway = [0; 256];
    let mut rows = [[0; 40]; 8];
    let mut turned = [[0; 40]; 8];
    weave::<16, 40, 8, false>(block, order_of_16(), 16, &mut rows);
    pass_16::<40, false>(&rows, first_weights_16(), 16, 7, &mut halfway);
    weave::<16, 40, 8, false>(&halfway, order_of_16(), 16, &mut turned);
    pass_16::<40, false>(&turned, second_weights_16(), 16, 12, out);
}

/// The first pass over the first eight columns of 16, whose coefficients with numbers from 8 on are
/// 0.
#[inline(always)]
fn first_columns_16(rows: &[[i16; 40]; 8], out: &mut [i16])
    requires numbers { (i : ℕ) → i < 8 → HaveBits 16 rows.now i 0 }
    requires few { (i : ℕ) → i < 8 → AreFew 8 rows.now i 0 }
    requires room { length out.old ≡ 256 }
    requires clear { (k : ℕ) → at out.old k ≡ pos 0 }
    ensures first { HasFirst 128 (pass_mean 2 rows.now 7) out.new }
    ensures rest { (k : ℕ) → 128 ≤ k → at out.new k ≡ pos 0 }
{
    pass_16::<40, true>(rows, first_weights_16(), 8, 7, &mut out[0..128]);
}

/// The residual of a block of 16 columns that is 0 outside its first eight columns and rows.
#[inline(never)]
fn corner_16(block: &[i16], out: &mut [i16])
    requires block { length block.now ≡ 256 }
    requires numbers { Numbers block.now }
    requires rows { IsShort 16 block.now }
    requires columns { (y x : ℕ) → y < 8 → 8 ≤ x → x < 16 → at block.now (y * 16 + x) ≡ pos 0 }
    requires room { length out.old ≡ 256 }
    ensures { out.new ≡ inverse_transformed 4 block.now }
{
    let mut halfway = [0; 256];
    let mut rows = [[0; 40]; 8];
    let mut turned = [[0; 40]; 8];
    weave::<16, 40, 8, true>(block, order_of_16(), 8, &mut rows);
    first_columns_16(&rows, &mut halfway);
    weave::<16, 40, 8, true>(&halfway, order_of_16(), 16, &mut turned);
    pass_16::<40, true>(&turned, second_weights_16(), 16, 12, out);
}

/// The residual of a block of 16 columns.
#[inline(never)]
pub(crate) fn inverse_16(coefficients: &[i32], out: &mut [i16])
    requires block { length coefficients.now ≡ 256 }
    requires range { Have16Bits coefficients.now }
    requires room { length out.old ≡ 256 }
    ensures { out.new ≡ inverse_transformed 4 coefficients.now }
{
    let mut block = [0; 256];
    narrow(coefficients, &mut block);
    if is_corner::<16>(&block) {
        corner_16(&block, out);
    } else {
        whole_16(&block, out);
    }
}

/// The residual of a block of 32 columns.
#[inline(always)]
fn whole_32(block: &[i16], out: &mut [i16])
    requires block { length block.now ≡ 1024 }
    requires numbers { Numbers block.now }
    requires room { length out.old ≡ 1024 }
    ensures { out.new ≡ inverse_transformed 5 block.now }
{
    let mut halfway = [0; 1024];
    let mut rows = [[0; 72]; 16];
    let mut turned = [[0; 72]; 16];
    weave::<32, 72, 16, false>(block, order_of_32(), 32, &mut rows);
    pass_32::<72, false>(&rows, first_weights_32(), 32, 7, &mut halfway);
    weave::<32, 72, 16, false>(&halfway, order_of_32(), 32, &mut turned);
    pass_32::<72, false>(&turned, second_weights_32(), 32, 12, out);
}

/// The first pass over the first eight columns of 32, whose coefficients with numbers from 8 on are
/// 0.
#[inline(always)]
fn first_columns_32(rows: &[[i16; 72]; 16], out: &mut [i16])
    requires numbers { (i : ℕ) → i < 8 → HaveBits 32 rows.now i 0 }
    requires few { (i : ℕ) → i < 8 → AreFew 16 rows.now i 0 }
    requires few_others { (i : ℕ) → i < 8 → AreFew 8 rows.now i 8 }
    requires room { length out.old ≡ 1024 }
    requires clear { (k : ℕ) → at out.old k ≡ pos 0 }
    ensures first { HasFirst 256 (pass_mean 3 rows.now 7) out.new }
    ensures rest { (k : ℕ) → 256 ≤ k → at out.new k ≡ pos 0 }
{
    pass_32::<72, true>(rows, first_weights_32(), 8, 7, &mut out[0..256]);
}

/// The residual of a block of 32 columns that is 0 outside its first eight columns and rows.
#[inline(never)]
fn corner_32(block: &[i16], out: &mut [i16])
    requires block { length block.now ≡ 1024 }
    requires numbers { Numbers block.now }
    requires rows { IsShort 32 block.now }
    requires columns { (y x : ℕ) → y < 8 → 8 ≤ x → x < 32 → at block.now (y * 32 + x) ≡ pos 0 }
    requires room { length out.old ≡ 1024 }
    ensures { out.new ≡ inverse_transformed 5 block.now }
{
    let mut halfway = [0; 1024];
    let mut rows = [[0; 72]; 16];
    let mut turned = [[0; 72]; 16];
    weave::<32, 72, 16, true>(block, order_of_32(), 8, &mut rows);
    first_columns_32(&rows, &mut halfway);
    weave::<32, 72, 16, true>(&halfway, order_of_32(), 32, &mut turned);
    pass_32::<72, true>(&turned, second_weights_32(), 32, 12, out);
}

/// The residual of a block of 32 columns.
#[inline(never)]
pub(crate) fn inverse_32(coefficients: &[i32], out: &mut [i16])
    requires block { length coefficients.now ≡ 1024 }
    requires range { Have16Bits coefficients.now }
    requires room { length out.old ≡ 1024 }
    ensures { out.new ≡ inverse_transformed 5 coefficients.now }
{
    let mut block = [0; 1024];
    narrow(coefficients, &mut block);
    if is_corner::<32>(&block) {
        corner_32(&block, out);
    } else {
        whole_32(&block, out);
    }
}
