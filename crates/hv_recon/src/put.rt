//! A block among the samples of a coding tree block.

ghost use Rattle.std.specs.Prelude.{◌≡◌, ◌+◌, ◌*◌, ◌^◌, ◌≤◌, length};
ghost use Rattle.hv_recon_model.specs.SeenSamples.{IsPut};
ghost use Rattle.hv_recon.specs.Rows.{with_row};

use crate::sizes::side_of;

/// Copies a row to the places from `from` on.
#[inline(always)]
pub fn put_row(samples: &mut [u8], from: usize, row: &[u8])
    requires { from + length row.now ≤ length samples.old }
    ensures { samples.new ≡ with_row samples.old from row.now }
{
    samples[from..from + row.len()].copy_from_slice(row);
}

/// Copies a transform block of 2^log2 columns and rows, by rows, into a coding tree block of this
/// side: to the place that begins in this column and row.
pub fn put_block(side: usize, x: usize, y: usize, log2: u8, block: &[u8], samples: &mut [u8])
    requires least { 2 ≤ log2 }
    requires most { log2 ≤ 5 }
    requires side { side ≤ 64 }
    requires across { x + 2 ^ log2 ≤ side }
    requires down { y + 2 ^ log2 ≤ side }
    requires block { length block.now ≡ 2 ^ log2 * 2 ^ log2 }
    requires whole { length samples.old ≡ side * side }
    ensures put { IsPut side x y log2 block.now samples.old samples.new }
    ensures count { length samples.new ≡ side * side }
{
    let n = side_of(log2);
    for r in 0..n {
        put_row(samples, (y + r) * side + x, &block[r * n..r * n + n]);
    }
}
