//! Copying of a node from one coding tree block to another.

ghost use Rattle.std.specs.Prelude.{◌≡◌, ◌+◌, ◌*◌, ◌^◌, ◌≤◌, ◌<◌, length};
ghost use Rattle.hv_tree_model.specs.Sites.{column_of, row_of};
ghost use Rattle.hv_recon.specs.DecodedNodes.{IsNodeOfBlock};
ghost use Rattle.hv_mode.specs.Nodes.{CopiesNode};
ghost use Rattle.hv_mode.specs.Copies.{CopiesSquare, CopiesSamples};

use hv_block::{Block, Samples};
use hv_near::{column_of, row_of};
use hv_recon::put_row;

/// The side of a square of 2^log2 columns and rows.
fn side_of(log2: u8) -> usize
    requires least { 2 ≤ log2 }
    requires most { log2 ≤ 6 }
    ensures value { result ≡ 2 ^ log2 }
    ensures few { result ≤ 64 }
{
    match log2 {
        2 => 4,
        3 => 8,
        4 => 16,
        5 => 32,
        _ => 64,
    }
}

/// Copies a square of 2^log2 columns and rows among the samples of a coding tree block of this
/// side: the one that begins in this column and row.
fn copy_square(side: usize, x: usize, y: usize, log2: u8, from: &[u8], samples: &mut [u8])
    requires least { 2 ≤ log2 }
    requires most { log2 ≤ 6 }
    requires side { side ≤ 64 }
    requires across { x + 2 ^ log2 ≤ side }
    requires down { y + 2 ^ log2 ≤ side }
    requires there { length from.now ≡ side * side }
    requires whole { length samples.old ≡ side * side }
    ensures copied { CopiesSquare side x y log2 from.now samples.old samples.new }
    ensures count { length samples.new ≡ side * side }
{
    let n = side_of(log2);
    for r in 0..n {
        let at = (y + r) * side + x;
        put_row(samples, at, &from[at..at + n]);
    }
}

/// Copies a square of luma.
fn copy_luma(x: usize, y: usize, log2: u8, from: &Samples, to: &mut Samples)
    requires least { 2 ≤ log2 }
    requires most { log2 ≤ 6 }
    requires across { x + 2 ^ log2 ≤ 64 }
    requires down { y + 2 ^ log2 ≤ 64 }
    ensures copied { CopiesSquare 64 x y log2 from.now.luma to.old.luma to.new.luma }
    ensures cb { to.new.cb ≡ to.old.cb }
    ensures cr { to.new.cr ≡ to.old.cr }
{
    copy_square(64, x, y, log2, from.luma(), to.luma_mut());
}

/// Copies a square of Cb.
fn copy_cb(x: usize, y: usize, log2: u8, from: &Samples, to: &mut Samples)
    requires least { 2 ≤ log2 }
    requires most { log2 ≤ 6 }
    requires across { x + 2 ^ log2 ≤ 32 }
    requires down { y + 2 ^ log2 ≤ 32 }
    ensures copied { CopiesSquare 32 x y log2 from.now.cb to.old.cb to.new.cb }
    ensures luma { to.new.luma ≡ to.old.luma }
    ensures cr { to.new.cr ≡ to.old.cr }
{
    copy_square(32, x, y, log2, from.cb(), to.cb_mut());
}

/// Copies a square of Cr.
fn copy_cr(x: usize, y: usize, log2: u8, from: &Samples, to: &mut Samples)
    requires least { 2 ≤ log2 }
    requires most { log2 ≤ 6 }
    requires across { x + 2 ^ log2 ≤ 32 }
    requires down { y + 2 ^ log2 ≤ 32 }
    ensures copied { CopiesSquare 32 x y log2 from.now.cr to.old.cr to.new.cr }
    ensures luma { to.new.luma ≡ to.old.luma }
    ensures cb { to.new.cb ≡ to.old.cb }
{
    copy_square(32, x, y, log2, from.cr(), to.cr_mut());
}

/// Copies the samples of a node.
fn copy_samples(size: u8, address: u8, from: &Samples, to: &mut Samples)
    requires few { size ≤ 3 }
    requires inside { address < 64 }
    requires across { column_of address + 2 ^ size ≤ 8 }
    requires down { row_of address + 2 ^ size ≤ 8 }
    ensures { CopiesSamples size address from.now to.old to.new }
{
    let (column, row) = (
        usize::from(column_of(address)),
        usize::from(row_of(address)),
    );
    copy_luma(8 * column, 8 * row, size + 3, from, to);
    copy_cb(4 * column, 4 * row, size + 2, from, to);
    copy_cr(4 * column, 4 * row, size + 2, from, to);
}

/// Copies the node of this `size` at `address` from another block: its units, its levels and its
/// samples. What the block has before the node is kept.
pub(crate) fn copy_node(size: u8, address: u8, from: &Block, to: &mut Block)
    requires { IsNodeOfBlock size address }
    ensures { CopiesNode size address from.now to.old to.new }
{
    to.plan.copy_node(&from.plan, address, size);
    copy_samples(size, address, &from.samples, &mut to.samples);
}
