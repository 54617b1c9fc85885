//! The levels of an inter transform block: those of what its prediction leaves of the input.

ghost use Rattle.std.specs.Prelude.{◌≡◌, ◌+◌, ◌*◌, ◌^◌, ◌≤◌, length};
ghost use Rattle.hv_recon.specs.Coding.{with_levels};
ghost use Rattle.hv_mode.specs.InterLevels.{inter_levels};

use hv_forward::{forward, quantise};
use hv_interp::predict_inter;
use hv_plan::Mv;
use hv_recon::{read_block, subtract};
use hv_types::Plane;

/// How an inter transform block is predicted and scaled, and where it lies: the column and the row
/// of its component in which it begins, its side as a power of 2, its vector, in quarters of a luma
/// sample, and the quantiser of the component.
#[derive(Clone, Copy)]
pub(crate) struct InterBlock {
    pub(crate) column: u32,
    pub(crate) row: u32,
    pub(crate) log2: u8,
    pub(crate) luma: bool,
    pub(crate) mv: Mv,
    pub(crate) qp: u8,
    pub ghost least: { 2 ≤ log2 },
    pub ghost most: { log2 ≤ 5 },
    pub ghost quantiser: { qp ≤ 51 },
}

/// The side of a transform block.
fn side_of(log2: u8) -> u8
    requires least { 2 ≤ log2 }
    requires most { log2 ≤ 5 }
    ensures value { result ≡ 2 ^ log2 }
    ensures few { result ≤ 32 }
{
    match log2 {
        2 => 4,
        3 => 8,
        4 => 16,
        _ => 32,
    }
}

/// Gives a block of `COUNT` samples of the input its levels behind its prediction from a component
/// of a reference picture (8.5.3.3.3).
fn choose_block<const COUNT: usize>(
    reference: &Plane,
    input: &Plane,
    block: InterBlock,
    out: &mut [i16],
)
    requires count { COUNT ≡ 4 ^ block.log2 }
    requires area { COUNT ≡ 2 ^ block.log2 * 2 ^ block.log2 }
    requires few { COUNT ≤ 1024 }
    requires wide { block.column + 2 ^ block.log2 ≤ input.now.width }
    requires high { block.row + 2 ^ block.log2 ≤ input.now.height }
    requires room { length out.old ≡ COUNT }
    ensures value { out.new ≡ inter_levels block.log2 block.luma block.qp block.mv block.column
        block.row input.now reference.now }
    ensures count { length out.new ≡ COUNT }
{
    let side = side_of(block.log2);
    let mut samples = [0; COUNT];
    let (x, y) = (block.column as usize, block.row as usize);
    read_block(input, x, y, block.log2, &mut samples);
    let mut predicted = [0; COUNT];
    predict_inter(
        reference,
        block.luma,
        block.column,
        block.row,
        side,
        block.mv,
        &mut predicted,
    );
    let mut residual = [0; COUNT];
    let mut coefficients = [0; COUNT];
    subtract(&samples, &predicted, &mut residual);
    forward(&residual, block.log2, &mut coefficients);
    quantise(&coefficients, block.log2, block.qp, false, out);
}

/// Gives a block of the input its levels, in the places from `from` on.
pub(crate) fn choose_levels(
    reference: &Plane,
    input: &Plane,
    block: InterBlock,
    from: usize,
    levels: &mut [i16],
)
    requires wide { block.column + 2 ^ block.log2 ≤ input.now.width }
    requires high { block.row + 2 ^ block.log2 ≤ input.now.height }
    requires room { from + 2 ^ block.log2 * 2 ^ block.log2 ≤ length levels.old }
    ensures value { levels.new ≡ with_levels levels.old from
        (inter_levels block.log2 block.luma block.qp block.mv block.column block.row input.now
        reference.now) }
    ensures count { length (inter_levels block.log2 block.luma block.qp block.mv block.column
        block.row input.now reference.now) ≡ 2 ^ block.log2 * 2 ^ block.log2 }
{
    match block.log2 {
        2 => choose_block::<16>(reference, input, block, &mut levels[from..from + 16]),
        3 => choose_block::<64>(reference, input, block, &mut levels[from..from + 64]),
        4 => choose_block::<256>(reference, input, block, &mut levels[from..from + 256]),
        _ => choose_block::<1024>(reference, input, block, &mut levels[from..from + 1024]),
    }
}
