//! The levels of an inter transform unit: its block of luma, and those of Cb and Cr.

ghost use Rattle.std.specs.Prelude.{◌≡◌, ◌+◌, ◌*◌, ◌^◌, ◌≤◌, length};
ghost use Rattle.hv_tree_model.specs.Trees.{side};
ghost use Rattle.hv_tree_model.specs.Sites.{x0, y0};
ghost use Rattle.hv_recon.specs.Coding.{with_levels};
ghost use Rattle.hv_recon.specs.CodedUnits.{KeepsEarlier};
ghost use Rattle.hv_recon.specs.DecodedNodes.{IsNodeOfBlock};
ghost use Rattle.hv_mode.specs.InterLevels.{inter_levels, HasInterLevels};

use crate::errors::node_squares;
use crate::inter_levels::{InterBlock, choose_levels};
use crate::square::{NodeSquares, Square};
use crate::task::Task;
use hv_block::CtbPlan;
use hv_plan::Mv;
use hv_tables::chroma_qp;
use hv_types::{Picture, Plane};

/// The block of a square of its component.
fn block_of(square: Square, luma: bool, mv: Mv, qp: u8) -> InterBlock
    requires most { square.log2 ≤ 5 }
    requires quantiser { qp ≤ 51 }
    ensures column { result.column ≡ square.left }
    ensures row { result.row ≡ square.top }
    ensures log2 { result.log2 ≡ square.log2 }
    ensures luma { result.luma ≡ luma }
    ensures mv { result.mv ≡ mv }
    ensures qp { result.qp ≡ qp }
{
    InterBlock {
        column: square.left,
        row: square.top,
        log2: square.log2,
        luma,
        mv,
        qp,
    }
}

/// Gives the block of luma at this address its levels.
fn choose_luma(
    reference: &Plane,
    input: &Plane,
    block: InterBlock,
    address: usize,
    plan: &mut CtbPlan,
)
    requires wide { block.column + 2 ^ block.log2 ≤ input.now.width }
    requires high { block.row + 2 ^ block.log2 ≤ input.now.height }
    requires room { 64 * address + 2 ^ block.log2 * 2 ^ block.log2 ≤ 4096 }
    ensures room { length plan.old.luma ≡ 4096 }
    ensures count { length (inter_levels block.log2 block.luma block.qp block.mv block.column
        block.row input.now reference.now) ≡ 2 ^ block.log2 * 2 ^ block.log2 }
    ensures plan { plan.new ≡ record plan.old {
      luma = with_levels plan.old.luma (64 * address)
          (inter_levels block.log2 block.luma block.qp block.mv block.column block.row input.now
          reference.now);
    } }
{
    choose_levels(reference, input, block, 64 * address, plan.luma_mut());
}

/// Gives the block of Cb at this address its levels.
fn choose_cb(
    reference: &Plane,
    input: &Plane,
    block: InterBlock,
    address: usize,
    plan: &mut CtbPlan,
)
    requires wide { block.column + 2 ^ block.log2 ≤ input.now.width }
    requires high { block.row + 2 ^ block.log2 ≤ input.now.height }
    requires room { 16 * address + 2 ^ block.log2 * 2 ^ block.log2 ≤ 1024 }
    ensures room { length plan.old.cb ≡ 1024 }
    ensures count { length (inter_levels block.log2 block.luma block.qp block.mv block.column
        block.row input.now reference.now) ≡ 2 ^ block.log2 * 2 ^ block.log2 }
    ensures plan { plan.new ≡ record plan.old {
      cb = with_levels plan.old.cb (16 * address)
          (inter_levels block.log2 block.luma block.qp block.mv block.column block.row input.now
          reference.now);
    } }
{
    choose_levels(reference, input, block, 16 * address, plan.cb_mut());
}

/// Gives the block of Cr at this address its levels.
fn choose_cr(
    reference: &Plane,
    input: &Plane,
    block: InterBlock,
    address: usize,
    plan: &mut CtbPlan,
)
    requires wide { block.column + 2 ^ block.log2 ≤ input.now.width }
    requires high { block.row + 2 ^ block.log2 ≤ input.now.height }
    requires room { 16 * address + 2 ^ block.log2 * 2 ^ block.log2 ≤ 1024 }
    ensures room { length plan.old.cr ≡ 1024 }
    ensures count { length (inter_levels block.log2 block.luma block.qp block.mv block.column
        block.row input.now reference.now) ≡ 2 ^ block.log2 * 2 ^ block.log2 }
    ensures plan { plan.new ≡ record plan.old {
      cr = with_levels plan.old.cr (16 * address)
          (inter_levels block.log2 block.luma block.qp block.mv block.column block.row input.now
          reference.now);
    } }
{
    choose_levels(reference, input, block, 16 * address, plan.cr_mut());
}

/// Gives the transform unit of this `size`, 0 for 8x8 to 2 for 32x32 luma samples, at `address` its
/// levels (7.3.8.10): those of what a prediction from a reference picture by this vector leaves of
/// the input. It lies in the picture. The units of the plan, and the levels before it, are kept.
pub(crate) fn choose_unit(
    task: &Task<'_>,
    size: u8,
    address: u8,
    reference: &Picture,
    mv: Mv,
    plan: &mut CtbPlan,
)
    requires node { IsNodeOfBlock size address }
    requires small { size ≤ 2 }
    requires right { x0 task.now.place address + side size ≤ task.now.place.width }
    requires bottom { y0 task.now.place address + side size ≤ task.now.place.height }
    ensures chosen { HasInterLevels task.now reference.now mv size address plan.new }
    ensures kept { KeepsEarlier address plan.old plan.new }
{
    let NodeSquares { luma, chroma } = node_squares(task, size, address);
    let of_luma = block_of(luma, true, mv, task.qp);
    let of_chroma = block_of(chroma, false, mv, chroma_qp(task.qp));
    let at = usize::from(address);
    let input = task.input;
    choose_luma(&reference.luma, &input.luma, of_luma, at, plan);
    choose_cb(&reference.cb, &input.cb, of_chroma, at, plan);
    choose_cr(&reference.cr, &input.cr, of_chroma, at, plan);
}
