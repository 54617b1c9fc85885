//! The choice of a leaf: one intra coding unit, of the luma mode of least score. H.265 leaves it
//! free.

ghost use Rattle.std.specs.Prelude.{◌≡◌, ◌+◌, ◌*◌, ◌^◌, ◌<◌, ◌≤◌, ℕ, List, false};
ghost use Rattle.hv_tables.specs.declared.bins.SliceKind.{SliceKind};
ghost use Rattle.hv_sample_model.specs.IntraPrediction.{substituted};
ghost use Rattle.hv_tree_model.specs.Trees.{side};
ghost use Rattle.hv_tree_model.specs.Sites.{column_of, row_of, x0, y0, is_outside};
ghost use Rattle.hv_tree_model.specs.EarlierUnits.{Square};
ghost use Rattle.hv_tree_model.specs.MostProbableModes.{candidates};
ghost use Rattle.hv_near.specs.Squares.{Shows};
ghost use Rattle.hv_recon_model.specs.SeenSamples.{luma_spot, seen_line};
ghost use Rattle.hv_recon.specs.Coding.{input_block};
ghost use Rattle.hv_recon.specs.DecodedNodes.{IsNodeOfBlock};
ghost use Rattle.hv_recon.specs.Leaves.{lists_with_vectors, luma_around};
ghost use Rattle.hv_mode_model.specs.ModeDecision.{Before, luma_mode};
ghost use Rattle.hv_mode.specs.LumaModes.{mode_of_block};
ghost use Rattle.hv_mode.specs.Nodes.{given_of, Stands, Decides, leaf_choice};

use crate::luma_mode::choose_luma_mode;
use crate::task::Task;
use hv_block::Block;
use hv_recon::{code_leaf, luma_line, read_luma};
use hv_syntax::most_probable_modes;

/// The luma mode of a unit at this address whose first transform block has `COUNT` samples.
fn mode_of<const COUNT: usize>(task: &Task<'_>, log2: u8, address: u8, out: &Block) -> u8
    requires area { COUNT ≡ 2 ^ log2 * 2 ^ log2 }
    requires count { COUNT ≡ 4 ^ log2 }
    requires least { 2 ≤ log2 }
    requires most { log2 ≤ 5 }
    requires address { address < 64 }
    requires inside { is_outside task.now.place address ≡ false }
    requires across { 8 * column_of address + 2 ^ log2 ≤ 64 }
    requires down { 8 * row_of address + 2 ^ log2 ≤ 64 }
    requires wide { x0 task.now.place address + 2 ^ log2 ≤ task.now.input.now.luma.width }
    requires high { y0 task.now.place address + 2 ^ log2 ≤ task.now.input.now.luma.height }
    ensures most { result ≤ 34 }
    ensures mode { (earlier : List Square) →
        Shows task.now.place (lists_with_vectors out.now.plan) address earlier →
        result ≡ mode_of_block log2 task.now.qp task.now.effort
        (candidates (given_of task.now).surroundings address earlier)
        (input_block task.now.input.now.luma (x0 task.now.place address)
        (y0 task.now.place address) log2)
        (substituted (seen_line (luma_spot task.now.place) (luma_around task.now.near.now)
        out.now.samples.luma address (8 * column_of address) (8 * row_of address) log2)) }
{
    let line = luma_line(task.place, task.near, &out.samples, address, log2);
    let modes = most_probable_modes(task.place, task.near, &out.plan, address);
    let mut samples = [0; COUNT];
    read_luma(task.place, task.input, address, log2, &mut samples);
    choose_luma_mode(&samples, &line, log2, modes, task.qp, task.effort)
}

/// The luma mode of a leaf, from the first of its transform blocks and from what stands before it.
fn choose_mode(task: &Task<'_>, size: u8, address: u8, out: &Block) -> u8
    requires node { IsNodeOfBlock size address }
    requires right { x0 task.now.place address + side size ≤ task.now.place.width }
    requires bottom { y0 task.now.place address + side size ≤ task.now.place.height }
    ensures most { result ≤ 34 }
    ensures mode { (before : Before) → Stands task.now out.now address before →
        result ≡ luma_mode (given_of task.now) size address before }
{
    match size {
        0 => mode_of::<64>(task, 3, address, out),
        1 => mode_of::<256>(task, 4, address, out),
        _ => mode_of::<1024>(task, 5, address, out),
    }
}

/// Decides a leaf that lies in the picture, whatever stands before it in `out`: it is one intra
/// coding unit of the luma mode of least score, and its samples are those that are decoded. What
/// comes before it is kept. It takes no memory.
pub(crate) fn decide_leaf(task: &Task<'_>, size: u8, address: u8, out: &mut Block)
    requires node { IsNodeOfBlock size address }
    requires right { x0 task.now.place address + side size ≤ task.now.place.width }
    requires bottom { y0 task.now.place address + side size ≤ task.now.place.height }
    ensures { Decides task.now size address (leaf_choice task.now size address) out.old out.new }
{
    let squares = out.plan.units().len();
    prove!(squares == 64);
    let mode = choose_mode(task, size, address, out);
    code_leaf(
        &mut out.plan,
        address,
        size,
        mode,
        task.place,
        task.qp,
        task.near,
        task.input,
        &mut out.samples,
    );
}
