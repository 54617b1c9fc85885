//! The ways in which a node is tried as one coding unit: predicted from each entry of list 0 for
//! which there is a vector, and from its own picture. H.265 leaves it free.

ghost use Rattle.std.specs.Prelude.{◌+◌, ◌≤◌, ◌<◌};
ghost use Rattle.hv_block.specs.declared.block.Block.{Block};
ghost use Rattle.hv_tree_model.specs.Trees.{Tree, side};
ghost use Rattle.hv_tree_model.specs.Sites.{x0, y0};
ghost use Rattle.hv_near.specs.Neighbours.{lists_of_plan};
ghost use Rattle.hv_near.specs.Squares.{NamesNode};
ghost use Rattle.hv_recon.specs.DecodedNodes.{IsNodeOfBlock};
ghost use Rattle.hv_mode_model.specs.ModeDecision.{Before};
ghost use Rattle.hv_mode.specs.Nodes.{SameBefore, Decides, leaf_choice};
ghost use Rattle.hv_mode.specs.SplitNodes.{unit_choices};
ghost use Rattle.hv_mode.specs.WaitingNodes.{Tried, more_trees, with_entry, Waits, WaitsIf};

use crate::copy::copy_node;
use crate::cost::{cost_node, cost_up_to};
use crate::found::found;
use crate::inter_choice::decide_inter;
use crate::leaf::decide_leaf;
use crate::task::Task;
use hv_block::Block;

/// Counts what a node costs that was decided in `out`, and copies it to `waiting` where that is
/// less than `least`, the cost of what waits there, or where nothing waits. The answer is the cost
/// of what waits then.
fn keep_less(
    task: &Task<'_>,
    size: u8,
    address: u8,
    least: Option<u64>,
    out: &Block,
    waiting: &mut Block,
) -> u64
    requires node { IsNodeOfBlock size address }
    requires right { x0 task.now.place address + side size ≤ task.now.place.width }
    requires bottom { y0 task.now.place address + side size ≤ task.now.place.height }
    requires names { NamesNode task.now.place (lists_of_plan out.now.plan) size address }
    ensures { (trees : Tried) (choice : Before → Tree) (old : Block) →
        Decides task.now size address choice old out.now →
        WaitsIf task.now size address trees old waiting.old least →
        Waits task.now size address (more_trees trees choice) old waiting.new result }
{
    let Some(least) = least else {
        copy_node(size, address, out, waiting);
        return cost_node(task, size, address, out);
    };
    let next = cost_up_to(task, size, address, least, out);
    if next < least {
        copy_node(size, address, out, waiting);
        return next;
    }
    least
}

/// Tries a node as a unit that is predicted from an entry of list 0, if there is a vector for it.
fn try_entry(
    task: &Task<'_>,
    size: u8,
    address: u8,
    entry: u8,
    least: Option<u64>,
    out: &mut Block,
    waiting: &mut Block,
) -> Option<u64>
    requires node { IsNodeOfBlock size address }
    requires right { x0 task.now.place address + side size ≤ task.now.place.width }
    requires bottom { y0 task.now.place address + side size ≤ task.now.place.height }
    ensures kept { SameBefore address out.old out.new }
    ensures waits { (trees : Tried) (old : Block) → SameBefore address old out.old →
        WaitsIf task.now size address trees old waiting.old least →
        WaitsIf task.now size address (with_entry task.now size address entry trees) old
        waiting.new result }
{
    let Some(mv) = found(task, size, address, entry) else {
        return least;
    };
    decide_inter(task, size, address, entry, mv, out);
    Some(keep_less(task, size, address, least, out, waiting))
}

/// Tries a node as an intra unit.
fn try_intra(
    task: &Task<'_>,
    size: u8,
    address: u8,
    least: Option<u64>,
    out: &mut Block,
    waiting: &mut Block,
) -> u64
    requires node { IsNodeOfBlock size address }
    requires right { x0 task.now.place address + side size ≤ task.now.place.width }
    requires bottom { y0 task.now.place address + side size ≤ task.now.place.height }
    ensures kept { SameBefore address out.old out.new }
    ensures waits { (trees : Tried) (old : Block) → SameBefore address old out.old →
        WaitsIf task.now size address trees old waiting.old least →
        Waits task.now size address (more_trees trees (leaf_choice task.now size address)) old
        waiting.new result }
{
    decide_leaf(task, size, address, out);
    keep_less(task, size, address, least, out, waiting)
}

/// Tries a node that lies in the picture as one coding unit, in each way, whatever stands before it
/// in `out`: the first of least cost waits in a block, and the answer is its cost. What comes
/// before the node is kept in `out`. It takes no memory.
pub(crate) fn try_units(
    task: &Task<'_>,
    size: u8,
    address: u8,
    out: &mut Block,
    waiting: &mut Block,
) -> u64
    requires node { IsNodeOfBlock size address }
    requires right { x0 task.now.place address + side size ≤ task.now.place.width }
    requires bottom { y0 task.now.place address + side size ≤ task.now.place.height }
    ensures kept { SameBefore address out.old out.new }
    ensures waits { Waits task.now size address (unit_choices task.now size address) out.old
        waiting.new result }
{
    let least = try_entry(task, size, address, 0, None, out, waiting);
    let least = try_entry(task, size, address, 1, least, out, waiting);
    try_intra(task, size, address, least, out, waiting)
}
