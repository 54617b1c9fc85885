//! What a node costs: how far its samples are from the input, and its bins by their weight.

ghost use Rattle.std.specs.Prelude.{◌≡◌, ◌+◌, ◌^◌, ◌<◌, ◌≤◌, List, length};
ghost use Rattle.hv_tree_model.specs.Trees.{Tree, side};
ghost use Rattle.hv_tree_model.specs.Sites.{squares, x0, y0};
ghost use Rattle.hv_tree_model.specs.EarlierUnits.{Square};
ghost use Rattle.hv_unit_model.specs.Bins.{bins_of_node};
ghost use Rattle.hv_near.specs.Neighbours.{lists_of_plan};
ghost use Rattle.hv_near.specs.Squares.{Shows, NamesNode};
ghost use Rattle.hv_recon.specs.Leaves.{AreSeen, lists_with_vectors};
ghost use Rattle.hv_recon.specs.DecodedNodes.{node_of_plan, IsNodeOfBlock};
ghost use Rattle.hv_mode_model.specs.ModeDecision.{Before, decoded_behind, coded_node, cost_of};
ghost use Rattle.hv_mode.specs.Limits.{IsUpTo};
ghost use Rattle.hv_mode.specs.Nodes.{given_of};
ghost use Rattle.hv_mode.specs.Vectors.{references_of};

use crate::errors::node_errors;
use crate::task::Task;
use hv_block::Block;
use hv_kernel::cost;
use hv_near::{column_of, row_of};
use hv_plan::Node;
use hv_syntax::count_node;

/// How many bins a node of a block has, by its plan (7.3.8.4), behind squares that have their
/// vectors: no bin reads these.
fn node_bins(task: &Task<'_>, size: u8, address: u8, block: &Block) -> u64
    requires node { IsNodeOfBlock size address }
    requires names { NamesNode task.now.place (lists_of_plan block.now.plan) size address }
    ensures value { (earlier : List Square) →
        Shows task.now.place (lists_with_vectors block.now.plan) address earlier →
        result ≡ length (bins_of_node (given_of task.now).surroundings size address earlier
        (node_of_plan task.now.place block.now.plan size address)) }
    ensures most { result < 2 ^ 46 }
{
    let node = Node {
        depth: 3 - size,
        x: column_of(address),
        y: row_of(address),
    };
    count_node(
        task.kind,
        task.references,
        task.place,
        task.near,
        &block.plan,
        node,
    )
}

/// The cost of a node, by the plan and the samples of a block: that of the tree of which the plan
/// has what is coded, behind whatever stands before the node, where what is decoded behind the tree
/// is seen in the samples. The node lies in the picture, and its units name the squares of its
/// tree.
pub(crate) fn cost_node(task: &Task<'_>, size: u8, address: u8, block: &Block) -> u64
    requires node { IsNodeOfBlock size address }
    requires right { x0 task.now.place address + side size ≤ task.now.place.width }
    requires bottom { y0 task.now.place address + side size ≤ task.now.place.height }
    requires names { NamesNode task.now.place (lists_of_plan block.now.plan) size address }
    ensures { (before : Before) (tree : Tree) →
        Shows task.now.place (lists_with_vectors block.now.plan) address before.earlier →
        coded_node (given_of task.now) size address before tree ≡
        node_of_plan task.now.place block.now.plan size address →
        AreSeen task.now.place (references_of task.now) task.now.near.now block.now.samples
        (address + squares size)
        (decoded_behind (given_of task.now) size address tree before.decoded) →
        result ≡ cost_of (given_of task.now) size address before tree }
{
    let errors = node_errors(task, size, address, &block.samples);
    let bins = node_bins(task, size, address, block);
    cost(task.qp, errors, bins)
}

/// The cost of a node, as `cost_node` has it, where it is less than a limit. Where the squared
/// errors alone cost as much as that, no bin is counted, and the answer is what they cost.
pub(crate) fn cost_up_to(task: &Task<'_>, size: u8, address: u8, limit: u64, block: &Block) -> u64
    requires node { IsNodeOfBlock size address }
    requires right { x0 task.now.place address + side size ≤ task.now.place.width }
    requires bottom { y0 task.now.place address + side size ≤ task.now.place.height }
    requires names { NamesNode task.now.place (lists_of_plan block.now.plan) size address }
    ensures { (before : Before) (tree : Tree) →
        Shows task.now.place (lists_with_vectors block.now.plan) address before.earlier →
        coded_node (given_of task.now) size address before tree ≡
        node_of_plan task.now.place block.now.plan size address →
        AreSeen task.now.place (references_of task.now) task.now.near.now block.now.samples
        (address + squares size)
        (decoded_behind (given_of task.now) size address tree before.decoded) →
        IsUpTo limit (cost_of (given_of task.now) size address before tree) result }
{
    let errors = node_errors(task, size, address, &block.samples);
    let without_bins = cost(task.qp, errors, 0);
    if limit <= without_bins {
        return without_bins;
    }
    let bins = node_bins(task, size, address, block);
    cost(task.qp, errors, bins)
}
