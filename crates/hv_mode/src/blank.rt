//! A node that is one coding unit of mode DC without a level.

ghost use Rattle.std.specs.Prelude.{◌+◌, ◌≤◌};
ghost use Rattle.hv_tree_model.specs.Trees.{side};
ghost use Rattle.hv_tree_model.specs.Sites.{x0, y0};
ghost use Rattle.hv_recon.specs.DecodedNodes.{IsNodeOfBlock};
ghost use Rattle.hv_mode.specs.Nodes.{Decides, blank_choice};

use crate::task::Task;
use hv_block::Block;
use hv_plan::Pred;
use hv_recon::rebuild_leaf;

/// Makes the node of this `size` at `address` one coding unit of mode DC (`IntraPredModeY` 1)
/// without a level, and rebuilds its samples. It lies in the picture.
pub(crate) fn decide_blank(task: &Task<'_>, size: u8, address: u8, out: &mut Block)
    requires node { IsNodeOfBlock size address }
    requires right { x0 task.now.place address + side size ≤ task.now.place.width }
    requires bottom { y0 task.now.place address + side size ≤ task.now.place.height }
    ensures { Decides task.now size address (blank_choice size) out.old out.new }
{
    out.plan.clear_levels(address, size);
    out.plan.set_leaf(address, size, Pred::Intra { mode: 1 });
    rebuild_leaf(
        &out.plan,
        address,
        size,
        task.place,
        task.qp,
        task.near,
        task.first,
        task.second,
        &mut out.samples,
    );
}
