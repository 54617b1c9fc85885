//! The choice of a leaf that is predicted from another picture, with a vector that was found.
//! H.265 leaves it free.

ghost use Rattle.std.specs.Prelude.{◌≡◌, ◌+◌, ◌≤◌, true};
ghost use Rattle.hv_tree_model.specs.Trees.{side};
ghost use Rattle.hv_tree_model.specs.Sites.{x0, y0};
ghost use Rattle.hv_recon.specs.DecodedNodes.{IsNodeOfBlock};
ghost use Rattle.hv_mode.specs.InterChoices.{names, inter_choice};
ghost use Rattle.hv_mode.specs.Nodes.{Decides};

use crate::inter::code_inter;
use crate::predictor::choose_predictor;
use crate::task::Task;
use hv_amvp::candidates;
use hv_block::Block;
use hv_plan::Mv;

/// Decides a leaf that lies in the picture, whatever stands before it in `out`: it is one coding
/// unit that moves so from an entry of list 0 which it may name, and its samples are those that are
/// decoded. What comes before it is kept. It takes no memory.
pub(crate) fn decide_inter(
    task: &Task<'_>,
    size: u8,
    address: u8,
    entry: u8,
    mv: Mv,
    out: &mut Block,
)
    requires node { IsNodeOfBlock size address }
    requires right { x0 task.now.place address + side size ≤ task.now.place.width }
    requires bottom { y0 task.now.place address + side size ≤ task.now.place.height }
    requires named { names task.now entry ≡ true }
    ensures { Decides task.now size address (inter_choice task.now size address entry mv)
        out.old out.new }
{
    let squares = out.plan.units().len();
    prove!(squares == 64);
    let both = candidates(
        task.near,
        &out.plan,
        task.place,
        address,
        size,
        task.distances,
        entry,
    );
    let moved = choose_predictor(both, mv);
    code_inter(
        task,
        size,
        address,
        entry,
        moved,
        task.first,
        task.second,
        out,
    );
}
