//! The levels of an inter coding unit.

ghost use Rattle.std.specs.Prelude.{◌≡◌, ◌+◌, ◌≤◌, slice_get, Some};
ghost use Rattle.hv_tree_model.specs.Trees.{Motion, Inter, side, log2TrafoSize, transform_units};
ghost use Rattle.hv_tree_model.specs.Sites.{x0, y0};
ghost use Rattle.hv_tree_model.specs.Plans.{transform_units_at};
ghost use Rattle.hv_near.specs.Neighbours.{lists_of_plan};
ghost use Rattle.hv_recon_model.specs.Reconstruction.{Decoded};
ghost use Rattle.hv_recon.specs.CodedUnits.{KeepsEarlier};
ghost use Rattle.hv_recon.specs.DecodedNodes.{IsNodeOfBlock};
ghost use Rattle.hv_mode_model.specs.ModeDecision.{chosen_units, node_square};
ghost use Rattle.hv_mode.specs.InterLevels.{HasInterLevels};
ghost use Rattle.hv_mode.specs.Nodes.{given_of};

use crate::inter_unit::choose_unit;
use crate::task::Task;
use hv_block::CtbPlan;
use hv_plan::Mv;
use hv_types::Picture;

/// Gives the four transform units of a coding unit of 64x64 their levels.
fn choose_quarters(task: &Task<'_>, reference: &Picture, mv: Mv, plan: &mut CtbPlan)
    requires right { x0 task.now.place 0 + side 3 ≤ task.now.place.width }
    requires bottom { y0 task.now.place 0 + side 3 ≤ task.now.place.height }
    ensures first { HasInterLevels task.now reference.now mv 2 0 plan.new }
    ensures second { HasInterLevels task.now reference.now mv 2 16 plan.new }
    ensures third { HasInterLevels task.now reference.now mv 2 32 plan.new }
    ensures fourth { HasInterLevels task.now reference.now mv 2 48 plan.new }
    ensures units { plan.new.units ≡ plan.old.units }
{
    choose_unit(task, 2, 0, reference, mv, plan);
    choose_unit(task, 2, 16, reference, mv, plan);
    choose_unit(task, 2, 32, reference, mv, plan);
    choose_unit(task, 2, 48, reference, mv, plan);
}

/// Gives the coding unit of this `size` at `address` its levels: those that are chosen for it where
/// it is predicted from a reference picture by this vector, whatever is decoded before it. It lies
/// in the picture. The units of the plan, and the levels before it, are kept.
pub(crate) fn choose_leaf(
    task: &Task<'_>,
    size: u8,
    address: u8,
    reference: &Picture,
    mv: Mv,
    plan: &mut CtbPlan,
)
    requires node { IsNodeOfBlock size address }
    requires right { x0 task.now.place address + side size ≤ task.now.place.width }
    requires bottom { y0 task.now.place address + side size ≤ task.now.place.height }
    ensures chosen { (motion : Motion) (d : Decoded) → motion.MvdL0 ≡ mv →
        slice_get d.references motion.ref_idx_l0 ≡ Some reference.now →
        transform_units_at (lists_of_plan plan.new) (log2TrafoSize size) address
        (transform_units size) ≡
        chosen_units (given_of task.now) (Inter motion) size
        (node_square (given_of task.now) size address) d }
    ensures kept { KeepsEarlier address plan.old plan.new }
{
    if size < 3 {
        choose_unit(task, size, address, reference, mv, plan);
    } else {
        choose_quarters(task, reference, mv, plan);
    }
}
