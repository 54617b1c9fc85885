//! A leaf of a coding tree block as an inter coding unit.

ghost use Rattle.std.specs.Prelude.{◌≡◌, ◌+◌, ◌-◌, ◌*◌, ◌^◌, ◌<◌, ◌≤◌, length, slice_get, take};
ghost use Rattle.std.specs.Option.{option_copied};
ghost use Rattle.hv_block.specs.Plans.{with_units, unit_of};
ghost use Rattle.hv_plan.specs.declared.prediction.Pred.TheVariants.{Inter as InterPred};
ghost use Rattle.hv_tree_model.specs.Trees.{Motion, Inter, side, log2TrafoSize, transform_units};
ghost use Rattle.hv_tree_model.specs.Sites.{x0, y0};
ghost use Rattle.hv_tree_model.specs.Plans.{transform_units_at};
ghost use Rattle.hv_near.specs.Neighbours.{lists_of_plan};
ghost use Rattle.hv_recon_model.specs.Reconstruction.{Decoded};
ghost use Rattle.hv_recon.specs.CodedUnits.{KeepsEarlier};
ghost use Rattle.hv_recon.specs.DecodedNodes.{IsNodeOfBlock};
ghost use Rattle.hv_recon.specs.Leaves.{lists_with_vectors, leaf_of_plan, pictures_of, DecodesLeaf, KeepsOtherSamples};
ghost use Rattle.hv_mode_model.specs.ModeDecision.{Before, leaf, chosen_units, node_square};
ghost use Rattle.hv_mode.specs.Nodes.{given_of};

use crate::inter_leaf::choose_leaf;
use crate::predictor::Moved;
use crate::task::Task;
use hv_block::{Block, CtbPlan, Frame};
use hv_plan::{Mv, Pred};
use hv_recon::rebuild_leaf;
use hv_types::Picture;

/// The picture that an entry of list 0 shows; none where it isn't there.
fn shown<'a>(first: Option<&'a Frame>, second: Option<&'a Frame>, entry: u8) -> Option<&'a Picture>
    ensures { option_copied result ≡
        slice_get (pictures_of (option_copied first.entry) (option_copied second.entry)) entry }
{
    match (entry, first, second) {
        (0, Some(frame), _) => Some(&frame.shown),
        (1, Some(_), Some(frame)) => Some(&frame.shown),
        _ => None,
    }
}

/// Gives the coding unit of this `size` at `address` its levels, predicted by a vector from an
/// entry of list 0 that is there.
fn choose_named(
    task: &Task<'_>,
    size: u8,
    address: u8,
    entry: u8,
    mv: Mv,
    first: Option<&Frame>,
    second: Option<&Frame>,
    plan: &mut CtbPlan,
)
    requires node { IsNodeOfBlock size address }
    requires right { x0 task.now.place address + side size ≤ task.now.place.width }
    requires bottom { y0 task.now.place address + side size ≤ task.now.place.height }
    requires there { entry <
        length (pictures_of (option_copied first) (option_copied second)) }
    ensures chosen { (motion : Motion) (d : Decoded) → motion.MvdL0 ≡ mv →
        motion.ref_idx_l0 ≡ entry →
        d.references ≡ pictures_of (option_copied first.entry) (option_copied second.entry) →
        transform_units_at (lists_of_plan plan.new) (log2TrafoSize size) address
        (transform_units size) ≡
        chosen_units (given_of task.now) (Inter motion) size
        (node_square (given_of task.now) size address) d }
    ensures kept { KeepsEarlier address plan.old plan.new }
{
    if let Some(picture) = shown(first, second, entry) {
        choose_leaf(task, size, address, picture, mv, plan);
    }
}

/// Codes a leaf that lies in the picture as one inter coding unit, which moves so from an entry of
/// list 0 that is there: the frames `first` and `second` show its pictures. It is that unit in the
/// plan, with the levels that are chosen for it, and its samples are those that are decoded
/// (8.5.3.3, 8.6.2). What comes before it is kept. It takes no memory.
pub(crate) fn code_inter(
    task: &Task<'_>,
    size: u8,
    address: u8,
    entry: u8,
    moved: Moved,
    first: Option<&Frame>,
    second: Option<&Frame>,
    out: &mut Block,
)
    requires node { IsNodeOfBlock size address }
    requires right { x0 task.now.place address + side size ≤ task.now.place.width }
    requires bottom { y0 task.now.place address + side size ≤ task.now.place.height }
    requires there { entry <
        length (pictures_of (option_copied first) (option_copied second)) }
    ensures units { out.new.plan.units ≡ with_units out.old.plan.units address (4 ^ size)
        (unit_of (3 - size) (InterPred entry moved.mv moved.flag moved.mvd)) }
    ensures luma { take (64 * address) out.new.plan.luma ≡ take (64 * address) out.old.plan.luma }
    ensures cb { take (16 * address) out.new.plan.cb ≡ take (16 * address) out.old.plan.cb }
    ensures cr { take (16 * address) out.new.plan.cr ≡ take (16 * address) out.old.plan.cr }
    ensures chosen { (before : Before) → before.decoded.references ≡
        pictures_of (option_copied first.entry) (option_copied second.entry) →
        leaf_of_plan (lists_with_vectors out.new.plan) size address ≡
        leaf (given_of task.now) size address before (Inter record {
          ref_idx_l0 = entry;
          mvp_l0_flag = moved.flag;
          MvdL0 = moved.mv;
        }) }
    ensures decoded { DecodesLeaf (lists_with_vectors out.new.plan) size address task.now.place
        task.now.qp (pictures_of (option_copied first.entry) (option_copied second.entry))
        task.now.near.now out.old.samples out.new.samples }
    ensures kept { KeepsOtherSamples size address out.old.samples out.new.samples }
{
    let squares = out.plan.units().len();
    prove!(squares == 64);
    let pred = Pred::Inter {
        reference: entry,
        mv: moved.mv,
        flag: moved.flag,
        mvd: moved.mvd,
    };
    out.plan.set_leaf(address, size, pred);
    choose_named(
        task,
        size,
        address,
        entry,
        moved.mv,
        first,
        second,
        &mut out.plan,
    );
    rebuild_leaf(
        &out.plan,
        address,
        size,
        task.place,
        task.qp,
        task.near,
        first,
        second,
        &mut out.samples,
    );
}
