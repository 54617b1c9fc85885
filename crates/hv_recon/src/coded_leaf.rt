//! Coding of a leaf of a coding tree block as an intra coding unit.

ghost use Rattle.std.specs.Prelude.{◌≡◌, ◌+◌, ◌%◌, ◌<◌, ◌≤◌, List};
ghost use Rattle.hv_types.specs.declared.picture.Picture.{Picture};
ghost use Rattle.hv_types.specs.Video.{IsPicture};
ghost use Rattle.hv_tree_model.specs.Trees.{side};
ghost use Rattle.hv_tree_model.specs.Sites.{squares, x0, y0};
ghost use Rattle.hv_recon.specs.CodedLeaves.{IsLeafCoded, IsLeafSet};
ghost use Rattle.hv_recon.specs.CodedUnits.{AreQuartersCoded};
ghost use Rattle.hv_recon.specs.Leaves.{lists_of_plan, DecodesLeaf, KeepsOtherSamples};

use crate::coded_unit::code_unit;
use crate::leaf::quarter;
use crate::shapes::Unit;
use hv_block::{CtbPlan, Neighbours, Samples};
use hv_plan::{Place, Pred};
use hv_types::Picture;

/// Codes a leaf of a coding tree block as one intra coding unit of this `mode`, 0 to 34: makes it
/// that unit in the plan, gives it the levels of what its prediction leaves of the `input`, and
/// `out` its samples of luma, Cb and Cr before the in-loop filters (8.4.4.1, 8.6.2).
///
/// The leaf has this `address` in z-scan order, 0 to 63, and this `size`, 0 for 8x8 luma samples
/// to 3 for 64x64. It lies in the picture, whose slice has the quantiser `qp` (`SliceQpY`), 0 to
/// 51. `near` are the edges of the blocks around, before the in-loop filters, and `out` has the
/// samples of the units before it in decoding order. What `out` and the plan have of later ones
/// isn't read, and all that comes before the leaf is kept. One of 64x64 has four transform units,
/// each coded behind those before. What is decoded of the leaf is the same whatever reference
/// pictures there are. It takes no memory and always answers.
pub fn code_leaf(
    plan: &mut CtbPlan,
    address: u8,
    size: u8,
    mode: u8,
    place: Place,
    qp: u8,
    near: &Neighbours,
    input: &Picture,
    out: &mut Samples,
)
    requires size { size ≤ 3 }
    requires address { address < 64 }
    requires node { address % squares size ≡ 0 }
    requires right { x0 place address + side size ≤ place.width }
    requires bottom { y0 place address + side size ≤ place.height }
    requires mode { mode ≤ 34 }
    requires quantiser { qp ≤ 51 }
    requires whole { IsPicture place.width place.height input.now }
    ensures coded { IsLeafCoded input.now plan.new place near.now size address mode qp out.old
        out.new }
    ensures set { IsLeafSet size address mode plan.old plan.new }
    ensures decoded { (references : List Picture) →
        DecodesLeaf (lists_of_plan plan.new) size address place qp references near.now out.old
        out.new }
    ensures kept { KeepsOtherSamples size address out.old out.new }
{
    let squares = plan.units().len();
    prove!(squares == 64);
    plan.set_leaf(address, size, Pred::Intra { mode });
    if size < 3 {
        let unit = Unit {
            address,
            size,
            mode,
            qp,
        };
        code_unit(plan, place, near, unit, input, out);
    } else {
        code_quarters(plan, place, near, mode, qp, input, out);
    }
}

/// Codes the four transform units of a coding unit of 64x64 of this mode and quantiser, each behind
/// the one before.
fn code_quarters(
    plan: &mut CtbPlan,
    place: Place,
    near: &Neighbours,
    mode: u8,
    qp: u8,
    input: &Picture,
    out: &mut Samples,
)
    requires right { x0 place 0 + side 3 ≤ place.width }
    requires bottom { y0 place 0 + side 3 ≤ place.height }
    requires mode { mode ≤ 34 }
    requires quantiser { qp ≤ 51 }
    requires whole { IsPicture place.width place.height input.now }
    ensures coded { AreQuartersCoded input.now plan.new place near.now mode qp out.old out.new }
    ensures units { plan.new.units ≡ plan.old.units }
{
    code_unit(plan, place, near, quarter(0, mode, qp), input, out);
    code_unit(plan, place, near, quarter(16, mode, qp), input, out);
    code_unit(plan, place, near, quarter(32, mode, qp), input, out);
    code_unit(plan, place, near, quarter(48, mode, qp), input, out);
}
