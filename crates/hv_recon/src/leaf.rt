//! A leaf of a coding tree block: an intra or inter coding unit.

ghost use Rattle.std.specs.Prelude.{◌≡◌, ◌+◌, ◌%◌, ◌<◌, ◌≤◌, slice_get};
ghost use Rattle.std.specs.Option.{option_copied};
ghost use Rattle.hv_tree_model.specs.Trees.{side};
ghost use Rattle.hv_tree_model.specs.Sites.{squares, x0, y0};
ghost use Rattle.hv_recon.specs.Leaves.{lists_with_vectors, pictures_of, IsKnown, DecodesLeaf, KeepsOtherSamples};
ghost use Rattle.hv_recon.specs.Units.{IsUnitPut, IsInterUnitPut, AreQuartersPut, AreInterQuartersPut};

use crate::inter_unit::rebuild_inter_unit;
use crate::shapes::{InterUnit, Unit};
use crate::unit::rebuild_unit;
use hv_block::{CtbPlan, Frame, Neighbours, Samples};
use hv_plan::{Mv, Place, Pred};
use hv_types::Picture;

/// Rebuilds a coding unit of a coding tree block (8.4.4.1, 8.5.3.3, 8.6.2): its samples of luma, Cb
/// and Cr before the in-loop filters.
///
/// The unit has this `address` in z-scan order, 0 to 63, and this `size`, 0 for 8x8 luma samples
/// to 3 for 64x64. The plan says how it is predicted, by an intra mode, 0 to 34, or by a vector
/// from an entry of list 0 that is there, and its levels. It lies in the picture, whose slice has
/// the quantiser `qp` (`SliceQpY`), 0 to 51, and whose list 0 has what is shown of the frames
/// `first` and `second`. `near` are the edges of the blocks around, before the in-loop filters, and
/// `out` has the samples of the units before it in decoding order. What `out` has of later ones
/// isn't read, and all but the unit's samples are kept. One of 64x64 has four transform units;
/// where it is intra, each is predicted from those before. It takes no memory and always answers.
pub fn rebuild_leaf(
    plan: &CtbPlan,
    address: u8,
    size: u8,
    place: Place,
    qp: u8,
    near: &Neighbours,
    first: Option<&Frame>,
    second: Option<&Frame>,
    out: &mut Samples,
)
    requires size { size ≤ 3 }
    requires address { address < 64 }
    requires node { address % squares size ≡ 0 }
    requires right { x0 place address + side size ≤ place.width }
    requires bottom { y0 place address + side size ≤ place.height }
    requires known { IsKnown (pictures_of (option_copied first) (option_copied second))
        (slice_get plan.now.units address) }
    requires quantiser { qp ≤ 51 }
    ensures decoded { DecodesLeaf (lists_with_vectors plan.now) size address place qp
        (pictures_of (option_copied first.entry) (option_copied second.entry)) near.now out.old
        out.new }
    ensures kept { KeepsOtherSamples size address out.old out.new }
{
    match plan.units()[usize::from(address)].pred {
        Pred::Intra { mode } => {
            rebuild_intra_leaf(plan, address, size, mode, place, qp, near, out);
        }
        Pred::Inter { reference, mv, .. } => {
            if let Some(picture) = entry(first, second, reference) {
                rebuild_inter_leaf(plan, address, size, mv, place, qp, picture, out);
            }
        }
    }
}

/// The picture that an entry of list 0 shows; none where it isn't there.
fn entry<'a>(
    first: Option<&'a Frame>,
    second: Option<&'a Frame>,
    reference: u8,
) -> Option<&'a Picture>
    ensures { option_copied result ≡
        slice_get (pictures_of (option_copied first.entry) (option_copied second.entry))
        reference }
{
    match (reference, first, second) {
        (0, Some(frame), _) => Some(&frame.shown),
        (1, Some(_), Some(frame)) => Some(&frame.shown),
        _ => None,
    }
}

/// Rebuilds an intra coding unit of this mode.
fn rebuild_intra_leaf(
    plan: &CtbPlan,
    address: u8,
    size: u8,
    mode: u8,
    place: Place,
    qp: u8,
    near: &Neighbours,
    out: &mut Samples,
)
    requires size { size ≤ 3 }
    requires address { address < 64 }
    requires node { address % squares size ≡ 0 }
    requires width { 0 < place.width }
    requires mode { mode ≤ 34 }
    requires quantiser { qp ≤ 51 }
    ensures one { size ≤ 2 →
        IsUnitPut plan.now place near.now size address mode qp out.old out.new }
    ensures four { size ≡ 3 → AreQuartersPut plan.now place near.now mode qp out.old out.new }
{
    if size < 3 {
        let unit = Unit {
            address,
            size,
            mode,
            qp,
        };
        rebuild_unit(plan, place, near, unit, out);
    } else {
        rebuild_quarters(plan, place, near, mode, qp, out);
    }
}

/// Rebuilds the four transform units of a coding unit of 64x64, each behind the one before.
fn rebuild_quarters(
    plan: &CtbPlan,
    place: Place,
    near: &Neighbours,
    mode: u8,
    qp: u8,
    out: &mut Samples,
)
    requires width { 0 < place.width }
    requires mode { mode ≤ 34 }
    requires quantiser { qp ≤ 51 }
    ensures { AreQuartersPut plan.now place near.now mode qp out.old out.new }
{
    rebuild_unit(plan, place, near, quarter(0, mode, qp), out);
    rebuild_unit(plan, place, near, quarter(16, mode, qp), out);
    rebuild_unit(plan, place, near, quarter(32, mode, qp), out);
    rebuild_unit(plan, place, near, quarter(48, mode, qp), out);
}

/// A transform unit of a coding unit of 64x64.
pub fn quarter(address: u8, mode: u8, qp: u8) -> Unit
    requires address { address < 64 }
    requires node { address % 16 ≡ 0 }
    requires mode { mode ≤ 34 }
    requires quantiser { qp ≤ 51 }
    ensures address { result.address ≡ address }
    ensures size { result.size ≡ 2 }
    ensures mode { result.mode ≡ mode }
    ensures qp { result.qp ≡ qp }
{
    Unit {
        address,
        size: 2,
        mode,
        qp,
    }
}

/// Rebuilds an inter coding unit from a reference picture by this vector.
fn rebuild_inter_leaf(
    plan: &CtbPlan,
    address: u8,
    size: u8,
    mv: Mv,
    place: Place,
    qp: u8,
    reference: &Picture,
    out: &mut Samples,
)
    requires size { size ≤ 3 }
    requires address { address < 64 }
    requires node { address % squares size ≡ 0 }
    requires right { x0 place address + side size ≤ place.width }
    requires bottom { y0 place address + side size ≤ place.height }
    requires quantiser { qp ≤ 51 }
    ensures one { size ≤ 2 →
        IsInterUnitPut plan.now place size address reference.now mv qp out.old out.new }
    ensures four { size ≡ 3 →
        AreInterQuartersPut plan.now place reference.now mv qp out.old out.new }
{
    if size < 3 {
        let unit = InterUnit {
            address,
            size,
            mv,
            qp,
        };
        rebuild_inter_unit(plan, place, reference, unit, out);
    } else {
        rebuild_inter_quarters(plan, place, reference, mv, qp, out);
    }
}

/// Rebuilds the four transform units of an inter coding unit of 64x64.
fn rebuild_inter_quarters(
    plan: &CtbPlan,
    place: Place,
    reference: &Picture,
    mv: Mv,
    qp: u8,
    out: &mut Samples,
)
    requires right { x0 place 0 + side 3 ≤ place.width }
    requires bottom { y0 place 0 + side 3 ≤ place.height }
    requires quantiser { qp ≤ 51 }
    ensures { AreInterQuartersPut plan.now place reference.now mv qp out.old out.new }
{
    rebuild_inter_unit(plan, place, reference, inter_quarter(0, mv, qp), out);
    rebuild_inter_unit(plan, place, reference, inter_quarter(16, mv, qp), out);
    rebuild_inter_unit(plan, place, reference, inter_quarter(32, mv, qp), out);
    rebuild_inter_unit(plan, place, reference, inter_quarter(48, mv, qp), out);
}

/// A transform unit of an inter coding unit of 64x64.
fn inter_quarter(address: u8, mv: Mv, qp: u8) -> InterUnit
    requires address { address < 64 }
    requires node { address % 16 ≡ 0 }
    requires quantiser { qp ≤ 51 }
    ensures address { result.address ≡ address }
    ensures size { result.size ≡ 2 }
    ensures mv { result.mv ≡ mv }
    ensures qp { result.qp ≡ qp }
{
    InterUnit {
        address,
        size: 2,
        mv,
        qp,
    }
}
