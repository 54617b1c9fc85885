//! The most probable luma modes of a unit (8.4.2), for those who choose one.

ghost use Rattle.std.specs.Prelude.{◌≡◌, ◌<◌, ℕ, List, false};
ghost use Rattle.hv_tables.specs.declared.bins.SliceKind.{SliceKind};
ghost use Rattle.hv_tree_model.specs.Sites.{is_outside};
ghost use Rattle.hv_tree_model.specs.EarlierUnits.{Square};
ghost use Rattle.hv_tree_model.specs.MostProbableModes.{candidates};
ghost use Rattle.hv_tree_model.specs.Plans.{in_block};
ghost use Rattle.hv_near.specs.Neighbours.{lists_of_plan, around_of};
ghost use Rattle.hv_near.specs.Squares.{Shows};

use crate::block::Block;
use crate::near::{beside, view};
use crate::seen::candidates;
use hv_block::{CtbPlan, Neighbours};
use hv_near::Site;
use hv_plan::Place;
use hv_tables::SliceKind;

/// The most probable luma modes (`candModeList`, 8.4.2) of a coding unit that begins at this
/// address of the block at this place, by the units at its left and above: those of the plan, as
/// far as they come before the address, and those in the edges of the blocks around. They are the
/// defined ones, behind any squares coded earlier that are those of the plan's units at the
/// addresses below, so far as they are inside the picture. The unit begins inside the picture,
/// which has a column of luma samples at least; the kind of the slice makes no difference. It takes
/// no memory and always answers.
pub fn most_probable_modes(place: Place, near: &Neighbours, plan: &CtbPlan, address: u8) -> [u8; 3]
    requires width { 0 < place.width }
    requires address { address < 64 }
    ensures { (kind : SliceKind) (references : ℕ) (earlier : List Square) →
        Shows place (lists_of_plan plan.now) address earlier → is_outside place address ≡ false →
        result ≡
        candidates (in_block kind references place (around_of near.now)) address earlier }
{
    let block = Block {
        kind: SliceKind::I,
        references: 1,
        site: Site::of(place),
        beside: beside(near),
        plan: view(plan),
    };
    candidates(&block, address)
}
