//! A block's plan and its neighbours, as far as bins need them.

ghost use Rattle.std.specs.Prelude.{◌≡◌, ◌<◌, ℕ};
ghost use Rattle.hv_tree_model.specs.Plans.{on_right, on_bottom};
ghost use Rattle.hv_syntax.specs.Blocks.{lists_of, side_square, AreBeside};
ghost use Rattle.hv_near.specs.Neighbours.{lists_of_plan, unit_edges, around_of};

use crate::block::{Beside, Plan};
use hv_block::{CtbPlan, Edges, Neighbours};
use hv_plan::Unit;

/// The units in the last column of a block.
#[inline(always)]
fn right_units(edges: &Option<Edges>) -> Option<[Unit; 8]>
    ensures { (i : ℕ) → on_right (unit_edges edges.now) i ≡ side_square result i }
{
    match edges {
        Some(edges) => Some(edges.right_units),
        None => None,
    }
}

/// The units in the last row of a block.
#[inline(always)]
fn bottom_units(edges: &Option<Edges>) -> Option<[Unit; 8]>
    ensures { (i : ℕ) → on_bottom (unit_edges edges.now) i ≡ side_square result i }
{
    match edges {
        Some(edges) => Some(edges.bottom_units),
        None => None,
    }
}

/// The units beside a block.
pub fn beside(near: &Neighbours) -> Beside
    ensures { AreBeside result (around_of near.now) }
{
    Beside {
        left: right_units(&near.left),
        above: bottom_units(&near.above),
    }
}

/// The lists of a plan.
pub fn view<'a>(plan: &'a CtbPlan) -> Plan<'a>
    ensures { lists_of result ≡ lists_of_plan plan.entry.now }
{
    Plan {
        units: plan.units(),
        luma: plan.luma(),
        cb: plan.cb(),
        cr: plan.cr(),
    }
}
