//! Whether the units of a coding tree block name the coding units of its quadtree.

ghost use Rattle.std.specs.Prelude.{◌≡◌, ◌<◌, ◌≤◌, ◌+◌, ◌-◌, ◌*◌, ℕ, true, false, length, slice_get, Some};
ghost use Rattle.hv_tree_model.specs.Sites.{squares, address_of, is_outside};
ghost use Rattle.hv_tree_model.specs.Plans.{NamesItsUnits, prediction_of, coded_square};
ghost use Rattle.hv_syntax.specs.Blocks.{lists_of, ends};
ghost use Rattle.hv_near.specs.Neighbours.{lists_of_plan};
ghost use Rattle.hv_near.specs.Squares.{NamesNode, own_square};

use crate::block::Plan;
use crate::near::view;
use crate::quadtree::is_leaf;
use hv_block::CtbPlan;
use hv_near::{Site, address_of, is_outside};
use hv_plan::{Mv, Node, Place, Pred, Unit};

/// Whether two vectors are the same.
fn is_same(a: Mv, b: Mv) -> bool
    ensures same { result ≡ true → a ≡ b }
    ensures only { a ≡ b → result ≡ true }
{
    a.x == b.x && a.y == b.y
}

/// Whether what is coded of two predictions is the same.
fn is_coded_alike(a: Pred, b: Pred) -> bool
    ensures same { result ≡ true → prediction_of a ≡ prediction_of b }
    ensures only { prediction_of a ≡ prediction_of b → result ≡ true }
{
    match a {
        Pred::Intra { mode } => match b {
            Pred::Intra { mode: other } => mode == other,
            Pred::Inter { .. } => false,
        },
        Pred::Inter {
            reference,
            mv: _,
            flag,
            mvd,
        } => match b {
            Pred::Intra { .. } => false,
            Pred::Inter {
                reference: other,
                mv: _,
                flag: other_flag,
                mvd: other_mvd,
            } => { reference == other && flag == other_flag && is_same(mvd, other_mvd) }
        },
    }
}

/// Whether a square is coded as this unit is, or is outside the picture.
fn has_unit(site: &Site, plan: &Plan, address: u8, unit: Unit) -> bool
    requires { address < 64 }
    ensures same { result ≡ true → is_outside site.now.place address ≡ false →
        own_square (lists_of plan.now) address ≡ coded_square unit }
    ensures only { (is_outside site.now.place address ≡ false →
        own_square (lists_of plan.now) address ≡ coded_square unit) → result ≡ true }
{
    if is_outside(site, address) {
        return true;
    }
    let own = first_unit(plan, address);
    own.depth == unit.depth && is_coded_alike(own.pred, unit.pred)
}

/// Whether so many squares from an address on are coded as this unit is, or are outside the
/// picture.
fn have_unit(site: &Site, plan: &Plan, from: u8, count: u8, unit: Unit) -> bool
    requires { from + count ≤ 64 }
    ensures same { result ≡ true → (i : ℕ) → i < count →
        is_outside site.now.place (from + i) ≡ false →
        own_square (lists_of plan.now) (from + i) ≡ coded_square unit }
    ensures only { ((i : ℕ) → i < count → is_outside site.now.place (from + i) ≡ false →
        own_square (lists_of plan.now) (from + i) ≡ coded_square unit) → result ≡ true }
{
    if count == 0 {
        return true;
    }
    if !has_unit(site, plan, from, unit) {
        return false;
    }
    have_unit(site, plan, from + 1, count - 1, unit)
}

/// Whether so many squares from an address on are outside the picture.
fn are_outside(site: &Site, from: u8, count: u8) -> bool
    requires { from + count ≤ 64 }
    ensures outside { result ≡ true → (i : ℕ) → i < count →
        is_outside site.now.place (from + i) ≡ true }
    ensures only { ((i : ℕ) → i < count → is_outside site.now.place (from + i) ≡ true) →
        result ≡ true }
{
    if count == 0 {
        return true;
    }
    if !is_outside(site, from) {
        return false;
    }
    are_outside(site, from + 1, count - 1)
}

/// How many squares a node of this size has.
fn squares_of(size: u8) -> u8
    requires { size ≤ 3 }
    ensures value { result ≡ squares size }
    ensures most { result ≤ 64 }
{
    match size {
        0 => 1,
        1 => 4,
        2 => 16,
        _ => 64,
    }
}

/// Whether the units of a coding unit of this size name it, which begins inside the picture.
fn names_leaf(site: &Site, plan: &Plan, size: u8, address: u8, unit: Unit) -> bool
    requires size { size ≤ 3 }
    requires inside { address + squares size ≤ 64 }
    requires begins { is_outside site.now.place address ≡ false }
    requires first { slice_get plan.now.units.now address ≡ Some unit }
    requires leaf { ends size unit.depth ≡ true }
    ensures names { result ≡ true → NamesNode site.now.place (lists_of plan.now) size address }
    ensures only { NamesNode site.now.place (lists_of plan.now) size address → result ≡ true }
{
    if unit.depth != 3 - size {
        return false;
    }
    have_unit(site, plan, address, squares_of(size), unit)
}

/// Whether the units of a node name its coding units.
fn names_node(site: &Site, plan: &Plan, size: u8, address: u8) -> bool
    requires size { size ≤ 3 }
    requires inside { address + squares size ≤ 64 }
    requires address { address < 64 }
    ensures names { result ≡ true → NamesNode site.now.place (lists_of plan.now) size address }
    ensures only { NamesNode site.now.place (lists_of plan.now) size address → result ≡ true }
{
    if is_outside(site, address) {
        return are_outside(site, address, squares_of(size));
    }
    let unit = first_unit(plan, address);
    if is_leaf(size, unit.depth) {
        return names_leaf(site, plan, size, address, unit);
    }
    let below = size - 1;
    let step = squares_of(below);
    if !names_node(site, plan, below, address) {
        return false;
    }
    if !names_node(site, plan, below, address + step) {
        return false;
    }
    if !names_node(site, plan, below, address + 2 * step) {
        return false;
    }
    names_node(site, plan, below, address + 3 * step)
}

/// The unit of a square.
fn first_unit(plan: &Plan, address: u8) -> Unit
    requires { address < 64 }
    ensures { slice_get plan.now.units.now address ≡ Some result }
{
    plan.units[usize::from(address)]
}

/// Whether the plan names its coding units at this place, as `put_ctb` asks: true exactly where
/// each unit inside the picture is coded as that of the first square of its coding unit, and has
/// the depth of the quadtree there. The picture has a column of luma samples at least.
pub fn names_its_units(place: Place, plan: &CtbPlan) -> bool
    requires { 0 < place.width }
    ensures names { result ≡ true → NamesItsUnits place (lists_of_plan plan.now) }
    ensures only { NamesItsUnits place (lists_of_plan plan.now) → result ≡ true }
{
    names_node(&Site::of(place), &view(plan), 3, 0)
}

/// Whether the units of this node name the squares of its tree, as `count_node` asks: true exactly
/// where each unit of it that is inside the picture is coded as that of the first square of its
/// coding unit, and has the depth of the quadtree there. The node lies in the block, and the
/// picture has a column of luma samples at least.
pub fn names_its_node(place: Place, plan: &CtbPlan, node: Node) -> bool
    requires width { 0 < place.width }
    requires depth { node.depth ≤ 3 }
    requires column { node.x < 8 }
    requires row { node.y < 8 }
    requires inside { address_of node.x node.y + squares (3 - node.depth) ≤ 64 }
    ensures names { result ≡ true → NamesNode place (lists_of_plan plan.now) (3 - node.depth)
        (address_of node.x node.y) }
    ensures only { NamesNode place (lists_of_plan plan.now) (3 - node.depth)
        (address_of node.x node.y) → result ≡ true }
{
    names_node(
        &Site::of(place),
        &view(plan),
        3 - node.depth,
        address_of(node.x, node.y),
    )
}
