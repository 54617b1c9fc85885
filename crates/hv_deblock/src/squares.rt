//! What the filter asks about a picture.

ghost use Rattle.std.specs.Prelude.{◌≡◌, ◌<◌, ◌≤◌, ◌*◌, ◌^◌, ℕ};
ghost use Rattle.hv_deblock_model.specs.EdgeStrength.{Squares, edge_strength};
ghost use Rattle.hv_deblock.specs.Filled.{seen, first_of, second_of};
ghost use Rattle.hv_deblock.specs.Passes.{strength_of_four, IsCarried, scale};

use crate::component::Component;
use crate::direction::Edges;
use crate::strengths::{is_transform_edge, motion_strength};
use hv_plan::Unit;

/// How the squares of 8x8 luma samples of a picture are coded.
pub trait CodedSquares {
    /// How many squares stand in a row.
    ghost columns: { Self → ℕ };

    /// How many rows of them there are.
    ghost rows: { Self → ℕ };

    /// How each of them is coded.
    ghost coding: { Self → Squares };

    /// The coding unit of the square at this column and row, both in the picture.
    fn unit(&self, column: u32, row: u32) -> Unit
        requires column { column < columns self.now }
        requires row { row < rows self.now }
        ensures { result ≡ (coding self.now column row).unit };

    /// Whether the luma transform block of the square at this column and row, both in the picture,
    /// has a level that isn't 0 (`cbf_luma`).
    fn has_levels(&self, column: u32, row: u32) -> bool
        requires column { column < columns self.now }
        requires row { row < rows self.now }
        ensures { result ≡ (coding self.now column row).has_levels };
}

/// The strength of the edge before a square. Levels are asked for only where they decide.
#[inline(always)]
fn edge_strength<E: Edges, S: CodedSquares>(squares: &S, column: u32, row: u32) -> u8
    requires least { 0 < column }
    requires column { column <
        first_of E.direction (S.columns squares.now) (S.rows squares.now) }
    requires row { row < second_of E.direction (S.columns squares.now) (S.rows squares.now) }
    ensures value { result ≡
        edge_strength (seen E.direction (S.coding squares.now)) column row }
    ensures most { result ≤ 2 }
{
    let behind = E::unit(squares, column, row);
    if !is_transform_edge(column, behind.depth) {
        return 0;
    }
    let before = E::unit(squares, column - 1, row);
    let strength = motion_strength(before.pred, behind.pred);
    if strength == 0
        && (E::has_levels(squares, column - 1, row) || E::has_levels(squares, column, row))
    {
        return 1;
    }
    strength
}

/// The strength of edge number `k` in the four rows of this number, where `above` is that of the
/// four rows above: a square of luma has eight rows, so that every second one is as above.
#[inline(always)]
pub(crate) fn strength_of_four<E: Edges, S: CodedSquares>(
    squares: &S,
    component: Component,
    k: u32,
    four: u32,
    above: u8,
) -> u8
    requires least { 0 < k }
    requires k { 8 * k <
        scale component * first_of E.direction (S.columns squares.now) (S.rows squares.now) }
    requires fits { 8 * k < 2 ^ 32 }
    requires four { 4 * four <
        scale component * second_of E.direction (S.columns squares.now) (S.rows squares.now) }
    requires above { IsCarried component (seen E.direction (S.coding squares.now)) k four above }
    requires above_most { above ≤ 2 }
    ensures value { result ≡
        strength_of_four component (seen E.direction (S.coding squares.now)) k four }
    ensures most { result ≤ 2 }
{
    match component {
        Component::Luma => {
            if four % 2 == 1 {
                above
            } else {
                edge_strength::<E, S>(squares, k, four / 2)
            }
        }
        Component::Chroma => edge_strength::<E, S>(squares, 2 * k, four),
    }
}
