//! A pass over a plane: all of its edges of one direction.

ghost use Rattle.std.specs.Prelude.{◌≡◌, ◌+◌, ◌-◌, ◌*◌, ◌^◌, ◌%◌, ◌<◌, ◌≤◌};
ghost use Rattle.hv_types.specs.Samples.{IsWhole};
ghost use Rattle.hv_deblock_model.specs.Deblocking.{pass};
ghost use Rattle.hv_deblock.specs.Filled.{columns_of, rows_of, seen, first_of, second_of, samples_of, IsFilled, IsTurnedInto};
ghost use Rattle.hv_deblock.specs.Passes.{filter_of, scale};

use crate::component::Component;
use crate::direction::Edges;
use crate::segment::filter_segment;
use crate::squares::{CodedSquares, strength_of_four};
use hv_types::Plane;

/// Filters all rows across edge number `k`, and leaves every other sample.
#[inline(always)]
fn filter_edge<E: Edges, S: CodedSquares>(
    plane: &mut Plane,
    component: Component,
    qp: u8,
    squares: &S,
    k: u32,
)
    requires whole { IsWhole plane.old }
    requires qp { qp ≤ 51 }
    requires columns { columns_of E.direction plane.old ≡
        scale component * first_of E.direction (S.columns squares.now) (S.rows squares.now) }
    requires rows { rows_of E.direction plane.old ≡
        scale component * second_of E.direction (S.columns squares.now) (S.rows squares.now) }
    requires least { 0 < k }
    requires k { 8 * k + 3 < columns_of E.direction plane.old }
    requires fits { 8 * k + 3 < 2 ^ 32 }
    ensures { IsFilled E.direction (8 * k - 4) (8 * k + 4) 0 (rows_of E.direction plane.old)
        (pass (columns_of E.direction plane.old)
        (filter_of component qp (seen E.direction (S.coding squares.now)))
        (samples_of E.direction plane.old))
        plane.old plane.new }
{
    let fours = E::rows(plane) / 4;
    let mut strength = 0;
    for four in 0..fours {
        strength = strength_of_four::<E, S>(squares, component, k, four, strength);
        filter_segment::<E>(plane, component, qp, strength, k, 4 * four);
    }
}

/// Filters all edges of one direction in a plane of a component, by the quantiser of luma, 0 to 51.
#[inline(never)]
pub(crate) fn pass<E: Edges, S: CodedSquares>(
    plane: &mut Plane,
    component: Component,
    qp: u8,
    squares: &S,
)
    requires whole { IsWhole plane.old }
    requires qp { qp ≤ 51 }
    requires columns { columns_of E.direction plane.old ≡
        scale component * first_of E.direction (S.columns squares.now) (S.rows squares.now) }
    requires rows { rows_of E.direction plane.old ≡
        scale component * second_of E.direction (S.columns squares.now) (S.rows squares.now) }
    ensures { IsTurnedInto E.direction
        (pass (columns_of E.direction plane.old)
        (filter_of component qp (seen E.direction (S.coding squares.now)))
        (samples_of E.direction plane.old))
        plane.old plane.new }
{
    if component.is_still(qp) {
        return;
    }
    let edges = E::columns(plane).div_ceil(8);
    for k in 1..edges {
        filter_edge::<E, S>(plane, component, qp, squares, k);
    }
}
