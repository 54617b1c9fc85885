//! How the squares around a unit move, by the units of its block and of the blocks around.

ghost use Rattle.std.specs.Prelude.{◌≡◌, ◌+◌, ◌*◌, ◌<◌, ◌≤◌, ◌^◌, length, map, slice_get, slice_index_or};
ghost use Rattle.hv_tree_model.specs.Sites.{ctb_column, ctb_row};
ghost use Rattle.hv_tree_model.specs.EarlierUnits.{Unavailable};
ghost use Rattle.hv_tree_model.specs.Plans.{coded_square, square_or_none, on_right, on_bottom, square_at_left, square_above, square_inside, square_around, is_in_picture, look_around};
ghost use Rattle.hv_near.specs.Neighbours.{unit_edges, around_of};
ghost use Rattle.hv_inter_model.specs.UnitVectors.{unit_with_vector};
ghost use Rattle.hv_vector_model.specs.Vectors.{moving_of, neighbourhood_of, edges_with_vectors, around_with_vectors};
ghost use Rattle.hv_amvp.specs.Own.{own_squares};

use hv_block::{Edges, Neighbours};
use hv_near::{address_of, column_of, row_of};
use hv_plan::{Place, Pred, Unit};
use hv_vector_model::{Moving, Neighbourhood};

/// How a unit moves.
fn moving(unit: Unit) -> Option<Moving>
    ensures { result ≡ moving_of (coded_square (unit_with_vector unit)) }
{
    match unit.pred {
        Pred::Inter { reference, mv, .. } => Some(Moving { reference, mv }),
        Pred::Intra { .. } => None,
    }
}

/// How one of eight units moves.
fn nth(units: &[Unit; 8], i: u8) -> Option<Moving>
    ensures { result ≡ moving_of (square_or_none (slice_get (map unit_with_vector units.now) i)) }
{
    if i >= 8 {
        return None;
    }
    moving(units[usize::from(i)])
}

/// A square in the last column of a block.
fn on_right(edges: &Option<Edges>, i: u8) -> Option<Moving>
    ensures { result ≡ moving_of (on_right (edges_with_vectors (unit_edges edges.now)) i) }
{
    match edges {
        Some(edges) => nth(&edges.right_units, i),
        None => None,
    }
}

/// A square in the last row of a block.
fn on_bottom(edges: &Option<Edges>, i: u8) -> Option<Moving>
    ensures { result ≡ moving_of (on_bottom (edges_with_vectors (unit_edges edges.now)) i) }
{
    match edges {
        Some(edges) => nth(&edges.bottom_units, i),
        None => None,
    }
}

/// A square in the column before the block. Columns and rows are counted so that those of the block
/// begin at 8.
fn at_left(near: &Neighbours, row: u8) -> Option<Moving>
    requires { 7 ≤ row }
    ensures { result ≡ moving_of (square_at_left (around_with_vectors (around_of near.now)) row) }
{
    if row < 8 {
        return on_bottom(&near.above_left, 7);
    }
    on_right(&near.left, row - 8)
}

/// A square in the row above the block and the next one.
fn above(near: &Neighbours, column: u8) -> Option<Moving>
    requires { 8 ≤ column }
    ensures { result ≡ moving_of (square_above (around_with_vectors (around_of near.now)) column) }
{
    if column < 16 {
        return on_bottom(&near.above, column - 8);
    }
    on_bottom(&near.above_right, column - 16)
}

/// A square of the block at an address, if it comes before the node at `address`.
fn earlier(units: &[Unit], address: u8, at: u8) -> Option<Moving>
    requires all { length units.now ≡ 64 }
    requires inside { at < 64 }
    ensures { result ≡ moving_of (slice_index_or (own_squares units.now address) at Unavailable) }
{
    if at >= address {
        return None;
    }
    moving(units[usize::from(at)])
}

/// A square of the block or behind it.
fn own(units: &[Unit], address: u8, column: u8, row: u8) -> Option<Moving>
    requires all { length units.now ≡ 64 }
    requires column { 8 ≤ column }
    requires row { 8 ≤ row }
    ensures { result ≡ moving_of (square_inside (own_squares units.now address) column row) }
{
    if column >= 16 || row >= 16 {
        return None;
    }
    earlier(units, address, address_of(column - 8, row - 8))
}

/// A square of the block or around it.
fn around(near: &Neighbours, units: &[Unit], address: u8, column: u8, row: u8) -> Option<Moving>
    requires all { length units.now ≡ 64 }
    requires column { 7 ≤ column }
    requires row { 7 ≤ row }
    ensures { result ≡ moving_of (square_around (around_with_vectors (around_of near.now))
        (own_squares units.now address) column row) }
{
    if column < 8 {
        return at_left(near, row);
    }
    if row < 8 {
        return above(near, column);
    }
    own(units, address, column, row)
}

/// Whether a square at this column and row lies in the picture.
fn is_in_picture(place: Place, column: u8, row: u8) -> bool
    ensures { result ≡ is_in_picture place (8 * ctb_column place + column)
        (8 * ctb_row place + row) }
{
    if place.width == 0 {
        return false;
    }
    let across = place.width.div_ceil(64);
    let x = 8 * u64::from(place.index % across) + u64::from(column);
    let y = 8 * u64::from(place.index / across) + u64::from(row);
    x >= 8
        && y >= 8
        && 8 * (x - 8) < u64::from(place.width)
        && 8 * (y - 8) < u64::from(place.height)
}

/// A square that is available to the node at `address`.
#[tactic(auto, unfolding(hv_tree_model::specs::Plans::look_around))]
fn seen(
    place: Place,
    near: &Neighbours,
    units: &[Unit],
    address: u8,
    column: u8,
    row: u8,
) -> Option<Moving>
    requires all { length units.now ≡ 64 }
    requires column { 7 ≤ column }
    requires row { 7 ≤ row }
    ensures { result ≡ moving_of (look_around place (around_with_vectors (around_of near.now))
        (own_squares units.now address) column row) }
{
    if !is_in_picture(place, column, row) {
        return None;
    }
    around(near, units, address, column, row)
}

/// The side of a node of this size, in squares.
fn side(size: u8) -> u8
    requires { size ≤ 3 }
    ensures value { result ≡ 2 ^ size }
    ensures least { 1 ≤ result }
    ensures most { result ≤ 8 }
{
    match size {
        0 => 1,
        1 => 2,
        2 => 4,
        _ => 8,
    }
}

/// The five squares around the node of this size at an address.
pub fn neighbourhood(
    place: Place,
    near: &Neighbours,
    units: &[Unit],
    address: u8,
    size: u8,
) -> Neighbourhood
    requires all { length units.now ≡ 64 }
    requires inside { address < 64 }
    requires size { size ≤ 3 }
    ensures { result ≡ neighbourhood_of (look_around place
        (around_with_vectors (around_of near.now))) size address
        (own_squares units.now address) }
{
    let column = 8 + column_of(address);
    let row = 8 + row_of(address);
    let side = side(size);
    Neighbourhood {
        a0: seen(place, near, units, address, column - 1, row + side),
        a1: seen(place, near, units, address, column - 1, row + side - 1),
        b0: seen(place, near, units, address, column + side, row - 1),
        b1: seen(place, near, units, address, column + side - 1, row - 1),
        b2: seen(place, near, units, address, column - 1, row - 1),
    }
}
