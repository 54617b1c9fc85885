//! How strongly an edge is filtered.

ghost use Rattle.std.specs.Prelude.{◌≡◌, ◌≤◌, ◌+◌, ◌-◌, ◌*◌, ◌^◌, ◌<◌};
ghost use Rattle.hv_deblock_model.specs.EdgeStrength.{vectors_differ, motion_strength, strength, log2_transform_squares, is_transform_edge};

use hv_deblock_model::SquareCoding;
use hv_plan::{Mv, Pred};

/// Whether two vectors differ by a whole luma sample or more in a component.
fn vectors_differ(a: Mv, b: Mv) -> bool
    ensures { result ≡ vectors_differ a b }
{
    a.x.abs_diff(b.x) >= 4 || a.y.abs_diff(b.y) >= 4
}

/// The strength between two units, without their levels.
pub(crate) fn motion_strength(p: Pred, q: Pred) -> u8
    ensures value { result ≡ motion_strength p q }
    ensures most { result ≤ 2 }
{
    match (p, q) {
        (
            Pred::Inter { reference, mv, .. },
            Pred::Inter {
                reference: other_reference,
                mv: other_mv,
                ..
            },
        ) => u8::from(reference != other_reference || vectors_differ(mv, other_mv)),
        _ => 2,
    }
}

/// The boundary filtering strength bS between two squares that a transform block edge lies between,
/// 0 to 2 (8.7.2): 2 where one is intra, else 1 where one is of a luma transform block with a level
/// that isn't 0, or their references differ, or their vectors by 4 quarters of a luma sample or
/// more in a component, else 0. The entries of list 0 are different pictures.
pub fn strength(p: SquareCoding, q: SquareCoding) -> u8
    ensures value { result ≡ strength p q }
    ensures most { result ≤ 2 }
{
    let strength = motion_strength(p.unit.pred, q.unit.pred);
    if (p.has_levels || q.has_levels) && strength == 0 {
        1
    } else {
        strength
    }
}

/// Whether a transform block begins at this column, or row, of squares of 8x8 luma samples of the
/// picture, in a coding unit of this depth, which is 0 to 3.
pub fn is_transform_edge(place: u32, depth: u8) -> bool
    ensures { result ≡ is_transform_edge place depth }
{
    match depth {
        0 | 1 => place % 4 == 0,
        2 => place % 2 == 0,
        _ => true,
    }
}
