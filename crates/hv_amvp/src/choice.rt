//! The two candidates of a unit, from the five squares around it (8.5.3.2.6, 8.5.3.2.7).

ghost use Rattle.std.specs.Prelude.{◌≡◌, ◌∷◌, [], ◌++◌, take, option_map};
ghost use Rattle.std.specs.Option.{option_or};
ghost use Rattle.hv_vector_model.specs.VectorPrediction.{first_of, of_reference, same_reference, any_reference, scaled_for, left_squares, squares_above, isScaledFlagL0, mvL0A, mvL0B, no_vector, those_found, mvpListL0};
ghost use Rattle.hv_amvp.specs.Entries.{entries};

use crate::scaling::{Distances, scaled_for};
use hv_plan::Mv;
use hv_vector_model::{Moving, Neighbourhood};

/// The first of two that moves.
fn first_of_two(a: Option<Moving>, b: Option<Moving>) -> Option<Moving>
    ensures { result ≡ first_of (a ∷ b ∷ []) }
{
    match a {
        Some(_) => a,
        None => b,
    }
}

/// The first of three that moves.
fn first_of_three(a: Option<Moving>, b: Option<Moving>, c: Option<Moving>) -> Option<Moving>
    ensures { result ≡ first_of (a ∷ b ∷ c ∷ []) }
{
    match a {
        Some(_) => a,
        None => first_of_two(b, c),
    }
}

/// A square, if it has this reference.
fn of_reference(reference: u8, moving: Option<Moving>) -> Option<Moving>
    ensures { result ≡ of_reference reference moving }
{
    match moving {
        Some(square) if square.reference == reference => moving,
        _ => None,
    }
}

/// The vector of a square that moves.
fn vector_of(moving: Option<Moving>) -> Option<Mv>
    ensures { result ≡ option_map (λ m. m.mv) moving }
{
    match moving {
        Some(square) => Some(square.mv),
        None => None,
    }
}

/// The vector of a square that moves, scaled for a unit of this reference.
fn scaled_vector_of(distances: Distances, reference: u8, moving: Option<Moving>) -> Option<Mv>
    ensures { result ≡ option_map (scaled_for (entries distances) reference) moving }
{
    match moving {
        Some(square) => Some(scaled_for(distances, reference, square)),
        None => None,
    }
}

/// The vector of the first square at the left with this reference; else of the first, scaled.
fn left_vector(distances: Distances, reference: u8, n: Neighbourhood) -> Option<Mv>
    ensures { result ≡ option_or (same_reference reference (left_squares n))
        (any_reference (entries distances) reference (left_squares n)) }
{
    let same = first_of_two(of_reference(reference, n.a0), of_reference(reference, n.a1));
    match same {
        Some(square) => Some(square.mv),
        None => scaled_vector_of(distances, reference, first_of_two(n.a0, n.a1)),
    }
}

/// The vector of the first square above with this reference.
fn same_vector_above(reference: u8, n: Neighbourhood) -> Option<Mv>
    ensures { result ≡ same_reference reference (squares_above n) }
{
    vector_of(first_of_three(
        of_reference(reference, n.b0),
        of_reference(reference, n.b1),
        of_reference(reference, n.b2),
    ))
}

/// The vector of the first square above, scaled.
fn any_vector_above(distances: Distances, reference: u8, n: Neighbourhood) -> Option<Mv>
    ensures { result ≡ any_reference (entries distances) reference (squares_above n) }
{
    scaled_vector_of(distances, reference, first_of_three(n.b0, n.b1, n.b2))
}

const ZERO: Mv = Mv { x: 0, y: 0 };

/// What was found, without a second one that equals the first, and with zeros up to two.
fn two_of(a: Option<Mv>, b: Option<Mv>) -> [Mv; 2]
    ensures { result ≡ take 2 (those_found a b ++ (no_vector ∷ no_vector ∷ [])) }
{
    match (a, b) {
        (Some(a), Some(b)) if a.x == b.x && a.y == b.y => [a, ZERO],
        (Some(a), Some(b)) => [a, b],
        (Some(mv), None) | (None, Some(mv)) => [mv, ZERO],
        (None, None) => [ZERO, ZERO],
    }
}

/// The two candidates (`mvpListL0`) for the vector of a unit of this reference.
pub fn candidates_by(distances: Distances, reference: u8, n: Neighbourhood) -> [Mv; 2]
    ensures { result ≡ mvpListL0 (entries distances) reference n }
{
    let above = same_vector_above(reference, n);
    if n.a0.is_some() || n.a1.is_some() {
        return two_of(left_vector(distances, reference, n), above);
    }
    two_of(above, any_vector_above(distances, reference, n))
}
