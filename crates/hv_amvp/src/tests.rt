//! Candidates worked by hand. Entry 0 of list 0 is 4 pictures before the current one, and entry 1
//! is 2 pictures behind it.
use super::*;
use hv_block::{Block, Neighbours};
use hv_plan::{Mv, Place, Pred};
use hv_vector_model::{Moving, Neighbourhood};
use std::test::Fail;

const DISTANCES: Distances = Distances {
    first: 4,
    second: -2,
};

/// The entry that a square is predicted from, and its vector.
type Square = Option<(u8, i16, i16)>;

fn moving(square: Square) -> Option<Moving> {
    match square {
        Some((reference, x, y)) => Some(Moving {
            reference,
            mv: Mv { x, y },
        }),
        None => None,
    }
}

/// The candidates for entry 0 or 1 by A0, A1, B0, B1 and B2.
fn by(reference: u8, squares: [Square; 5]) -> [(i16, i16); 2] {
    let [a0, a1, b0, b1, b2] = squares;
    let around = Neighbourhood {
        a0: moving(a0),
        a1: moving(a1),
        b0: moving(b0),
        b1: moving(b1),
        b2: moving(b2),
    };
    let [a, b] = candidates_by(DISTANCES, reference, around);
    [(a.x, a.y), (b.x, b.y)]
}

#[test]
fn twelve_neighbourhoods(rt: HostRuntime) -> Result<(), Fail> {
    let near = Some((0, 1, 2));
    let other = Some((0, 3, 4));
    let turned = Some((1, 5, -3));
    let no = None;
    let rows = [
        ("none", 0, [no, no, no, no, no], [(0, 0), (0, 0)]),
        ("A0 first", 0, [near, other, no, no, no], [(1, 2), (0, 0)]),
        (
            "same entry first",
            0,
            [turned, other, no, no, no],
            [(3, 4), (0, 0)],
        ),
        (
            "A0 scaled",
            0,
            [turned, turned, no, no, no],
            [(-10, 6), (0, 0)],
        ),
        ("A1 scaled", 0, [no, turned, no, no, no], [(-10, 6), (0, 0)]),
        (
            "A and B",
            0,
            [near, no, turned, other, no],
            [(1, 2), (3, 4)],
        ),
        (
            "B not scaled",
            0,
            [no, near, turned, no, turned],
            [(1, 2), (0, 0)],
        ),
        ("equal", 0, [near, no, no, no, near], [(1, 2), (0, 0)]),
        (
            "A from B",
            0,
            [no, no, turned, other, no],
            [(3, 4), (-10, 6)],
        ),
        ("A from B2", 0, [no, no, no, no, other], [(3, 4), (0, 0)]),
        ("B scaled", 0, [no, no, no, turned, no], [(-10, 6), (0, 0)]),
        (
            "to entry 1",
            1,
            [Some((0, 10, -7)), no, no, no, no],
            [(-5, 3), (0, 0)],
        ),
    ];
    for (what, reference, squares, expected) in rows {
        assert_eq!(rt; by(reference, squares), expected, "{what}");
    }
    assert_eq!(rt;
        by(0, [Some((1, 32767, -32768)), no, no, no, no]),
        [(-32768, 32767), (0, 0)]
    );
    assert_eq!(rt; (DISTANCES.of(1), DISTANCES.of(2)), (-2, 0));
    Ok(())
}

fn inter(reference: u8, x: i16, y: i16) -> Pred {
    Pred::Inter {
        reference,
        mv: Mv { x, y },
        flag: 0,
        mvd: Mv { x: 99, y: 99 },
    }
}

/// The last block of a picture of 2x2. Of its first square B1 is in the block above, and B2 in the
/// one above at the left; of its second quarter A0 isn't decoded yet.
#[test]
fn nodes_of_a_block(rt: HostRuntime) -> Result<(), Fail> {
    let mut corner = Block::new(rt.alloc())?;
    let mut above = Block::new(rt.alloc())?;
    let mut here = Block::new(rt.alloc())?;
    corner.plan.set_leaf(63, 0, inter(0, 7, 8));
    above.plan.set_leaf(42, 0, inter(1, 5, -3));
    here.plan.set_leaf(0, 2, inter(0, 1, 2));
    here.plan.set_leaf(32, 2, inter(0, 9, 9));
    let near = Neighbours {
        left: Some(here.edges()),
        above_left: Some(corner.edges()),
        above: Some(above.edges()),
        above_right: None,
    };
    let place = Place {
        width: 128,
        height: 128,
        index: 3,
    };

    let [a, b] = candidates(&near, &here.plan, place, 0, 0, DISTANCES, 0);
    assert_eq!(rt; ((a.x, a.y), (b.x, b.y)), ((7, 8), (-10, 6)));

    let [a, b] = candidates(&near, &here.plan, place, 16, 2, DISTANCES, 0);
    assert_eq!(rt; ((a.x, a.y), (b.x, b.y)), ((1, 2), (0, 0)));
    Ok(())
}
