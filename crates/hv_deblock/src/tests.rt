//! Each public call, and a picture with a step.
ghost use Rattle.std.specs.Prelude.{◌<◌, false, IfOk};
ghost use Rattle.hv_types.specs.Samples.{IsPlane};

use super::*;
use hv_deblock_model::{Line, Side, SquareCoding};
use hv_plan::{Mv, Pred, Unit};
use hv_types::{NoMemory, Picture, Plane};
use std::alloc::Global;
use std::test::Fail;

/// Units of 8x8, all coded alike: a picture of 4 by 2 of them.
#[derive(Drop)]
struct Alike {
    pred: Pred,
}

impl CodedSquares for Alike {
    ghost columns = { λ s. 4 };

    ghost rows = { λ s. 2 };

    ghost coding = { λ s column row.
        record { unit = record { depth = 3; pred = s.pred }; has_levels = false } };

    fn unit(&self, _column: u32, _row: u32) -> Unit {
        Unit {
            depth: 3,
            pred: self.pred,
        }
    }

    fn has_levels(&self, _column: u32, _row: u32) -> bool {
        false
    }
}

/// A square of a unit of 8x8.
fn square_of(pred: Pred, has_levels: bool) -> SquareCoding {
    SquareCoding {
        unit: Unit { depth: 3, pred },
        has_levels,
    }
}

/// Predicted from another picture, by a vector to the right.
fn moved(reference: u8, x: i16) -> Pred {
    Pred::Inter {
        reference,
        mv: Mv { x, y: 0 },
        flag: 0,
        mvd: Mv { x: 0, y: 0 },
    }
}

/// A line with a step.
fn step(p: u8, q: u8) -> Line {
    Line {
        p: level(p),
        q: level(q),
    }
}

/// Four equal samples.
fn level(s: u8) -> Side {
    Side {
        s0: s,
        s1: s,
        s2: s,
        s3: s,
    }
}

/// A plane of 100 that is 110 from the middle column on.
fn with_step(alloc: Global, width: u32, height: u32) -> Result<Plane, NoMemory>
    requires wide { 0 < width }
    requires high { 0 < height }
    ensures { IfOk result (IsPlane width height) }
{
    let mut plane = Plane::new(alloc, width, height, 100)?;
    for y in 0..height {
        for x in width / 2..width {
            plane.set(x, y, 110);
        }
    }
    Ok(plane)
}

/// The samples around the middle of the last row of luma and Cb, where all units are predicted so.
fn deblocked(alloc: Global, pred: Pred) -> Result<([u8; 8], [u8; 4]), NoMemory> {
    let mut picture = Picture {
        luma: with_step(alloc, 32, 16)?,
        cb: with_step(alloc, 16, 8)?,
        cr: with_step(alloc, 16, 8)?,
    };

    deblock(&mut picture, &Alike { pred }, 32);

    let (luma_samples, cb_samples) = (picture.luma.samples(), picture.cb.samples());
    let mut luma = [0; 8];
    let mut cb = [0; 4];
    if luma_samples.len() == 16 * 32 && cb_samples.len() == 8 * 16 {
        luma.copy_from_slice(&luma_samples[15 * 32 + 12..15 * 32 + 20]);
        cb.copy_from_slice(&cb_samples[7 * 16 + 6..7 * 16 + 10]);
    }
    Ok((luma, cb))
}

/// A step between intra units is smoothed, and one between units with one motion stays.
#[test]
fn steps_between_units(rt: HostRuntime) -> Result<(), Fail> {
    let intra = deblocked(rt.alloc(), Pred::Intra { mode: 1 })?;
    let inter = deblocked(rt.alloc(), moved(0, 5))?;

    assert_eq!(rt;
        intra,
        (
            [100, 100, 101, 103, 107, 109, 110, 110],
            [100, 103, 107, 110]
        )
    );
    assert_eq!(rt;
        inter,
        (
            [100, 100, 100, 100, 110, 110, 110, 110],
            [100, 100, 110, 110]
        )
    );
    Ok(())
}

/// A line of these samples, from the edge away: p and then q.
fn line_of(p: [u8; 4], q: [u8; 4]) -> Line {
    Line {
        p: side_of(p),
        q: side_of(q),
    }
}

/// Four samples, from the edge away.
fn side_of(samples: [u8; 4]) -> Side {
    let [s0, s1, s2, s3] = samples;
    Side { s0, s1, s2, s3 }
}

/// The strong filter against the normal one at quantiser 32, where beta is 26 and tC 3: below each
/// of its three thresholds, and at it.
#[test]
fn thresholds_of_the_strong_filter(rt: HostRuntime) -> Result<(), Fail> {
    let level = [100; 4];
    let lines = [
        (line_of(level, [107; 4]), [103, 102, 101, 100]),
        (line_of(level, [108; 4]), [103, 101, 100, 100]),
        (line_of([101, 100, 101, 101], [101; 4]), [101; 4]),
        (
            line_of([102, 100, 101, 101], [102; 4]),
            [102, 100, 101, 101],
        ),
        (line_of([100, 99, 98, 98], level), [100, 99, 99, 98]),
        (line_of([100, 99, 98, 97], level), [100, 99, 98, 97]),
    ];
    for (line, wanted) in &lines {
        let filtered = luma_line(26, 3, *line, *line, *line);
        assert_eq!(rt; filtered.p, side_of(*wanted));
    }
    Ok(())
}

#[test]
fn parts_of_the_filter(rt: HostRuntime) -> Result<(), Fail> {
    let still = square_of(moved(0, 0), false);
    let strengths = [
        strength(still, square_of(Pred::Intra { mode: 1 }, false)),
        strength(still, square_of(moved(0, 0), true)),
        strength(square_of(moved(0, 0), true), still),
        strength(still, square_of(moved(1, 0), false)),
        strength(still, square_of(moved(0, 4), false)),
        strength(still, square_of(moved(0, -3), false)),
    ];

    assert_eq!(rt; strengths, [2, 1, 1, 1, 1, 0]);
    assert_eq!(rt;
        (is_transform_edge(4, 0), is_transform_edge(2, 1)),
        (true, false)
    );
    assert_eq!(rt; (beta(32), tc(32, 2), tc(51, 2)), (26, 3, 24));
    let line = step(100, 107);
    assert_eq!(rt;
        luma_line(26, 3, line, line, line).p,
        Side {
            s0: 103,
            s1: 102,
            s2: 101,
            s3: 100
        }
    );
    assert_eq!(rt; chroma_line(3, step(100, 110)).q.s0, 107);
    Ok(())
}
