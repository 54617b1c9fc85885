//! The new samples of a line of a chroma edge (8.7.2.5.8).

ghost use Rattle.std.specs.Prelude.{◌≡◌, ◌≤◌, unsigned_abs};
ghost use Rattle.hv_deblock_model.specs.EdgeFilters.{chroma_step, moved_side, chroma_line};

use crate::steps::{chroma_step, clip_to, difference, moved, turned_step};
use hv_deblock_model::{Line, Side};

/// The step from q0 to p0, before it is clipped.
#[inline(always)]
fn line_step(line: Line) -> i32
    ensures { result ≡ chroma_step line }
{
    let first = difference(line.q.s0, line.p.s0);
    let second = difference(line.p.s1, line.q.s1);
    chroma_step(first, second)
}

/// A side with its first sample moved.
#[inline(always)]
fn moved_side(side: Side, step: i32) -> Side
    requires { unsigned_abs step ≤ 24 }
    ensures { result ≡ moved_side side step }
{
    Side {
        s0: moved(side.s0, step),
        ..side
    }
}

/// A line of a chroma edge behind the filter, by the threshold `tc`, 0 to 24: only p0 and q0 change
/// (8.7.2.5.8).
#[inline(always)]
pub fn chroma_line(tc: u8, line: Line) -> Line
    requires { tc ≤ 24 }
    ensures { result ≡ chroma_line tc line }
{
    let step = clip_to(tc, line_step(line));
    Line {
        p: moved_side(line.p, step),
        q: moved_side(line.q, turned_step(step)),
    }
}
