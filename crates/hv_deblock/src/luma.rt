//! The new samples of a line of a luma edge (8.7.2.5.7).

ghost use Rattle.std.specs.Prelude.{◌≡◌, ◌≤◌, ◌+◌, ◌/◌, unsigned_abs};
ghost use Rattle.hv_deblock_model.specs.EdgeFilters.{cut, strong_side, strong_line, luma_step, second_step, normal_side, stepped_line, normal_line, luma_line};

use crate::decisions::{is_filtered, is_smooth, is_strong};
use crate::steps::{clip_to, difference, half_of_sum, luma_step, moved, turned_step};
use hv_deblock_model::{Line, Side};

/// Cut to `2 * tc` from the old sample.
#[inline(always)]
fn cut(tc: u8, old: u8, new: u16) -> u8
    requires tc { tc ≤ 24 }
    requires new { new ≤ 255 }
    ensures { result ≡ cut tc old new }
{
    let most = u16::from(old) + 2 * u16::from(tc);
    let least = old.saturating_sub(2 * tc);
    new.min(most).max(u16::from(least)) as u8
}

/// The new samples of a side behind the strong filter.
#[inline(always)]
fn strong_side(tc: u8, side: Side, across: Side) -> Side
    requires tc { tc ≤ 24 }
    ensures { result ≡ strong_side tc side across }
{
    let (s0, s1) = (u16::from(side.s0), u16::from(side.s1));
    let (s2, s3) = (u16::from(side.s2), u16::from(side.s3));
    let (a0, a1) = (u16::from(across.s0), u16::from(across.s1));
    Side {
        s0: cut(tc, side.s0, (s2 + 2 * s1 + 2 * s0 + 2 * a0 + a1 + 4) / 8),
        s1: cut(tc, side.s1, (s2 + s1 + s0 + a0 + 2) / 4),
        s2: cut(tc, side.s2, (2 * s3 + 3 * s2 + s1 + s0 + a0 + 4) / 8),
        s3: side.s3,
    }
}

/// A line behind the strong filter.
#[inline(always)]
pub(crate) fn strong_line(tc: u8, line: Line) -> Line
    requires tc { tc ≤ 24 }
    ensures { result ≡ strong_line tc line }
{
    Line {
        p: strong_side(tc, line.p, line.q),
        q: strong_side(tc, line.q, line.p),
    }
}

/// The step from q0 to p0, before it is clipped.
#[inline(always)]
fn line_step(line: Line) -> i32
    ensures value { result ≡ luma_step line }
    ensures most { unsigned_abs result ≤ 4096 }
{
    let first = difference(line.q.s0, line.p.s0);
    let second = difference(line.q.s1, line.p.s1);
    luma_step(first, second)
}

/// The mean of two samples, rounded up.
#[inline(always)]
fn mean(a: u8, b: u8) -> u8
    ensures { result ≡ (a + b + 1) / 2 }
{
    ((u16::from(a) + u16::from(b) + 1) / 2) as u8
}

/// What is added to the second sample of a side, where `step` is added to the first.
#[inline(always)]
fn second_step(tc: u8, side: Side, step: i32) -> i32
    requires tc { tc ≤ 24 }
    requires step { unsigned_abs step ≤ 24 }
    ensures value { result ≡ second_step tc side step }
    ensures most { unsigned_abs result ≤ 24 }
{
    let bend = difference(mean(side.s2, side.s0), side.s1);
    clip_to(tc / 2, half_of_sum(bend, step))
}

/// The new samples of a side behind the normal filter, of which the second changes where the side
/// is `smooth`.
#[inline(always)]
fn normal_side(tc: u8, smooth: bool, side: Side, step: i32) -> Side
    requires tc { tc ≤ 24 }
    requires step { unsigned_abs step ≤ 24 }
    ensures { result ≡ normal_side tc smooth side step }
{
    let s1 = if smooth {
        moved(side.s1, second_step(tc, side, step))
    } else {
        side.s1
    };
    Side {
        s0: moved(side.s0, step),
        s1,
        s2: side.s2,
        s3: side.s3,
    }
}

/// A line with a step, of which the second sample of a side changes where the side is smooth.
#[inline(always)]
fn stepped_line(tc: u8, smooth_p: bool, smooth_q: bool, line: Line, step: i32) -> Line
    requires tc { tc ≤ 24 }
    requires step { unsigned_abs step ≤ 24 }
    ensures { result ≡ stepped_line tc smooth_p smooth_q line step }
{
    Line {
        p: normal_side(tc, smooth_p, line.p, step),
        q: normal_side(tc, smooth_q, line.q, turned_step(step)),
    }
}

/// A line behind the normal filter, of which the second sample of a side changes where the side is
/// smooth.
#[inline(always)]
pub(crate) fn normal_line(tc: u8, smooth_p: bool, smooth_q: bool, line: Line) -> Line
    requires tc { tc ≤ 24 }
    ensures { result ≡ normal_line tc smooth_p smooth_q line }
{
    let step = line_step(line);
    if step.unsigned_abs() < 10 * u32::from(tc) {
        stepped_line(tc, smooth_p, smooth_q, line, clip_to(tc, step))
    } else {
        line
    }
}

/// A line of a luma edge behind the filter, by the thresholds `beta`, 0 to 64, and `tc`, 0 to 24,
/// and the first and the last of the four lines that are decided on together (8.7.2.5.3,
/// 8.7.2.5.7).
#[inline(always)]
pub fn luma_line(beta: u8, tc: u8, first: Line, last: Line, line: Line) -> Line
    requires tc { tc ≤ 24 }
    ensures { result ≡ luma_line beta tc first last line }
{
    if !is_filtered(beta, first, last) {
        return line;
    }
    if is_strong(beta, tc, first, last) {
        return strong_line(tc, line);
    }
    let smooth_p = is_smooth(beta, first.p, last.p);
    let smooth_q = is_smooth(beta, first.q, last.q);
    normal_line(tc, smooth_p, smooth_q, line)
}
