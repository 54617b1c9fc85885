//! How an edge of four lines is filtered, from its first and its last line (8.7.2.5.3).

ghost use Rattle.std.specs.Prelude.{◌≡◌, ◌≤◌};
ghost use Rattle.hv_deblock_model.specs.EdgeFilters.{curvature, line_curvature, is_filtered, is_flat, is_strong, is_smooth};

use hv_deblock_model::{Line, Side};

/// How far a side is from a straight line: |p2 - 2 * p1 + p0|, or the same of q.
#[inline(always)]
fn curvature(side: Side) -> u16
    ensures value { result ≡ curvature side }
    ensures most { result ≤ 510 }
{
    (u16::from(side.s2) + u16::from(side.s0)).abs_diff(2 * u16::from(side.s1))
}

/// The same of both sides together.
#[inline(always)]
fn line_curvature(line: Line) -> u16
    ensures value { result ≡ line_curvature line }
    ensures most { result ≤ 1020 }
{
    curvature(line.p) + curvature(line.q)
}

/// Whether an edge is filtered: dE isn't 0.
#[inline(always)]
pub(crate) fn is_filtered(beta: u8, first: Line, last: Line) -> bool
    ensures { result ≡ is_filtered beta first last }
{
    line_curvature(first) + line_curvature(last) < u16::from(beta)
}

/// Whether a line asks for the strong filter: dSam (8.7.2.5.6).
#[inline(always)]
fn is_flat(beta: u8, tc: u8, line: Line) -> bool
    ensures { result ≡ is_flat beta tc line }
{
    2 * line_curvature(line) < u16::from(beta / 4)
        && u16::from(line.p.s3.abs_diff(line.p.s0)) + u16::from(line.q.s0.abs_diff(line.q.s3))
            < u16::from(beta / 8)
        && u16::from(line.p.s0.abs_diff(line.q.s0)) < (5 * u16::from(tc) + 1) / 2
}

/// Whether both lines do: dE is 2.
#[inline(always)]
pub(crate) fn is_strong(beta: u8, tc: u8, first: Line, last: Line) -> bool
    ensures { result ≡ is_strong beta tc first last }
{
    is_flat(beta, tc, first) && is_flat(beta, tc, last)
}

/// Whether the normal filter changes a second sample of a side: dEp or dEq.
#[inline(always)]
pub(crate) fn is_smooth(beta: u8, first: Side, last: Side) -> bool
    ensures { result ≡ is_smooth beta first last }
{
    curvature(first) + curvature(last) < (u16::from(beta) + u16::from(beta / 2)) / 8
}
