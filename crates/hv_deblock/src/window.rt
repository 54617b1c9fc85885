//! The samples across an edge, read from a plane and put into it.

ghost use Rattle.std.specs.Prelude.{◌≡◌, ◌+◌, ◌-◌, ◌*◌, ◌%◌, ◌^◌, ◌<◌, ◌≤◌};
ghost use Rattle.hv_types.specs.Samples.{IsWhole};
ghost use Rattle.hv_deblock_model.specs.Deblocking.{line_at, side_sample, line_sample};
ghost use Rattle.hv_deblock.specs.Filled.{columns_of, rows_of, samples_of, side_before, side_behind, IsFilled};
ghost use Rattle.hv_deblock.specs.Lines.{KeepsOuter};

use crate::direction::Edges;
use hv_deblock_model::{Line, Side};
use hv_types::Plane;

/// The four samples of row `y` before column `x`, from there away.
#[inline(always)]
fn side_before<E: Edges>(plane: &Plane, x: u32, y: u32) -> Side
    requires least { 4 ≤ x }
    requires x { x < columns_of E.direction plane.now }
    requires y { y < rows_of E.direction plane.now }
    ensures { result ≡ side_before (samples_of E.direction plane.now) x y }
{
    Side {
        s0: E::at(plane, x - 1, y),
        s1: E::at(plane, x - 2, y),
        s2: E::at(plane, x - 3, y),
        s3: E::at(plane, x - 4, y),
    }
}

/// The four samples of row `y` from column `x` on.
#[inline(always)]
fn side_behind<E: Edges>(plane: &Plane, x: u32, y: u32) -> Side
    requires x { x + 3 < columns_of E.direction plane.now }
    requires fits { x + 3 < 2 ^ 32 }
    requires y { y < rows_of E.direction plane.now }
    ensures { result ≡ side_behind (samples_of E.direction plane.now) x y }
{
    Side {
        s0: E::at(plane, x, y),
        s1: E::at(plane, x + 1, y),
        s2: E::at(plane, x + 2, y),
        s3: E::at(plane, x + 3, y),
    }
}

/// Row `y` across edge number `k`.
#[inline(always)]
pub(crate) fn load_line<E: Edges>(plane: &Plane, k: u32, y: u32) -> Line
    requires least { 0 < k }
    requires k { 8 * k + 3 < columns_of E.direction plane.now }
    requires fits { 8 * k + 3 < 2 ^ 32 }
    requires y { y < rows_of E.direction plane.now }
    ensures { result ≡ line_at (samples_of E.direction plane.now) k y }
{
    Line {
        p: side_before::<E>(plane, 8 * k, y),
        q: side_behind::<E>(plane, 8 * k, y),
    }
}

/// Sample `i` of a side, from the edge away.
#[inline(always)]
fn side_sample(side: Side, i: u32) -> u8
    ensures { result ≡ side_sample side i }
{
    match i {
        0 => side.s0,
        1 => side.s1,
        2 => side.s2,
        _ => side.s3,
    }
}

/// Sample `i` of a line, from the left.
#[inline(always)]
fn line_sample(line: Line, i: u32) -> u8
    ensures { result ≡ line_sample line i }
{
    if i < 4 {
        side_sample(line.p, 3 - i)
    } else {
        side_sample(line.q, i - 4)
    }
}

/// Puts row `y` across edge number `k`, of which `margin` samples at each end are as before, and
/// leaves every other sample.
#[inline(always)]
pub(crate) fn store_line<E: Edges>(plane: &mut Plane, margin: u32, k: u32, y: u32, line: Line)
    requires whole { IsWhole plane.old }
    requires margin { margin ≤ 3 }
    requires least { 0 < k }
    requires k { 8 * k + 3 < columns_of E.direction plane.old }
    requires fits { 8 * k + 3 < 2 ^ 32 }
    requires y { y < rows_of E.direction plane.old }
    requires kept { KeepsOuter margin (line_at (samples_of E.direction plane.old) k y) line }
    ensures { IsFilled E.direction (8 * k - 4) (8 * k + 4) y (y + 1)
        (λ a b. line_sample line ((a + 4) % 8)) plane.old plane.new }
{
    let left = 8 * k - 4;
    for i in margin..8 - margin {
        E::set(plane, left + i, y, line_sample(line, i));
    }
}
