//! Edges of both directions, filtered by the same code: columns are counted across the edges of a
//! pass and rows along them.

ghost use Rattle.std.specs.Prelude.{◌≡◌, ◌<◌};
ghost use Rattle.hv_deblock.specs.Filled.{Vertical, Horizontal};

use crate::squares::CodedSquares;
use hv_plan::Unit;
use hv_types::Plane;

/// The edges of a pass. Each direction is a type, so that its code is compiled for it alone.
pub(crate) trait Edges {
    ghost use Rattle.hv_deblock.specs.Filled.{Direction, columns_of, rows_of, first_of, second_of, samples_of, with_sample_of, seen};

    /// Their direction.
    ghost direction: { Direction };

    /// How many columns a plane has across the edges.
    fn columns(plane: &Plane) -> u32
        ensures { result ≡ columns_of direction plane.now };

    /// How many rows a plane has along them.
    fn rows(plane: &Plane) -> u32
        ensures { result ≡ rows_of direction plane.now };

    /// A sample.
    fn at(plane: &Plane, x: u32, y: u32) -> u8
        requires x { x < columns_of direction plane.now }
        requires y { y < rows_of direction plane.now }
        ensures { result ≡ samples_of direction plane.now x y };

    /// Puts a sample, and leaves every other one.
    fn set(plane: &mut Plane, x: u32, y: u32, value: u8)
        requires x { x < columns_of direction plane.old }
        requires y { y < rows_of direction plane.old }
        ensures { plane.new ≡ with_sample_of direction plane.old x y value };

    /// The unit of the square at a column across the edges, and a row along them.
    fn unit<S: CodedSquares>(squares: &S, column: u32, row: u32) -> Unit
        requires column { column <
            first_of direction (S.columns squares.now) (S.rows squares.now) }
        requires row { row < second_of direction (S.columns squares.now) (S.rows squares.now) }
        ensures { result ≡ (seen direction (S.coding squares.now) column row).unit };

    /// Whether its luma transform block has a level that isn't 0.
    fn has_levels<S: CodedSquares>(squares: &S, column: u32, row: u32) -> bool
        requires column { column <
            first_of direction (S.columns squares.now) (S.rows squares.now) }
        requires row { row < second_of direction (S.columns squares.now) (S.rows squares.now) }
        ensures { result ≡ (seen direction (S.coding squares.now) column row).has_levels };
}

/// Edges between columns of a picture.
pub(crate) struct VerticalEdges;

impl Edges for VerticalEdges {
    ghost direction = { Vertical };

    #[inline(always)]
    fn columns(plane: &Plane) -> u32 {
        plane.width()
    }

    #[inline(always)]
    fn rows(plane: &Plane) -> u32 {
        plane.height()
    }

    #[inline(always)]
    fn at(plane: &Plane, x: u32, y: u32) -> u8 {
        plane.at(x, y)
    }

    #[inline(always)]
    fn set(plane: &mut Plane, x: u32, y: u32, value: u8) {
        plane.set(x, y, value);
    }

    #[inline(always)]
    fn unit<S: CodedSquares>(squares: &S, column: u32, row: u32) -> Unit {
        squares.unit(column, row)
    }

    #[inline(always)]
    fn has_levels<S: CodedSquares>(squares: &S, column: u32, row: u32) -> bool {
        squares.has_levels(column, row)
    }
}

/// Edges between its rows.
pub(crate) struct HorizontalEdges;

impl Edges for HorizontalEdges {
    ghost direction = { Horizontal };

    #[inline(always)]
    fn columns(plane: &Plane) -> u32 {
        plane.height()
    }

    #[inline(always)]
    fn rows(plane: &Plane) -> u32 {
        plane.width()
    }

    #[inline(always)]
    fn at(plane: &Plane, x: u32, y: u32) -> u8 {
        plane.at(y, x)
    }

    #[inline(always)]
    fn set(plane: &mut Plane, x: u32, y: u32, value: u8) {
        plane.set(y, x, value);
    }

    #[inline(always)]
    fn unit<S: CodedSquares>(squares: &S, column: u32, row: u32) -> Unit {
        squares.unit(row, column)
    }

    #[inline(always)]
    fn has_levels<S: CodedSquares>(squares: &S, column: u32, row: u32) -> bool {
        squares.has_levels(row, column)
    }
}
