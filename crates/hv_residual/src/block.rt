//! A transform block before its levels, and a position in it.

ghost use Rattle.std.specs.Prelude.{◌≤◌, ◌<◌};

use hv_plan::Scan;

/// What is known of a transform block before its levels: `scanIdx`, the binary logarithm of its
/// side (`log2TrafoSize`), and whether its component is luma.
#[derive(Clone, Copy)]
pub struct Block {
    pub scan: Scan,
    pub log2: u8,
    pub luma: bool,
    pub ghost least: { 2 ≤ log2 },
    pub ghost most: { log2 ≤ 5 },
}

/// A sub-block of 4x4 levels, by its column and its row.
#[derive(Clone, Copy)]
pub struct Spot {
    pub x: u8,
    pub y: u8,
    pub ghost column: { x < 8 },
    pub ghost row: { y < 8 },
}

/// A position in a block, by its column and its row.
#[derive(Clone, Copy)]
pub struct Corner {
    pub x: u8,
    pub y: u8,
}
