//! What the strength of an edge is derived from.

use hv_plan::Unit;

/// How a square of 8x8 luma samples is coded, as far as deblocking asks (8.7.2): its coding unit,
/// and whether the luma transform block that it lies in has a level that isn't 0 (`cbf_luma`).
#[derive(Clone, Copy, Debug, PartialEq, Eq)]
pub struct SquareCoding {
    pub unit: Unit,
    pub has_levels: bool,
}
