//! A candidate for the offsets of a block.

ghost use Rattle.std.specs.Prelude.{◌≤◌, ◌^◌};
ghost use Rattle.std.specs.Int.RustNames.{unsigned_abs};

use hv_plan::SaoComponent;

/// A choice for a block of one component, the sum of the squared differences that it leaves, and
/// how many bins its offsets, signs and position take.
#[derive(Clone, Copy)]
pub(crate) struct Candidate {
    pub(crate) component: SaoComponent,
    pub(crate) squares: i32,
    pub(crate) bins: u32,
    ghost few: { bins ≤ 37 },
    ghost small: { unsigned_abs squares ≤ 2 ^ 30 },
}
