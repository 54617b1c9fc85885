//! That choices by blocks of samples are those of the definition.

ghost use Rattle.hv_mode.specs.LumaModes.{LumaModesAreThoseOfBlocks};

/// The luma mode that is chosen for an intra unit is that of its first transform block, as
/// `choose_luma_mode` has it.
pub fn luma_modes_are_those_of_blocks()
    ensures { LumaModesAreThoseOfBlocks }
{}
