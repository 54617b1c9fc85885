//! What is read of a transform block's levels is what was coded.

ghost use Rattle.hv_residual_model.specs.ResidualLaws.{LevelsAreReadBack, LevelsAskForVariablesThatAreThere, LevelsThatAreReadHave16Bits, UnitScriptsReadInSlices};

/// The script of residual_coding (7.3.8.11) reads the levels of a block of 4x4 to 32x32 from their
/// bins, with each of the three scans, in luma and in chroma, where the levels have 16 bits and one
/// isn't 0.
pub fn levels_are_read_back()
    ensures { LevelsAreReadBack }
{}

/// Whatever answers the questions of residual_coding (7.3.8.11): the levels that it reads are as
/// many as the block has places, and have 16 bits. It fails at any other level.
pub fn read_levels_have_16_bits()
    ensures { LevelsThatAreReadHave16Bits }
{}

/// What a script reads where these bins of coding tree units answer it, it reads where the same
/// bins answer it as bins of a slice.
pub fn unit_scripts_read_in_slices<A>()
    ensures { UnitScriptsReadInSlices A }
{}

/// Every context of the bins of a block of 4x4 to 32x32 has a variable in slices of each kind
/// (9.3.4.2): an index beyond its table would name a variable of the next.
pub fn levels_ask_for_variables_that_are_there()
    ensures { LevelsAskForVariablesThatAreThere }
{}
