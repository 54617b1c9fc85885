//! The levels of a transform block as bins, and their syntax (7.3.8.11), as definitions. They stand
//! in `specs/`; the functions here are empty, and each carries a law of the definitions as its
//! contract.
#![tactic(auto)]

mod residual_laws;

pub use residual_laws::{
    levels_are_read_back, read_levels_have_16_bits, unit_scripts_read_in_slices,
};
