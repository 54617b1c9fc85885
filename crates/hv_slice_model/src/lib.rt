//! The slice of a picture, from its coding tree units: its header, its data and its unit, as
//! definitions. They stand in `specs/`; the functions here are empty, and each carries a law of the
//! definitions as its contract.
#![tactic(auto)]

mod slice_laws;

pub use slice_laws::{
    blank_units_are_valid, slice_data_contexts_are_valid, slice_data_ends, slices_end,
};
