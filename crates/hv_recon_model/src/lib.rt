//! The decoded picture before the in-loop filters (8.4, 8.6) as a definition, in `specs/`. The
//! functions here are empty, and each carries a law of the definition as its contract.
#![tactic(auto)]

mod blank_laws;
mod locality_laws;
mod reconstruction_laws;

pub use blank_laws::blank_pictures_are_grey;
pub use locality_laws::{blocks_are_local, pictures_are_local};
pub use reconstruction_laws::every_sample_is_decoded;
