//! The in-loop filters as definitions (8.7), and the encoder's own choice of sample adaptive
//! offsets, with the costs by which it chooses. The functions here are empty, and each carries a
//! law of the definitions as its contract.
#![tactic(auto)]

mod joined_laws;
mod off_laws;

pub use joined_laws::samples_are_joined;
pub use off_laws::off_changes_nothing;
