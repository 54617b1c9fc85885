//! The types of what is decided for a coding tree block: predictions, places of nodes, and sample
//! adaptive offsets.
#![tactic(auto)]

mod offsets;
mod place;
mod prediction;

pub use offsets::{SaoComponent, SaoKind, SaoParam};
pub use place::{Node, Place};
pub use prediction::{Mv, Pred, Scan, Unit};
