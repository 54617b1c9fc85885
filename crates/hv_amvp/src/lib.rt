//! Prediction of luma motion vectors by the units around (8.5.3.2.6, 8.5.3.2.7). Nothing here takes
//! memory.
#![tactic(auto)]

mod choice;
mod prediction;
mod scaling;
mod squares;
#[cfg(test)]
mod tests;

pub use choice::candidates_by;
pub use prediction::candidates;
pub use scaling::Distances;
