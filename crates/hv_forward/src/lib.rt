//! The encoder's transform of residual blocks, and its quantisation.
//!
//! A block of 2^log2 columns and rows stands by rows, each from left to right; log2 is 2 to 5. The
//! encoder gets levels from a residual by `forward` and then `quantise`. Neither takes memory, and
//! each always answers.
#![tactic(auto)]

mod forward_columns;
mod forward_lanes;
mod forward_transform;
mod forward_weights;
mod laws;
mod level_lanes;
mod orders;
mod quantisation;
mod row_lanes;
mod row_sums;
#[cfg(test)]
mod tests;

pub use forward_transform::forward;
pub use laws::calls_join_law;
pub use quantisation::quantise;
