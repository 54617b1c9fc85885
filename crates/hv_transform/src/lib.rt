//! Scaling and the inverse transform of residual blocks (8.6.3, 8.6.4).
//!
//! A block of 2^log2 columns and rows stands by rows, each from left to right; log2 is 2 to 5. The
//! residual comes back from levels by `scale` and then `inverse`. Neither takes memory, and each
//! always answers.
#![tactic(auto)]

mod column_sums;
mod corner;
mod inverse_lanes;
mod inverse_passes;
mod inverse_transform;
mod lane_weights;
mod laws;
mod orders;
mod products;
mod scaling;
#[cfg(test)]
mod tests;

pub use inverse_transform::inverse;
pub use laws::calls_join_law;
pub use scaling::scale;
