//! Inter prediction of a block of samples from a reference picture (8.5.3.3.3, 8.5.3.3.4.2).
#![tactic(auto)]

mod columns;
mod filters;
mod fractions;
mod interpolate;
mod lanes;
mod pairs;
mod predict;
mod taps;
#[cfg(test)]
mod tests;
mod totals;
mod window;

pub use fractions::predict_fractions;
pub use predict::predict_inter;
