//! The segments of a picture, taken one after another so that each finds its neighbours done.
#![tactic(auto)]

mod laws;
mod rows;
#[cfg(test)]
mod tests;
mod wave;

pub use laws::goes_on_law;
pub use wave::Wave;
