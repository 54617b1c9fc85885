//! Generated video: a source of raw pictures that are made from a seed while they are read. Nothing
//! here takes memory.
#![tactic(auto)]

mod component;
mod laws;
mod runs;
mod samples;
mod spot;
mod synth;
#[cfg(test)]
mod tests;

pub use laws::generated_is_video;
pub use synth::Synth;
