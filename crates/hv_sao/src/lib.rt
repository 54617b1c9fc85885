//! Sample adaptive offset (8.7.3), and the encoder's choice of the offsets of a coding tree block.
//! Nothing here takes memory.
#![tactic(auto)]

mod apply;
mod bands;
mod block;
mod candidate;
mod candidates;
mod choose;
mod component;
mod cost;
mod edges;
mod offset;
mod price;
mod rows;
mod samples;
mod sides;
mod tallies;
mod tally;
#[cfg(test)]
mod tests;

pub use apply::apply_sao;
pub use choose::choose_sao;
