//! Items that come in any order, given out in the order of their numbers.
#![tactic(auto)]

mod reorder;
#[cfg(test)]
mod tests;

pub use reorder::Reorder;
