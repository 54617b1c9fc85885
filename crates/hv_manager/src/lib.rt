//! The pictures of a group: which are begun, filtered and written, and who still refers to them.
#![tactic(auto)]

mod live;
mod refs;
#[cfg(test)]
mod tests;

pub use refs::Refs;
