//! The in-loop filters of a picture (8.7): its coding tree blocks are put together, deblocked, and
//! offset. Nothing here takes memory.
#![tactic(auto)]

mod choices;
mod component;
mod join;
mod picture;
mod squares;
#[cfg(test)]
mod tests;

pub use picture::filter_picture;
