//! Coding tree units as bins (7.3.8): sample adaptive offsets, the coding quadtree, prediction,
//! transform trees, and `end_of_slice_segment_flag`. Nothing here takes memory, and each call
//! always answers.
#![tactic(auto)]

mod block;
mod coding_unit;
mod counting;
mod counting_tree;
mod elements;
mod leaves;
mod levels;
mod modes;
mod motion;
mod naming;
mod near;
mod offsets;
mod probable_modes;
mod quadtree;
#[cfg(test)]
mod recorder;
mod seen;
#[cfg(test)]
mod tests;
mod transform;
mod unit;

pub use counting::{count_difference, count_luma_mode};
pub use modes::most_probable;
pub use naming::{names_its_node, names_its_units};
pub use probable_modes::most_probable_modes;
pub use unit::{count_node, put_ctb};
