//! Rebuilding of what a coding tree block shows before the in-loop filters (8.4 to 8.6). No call
//! takes memory, and each equals its definition.
#![tactic(auto)]

mod around;
mod coded_block;
mod coded_leaf;
mod coded_unit;
mod inter_unit;
mod leaf;
mod node_laws;
mod picture_laws;
mod put;
mod run;
mod shapes;
mod sizes;
#[cfg(test)]
mod tests;
mod transform_block;
mod unit;
mod view;

pub use coded_block::{read_block, subtract};
pub use coded_leaf::code_leaf;
pub use coded_unit::{luma_line, read_luma};
pub use leaf::rebuild_leaf;
pub use node_laws::{
    greatest_nodes_are_blocks, leaves_decode_as_nodes, nodes_outside_decode_nothing,
    split_nodes_decode_by_children,
};
pub use picture_laws::{pictures_are_their_blocks, samples_are_those_of_blocks};
pub use put::put_row;
pub use transform_block::rebuild_intra;
