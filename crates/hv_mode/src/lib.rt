//! What the encoder chooses for a coding tree block, and for the blocks of a picture. No call that
//! chooses takes memory, and each equals its definition.
#![tactic(auto)]

mod below;
mod blank;
mod copy;
mod cost;
#[cfg(test)]
mod cost_tests;
mod ctb;
mod errors;
mod found;
mod inter;
mod inter_choice;
mod inter_leaf;
mod inter_levels;
mod inter_unit;
mod laws;
mod leaf;
mod luma_mode;
mod node;
mod picture;
mod picture_task;
mod predictor;
mod square;
mod task;
#[cfg(test)]
mod tasks_for_tests;
#[cfg(test)]
mod tie_tests;
mod tried;

pub use ctb::{Room, decide_ctb};
pub use laws::luma_modes_are_those_of_blocks;
pub use luma_mode::choose_luma_mode;
pub use picture::decide_blocks;
pub use picture_task::PictureTask;
pub use task::Task;
