//! Intra prediction of a transform block from its neighbouring samples (8.4.4.2): the line of
//! neighbours with the missing ones substituted, and the block that a mode predicts from it. No
//! call takes memory, and each equals its definition.
#![tactic(auto)]

mod angular;
mod dc;
mod lanes;
mod line;
mod neighbours;
mod planar;
mod predict;
mod reference;
mod smoothing;
mod straight;
#[cfg(test)]
mod tests;
mod turn;

pub use line::Line;
pub use predict::predict_intra;
