//! The deblocking filter (8.7.2). Nothing here takes memory.
#![tactic(auto)]

mod chroma;
mod component;
mod deblocking;
mod decisions;
mod direction;
mod filters;
mod luma;
mod passes;
mod segment;
mod squares;
mod steps;
mod strengths;
#[cfg(test)]
mod tests;
mod thresholds;
mod window;

pub use chroma::chroma_line;
pub use deblocking::deblock;
pub use luma::luma_line;
pub use squares::CodedSquares;
pub use strengths::{is_transform_edge, strength};
pub use thresholds::{beta, tc};
