//! Deblocking as a definition (8.7.2), and the types that it speaks of: how a square of 8x8 luma
//! samples is coded, and the samples across an edge.
#![tactic(auto)]

mod coding;
mod flat_pictures;
mod line;
mod squares_inside;

pub use coding::SquareCoding;
pub use flat_pictures::flat_pictures_are_kept;
pub use line::{Line, Side};
pub use squares_inside::{differences_of_vectors_do_not_count, only_squares_inside_count};
