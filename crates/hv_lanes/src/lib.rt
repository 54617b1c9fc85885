//! Steps of the transforms that both ways share: rows in pairs, and lanes of 16 and 32 bits.
//!
//! A product of two numbers of 16 bits has 32. Sums of products wrap in lanes of 32 bits, and what
//! is known of them is their number up to that; callers show that it fits. None of them takes
//! memory, and each always answers.
#![tactic(auto)]

mod lanes;
mod pairs;
mod zeros;

pub use lanes::{clipped, put_means, sums};
pub use pairs::{pairs_of_4, weave, weave_eight};
pub use zeros::have_other_than_0;
