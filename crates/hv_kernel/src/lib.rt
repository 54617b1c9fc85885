//! Sums of differences of samples, in lanes: what motion search and mode decision compare blocks
//! by; and what a choice costs. No call takes memory, and each equals the plain sum that its clause
//! names.
#![tactic(auto)]

mod blocks;
mod costs;
mod lanes;
mod pair;
mod quarter;
mod rows;
mod sums;
#[cfg(test)]
mod tests;

pub use blocks::{
    sad_block_8, sad_block_16, sad_block_32, sad_block_64, ssd_block_4, ssd_block_8, ssd_block_16,
    ssd_block_32, ssd_block_64,
};
pub use costs::{bin_weight, cost};
pub use pair::Pair;
pub use quarter::decimate;
pub use sums::{sad, ssd};
