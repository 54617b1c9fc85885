//! The levels of a transform block (`residual_coding`, 7.3.8.11): `put_residual` puts them as bins
//! into a sink, and `count_residual` says how many bins they are without visiting one. `scan_of`
//! says which scan a block has (7.4.9.11), and `any_significant` whether it is coded at all.
//! Binarizations (9.3.3) are public too, since other syntax elements have them.
//!
//! A block of 2^log2 columns and rows stands by rows, each from left to right; log2 is 2 to 5. None
//! of them takes memory, and each always answers.
#![tactic(auto)]

mod binarization;
mod block;
mod coded;
mod contexts;
mod counting;
mod flags;
mod gathering;
mod last;
mod remaining;
mod residual;
mod scans;
mod significance;
mod sub_blocks;
#[cfg(test)]
mod tests;

pub use binarization::{put_exp_golomb, put_fixed_length, put_truncated_unary};
pub use counting::{count_exp_golomb, count_residual};
pub use hv_plan::{Pred, Scan};
pub use hv_tables::BinSink;
pub use residual::{put_residual, scan_of};
pub use significance::any_significant;
