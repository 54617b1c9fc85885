//! The unit of a coded picture.
#![tactic(auto)]

mod blank;
mod blocks;
mod slice;
#[cfg(test)]
mod tests;
mod unit;

pub use unit::{code_picture, picture_unit};
