//! The structure of a group of pictures: coding order, depths, references and reference sets.
#![tactic(auto)]

mod coded;
mod coding;
mod group;
mod laws;
mod row;
mod sets;
mod structure;
#[cfg(test)]
mod tests;

pub use group::{Group, GroupOutput};
pub use laws::orders_are_sound;
pub use row::SetEntry;
pub use structure::Structure;
