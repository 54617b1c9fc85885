//! A plain reader of slice data, bin by bin and sentence by sentence of H.265 (7.3.8.1 to
//! 7.3.8.10), and blocks of every kind from a seed, for tests. No contract says what is read: that
//! the reader reads what is written is tested.
#![tactic(auto)]

mod alternatives;
mod coded;
mod generator;
mod motions;
mod offsets;
mod offsets_by_chance;
mod picture;
mod prediction;
mod quadtree;
mod round_trip;
mod slice;
mod source;
#[cfg(test)]
mod tests;
mod transform;
mod writer;

pub use alternatives::{UnitElement, UnitTally};
pub use coded::{CodedBlock, Prediction, Square};
pub use generator::generate_picture;
pub use picture::Slice;
pub use round_trip::{is_end, read_slices_back};
pub use slice::read_slice;
pub use source::Source;
pub use writer::{block_of, neighbours, write_slice};
