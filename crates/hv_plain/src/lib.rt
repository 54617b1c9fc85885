//! Plain, slow programs for tests, each with a definition of H.265 as its contract: the arithmetic
//! decoder bin by bin, the interval of the arithmetic coder, whose low end is never cut, emulation
//! prevention, and the bits of fields. What a faster program writes is read here, or compared.
//!
//! The reader of the levels of a transform block has no such contract yet: that it reads what is
//! written is tested.
#![tactic(auto)]

mod alternatives;
mod asking;
mod bits;
mod contexts;
mod counts;
mod digits;
mod escaping;
mod fields;
mod generator;
mod interval;
#[cfg(test)]
mod level_tests;
mod levels;
mod reader;
mod round_trip;
#[cfg(test)]
mod tests;
mod variables;

pub use alternatives::{Element, Tally};
pub use asking::{ask, ask_with, read_exp_golomb, read_fixed};
pub use counts::{Counts, Row};
pub use escaping::escape;
pub use fields::{Field, bits_of_fields, field_bits};
pub use generator::{Random, levels_of_kind};
pub use interval::PlainInterval;
pub use levels::read_levels;
pub use reader::{BinReader, Question};
pub use round_trip::{BLOCKS, put_levels, read_back};
pub use variables::Variable;
