//! Bits, Exp-Golomb numbers and NAL units, written and read (7.2, 7.3.1 and 9.2 of H.265, and its
//! Annex B).
#![tactic(auto)]

mod fields;
mod reader;
mod unit;
mod writer;

pub use fields::{Field, put_fields, tables_join};
pub use reader::{BitReader, BitsError};
pub use unit::{strip_nal, write_nal};
pub use writer::BitWriter;

#[cfg(test)]
mod tests;
