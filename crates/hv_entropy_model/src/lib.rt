//! Context variables, the arithmetic decoder, and the code word of a list of bins (9.3) as
//! definitions. They stand in `specs/`; the functions here are empty, and each carries a law of the
//! definitions as its contract.
#![tactic(auto)]

mod interval;
mod reading_back;

pub use interval::{interval_laws, lps_width_is_bounded};
pub use reading_back::{code_word_is_read_back, scripts_read_code_words, scripts_read_listed};
