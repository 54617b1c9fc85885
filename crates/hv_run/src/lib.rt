//! The top call of the encoder: from the words of a command line, a source and a sink to a status.
#![tactic(auto)]

#[cfg(test)]
mod generator_tests;
#[cfg(test)]
mod group_tests;
#[cfg(test)]
mod inter_tests;
#[cfg(test)]
mod intra_tests;
mod known_ends;
mod report;
mod run;
mod status;
#[cfg(test)]
mod tests;

pub use known_ends::{encode_in_memory, encode_steady};
pub use run::run_encode;
pub use status::Status;
