//! The words of the command line: the settings that they ask for, or why they are refused.
#![tactic(auto)]

mod command;
mod refusal;
#[cfg(test)]
mod tests;
mod words;

pub use refusal::WordsError;
pub use words::config_of_words;
