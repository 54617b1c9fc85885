//! The parameter sets of a video (7.3.2 of H.265): VPS, SPS and PPS, written as whole units.
#![tactic(auto)]

mod sets;
mod tables;

pub use sets::{write_pps, write_sps, write_vps};

#[cfg(test)]
mod tests;
