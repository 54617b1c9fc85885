//! Slice headers (7.3.6 of H.265), written.
#![tactic(auto)]

mod header;
mod references;

pub use header::write_slice_header;
pub use references::active_references;

#[cfg(test)]
mod tests;
