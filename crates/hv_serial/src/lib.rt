//! One-thread encoding: from the pictures of a source to the byte stream in a sink.
#![tactic(auto)]

mod answers;
mod chosen;
mod coded;
mod encode;
mod given;
mod group;
mod parameters;
mod pictures;
mod reading;
mod shown;
mod slots;
#[cfg(test)]
mod tests;
mod transfer;
mod workspace;
mod writing;

pub use answers::{EncodeError, Totals};
pub use encode::encode_video;
pub use group::encode_group_serial;
pub use slots::frames_serve;
pub use transfer::write_all;
pub use workspace::{GroupSpace, Workspace};
