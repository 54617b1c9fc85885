//! Coding tree blocks of 64x64 luma samples in memory: what is decided for one, its samples, and
//! what the blocks around it see of it; and frames, which have a filtered picture.
#![tactic(auto)]

mod around;
mod block;
mod edges;
mod frame;
mod plan;
mod samples;

pub use around::neighbours_of;
pub use block::{Block, Blocks};
pub use edges::{Edges, Neighbours, address_of};
pub use frame::{Frame, no_offsets};
pub use plan::CtbPlan;
pub use samples::Samples;
