//! Motion vectors as a definition: their prediction by the units around (8.5.3.2.6, 8.5.3.2.7), and
//! those of the units of a picture (8.5.3.2.1).
#![tactic(auto)]

mod motion;

pub use motion::{Moving, Neighbourhood};
