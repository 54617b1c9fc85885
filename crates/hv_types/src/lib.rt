//! The types that all crates of the encoder share: settings, pictures, pieces of work, and the
//! traits through which the encoder reads and writes.
#![tactic(auto)]

mod answers;
mod group_input;
mod laws;
mod memory;
mod outside;
mod picture;
mod piece;
mod plane;
mod script;
mod settings;
mod standard;
mod steady;
mod window;
mod words;

pub use answers::{Failed, NoMemory};
pub use group_input::GroupInput;
pub use laws::{
    bytes_are_kept, bytes_are_split, crop_undoes_pad, front_is_picture, pad_gives_picture,
    pictures_read_back, raw_counts_bytes, reads_are_joined, settings_laws, tabulate_counts,
    writes_are_joined,
};
pub use memory::{MemorySink, MemorySource};
pub use outside::{Gate, OpenGate, Sink, Source};
pub use picture::Picture;
pub use piece::{Piece, PieceKind};
pub use plane::Plane;
pub use settings::{
    Config, ConfigError, Emit, Field, MOST_LEVELS, MOST_PICTURES, Settings, SynthSpec,
};
pub use standard::{StdSink, StdSource};
pub use steady::{SteadySink, SteadySource};
pub use window::Window;
pub use words::Words;
