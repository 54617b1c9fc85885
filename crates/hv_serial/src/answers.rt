//! What the encoding of a video answers.

use hv_types::MOST_PICTURES;
use thiserror::Error;

/// What was encoded.
#[derive(Clone, Copy, Debug, PartialEq, Eq)]
pub struct Totals {
    /// The pictures, each of which was read whole.
    pub pictures: u32,
    /// The groups that these make.
    pub groups: u32,
    /// The bytes of the output.
    pub bytes: u128,
}

/// Why a video isn't encoded to its end.
#[derive(Clone, Copy, Debug, PartialEq, Eq, Error)]
pub enum EncodeError {
    /// The source failed.
    #[error("read fault")]
    ReadFault,
    /// The input ended so many bytes into a picture.
    #[error("short picture: {have} bytes")]
    ShortPicture { have: u64 },
    /// The sink failed.
    #[error("write fault")]
    WriteFault,
    /// There was not enough memory.
    #[error("no memory")]
    NoMemory,
    /// The input goes on behind the last picture that a video may have.
    #[error("more than {most} pictures", most = MOST_PICTURES)]
    TooLong,
}
