//! How the top call ends.

ghost use Rattle.std.specs.Prelude.{◌≡◌};

/// How the top call ends. The status of a program is its `code`. Each status has a line in the
/// report.
#[derive(Clone, Copy, Debug, PartialEq, Eq)]
pub enum Status {
    /// All input was read to its end, all output is written, and the report has its line.
    Ok,
    /// The words are refused: nothing is read or written.
    Words,
    /// The source failed.
    ReadFault,
    /// The input ended so many bytes into a picture.
    ShortPicture { have: u64 },
    /// The sink failed.
    WriteFault,
    /// There was not enough memory.
    NoMemory,
    /// The input goes on behind the last picture that a video may have.
    TooLong,
    /// All is as at `Ok`, but the report failed.
    ReportFault,
}

impl Status {
    ghost use Rattle.hv_run.specs.Statuses.{code_of};

    /// The exit code of a program that ends so.
    pub fn code(self) -> u8
        ensures { result ≡ code_of self }
    {
        match self {
            Status::Ok => 0,
            Status::Words => 2,
            Status::ReadFault => 3,
            Status::ShortPicture { have: _ } => 4,
            Status::WriteFault => 5,
            Status::NoMemory => 6,
            Status::TooLong => 7,
            Status::ReportFault => 8,
        }
    }
}
