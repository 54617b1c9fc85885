//! Standard output as a sink that says at its end whether the system has room for what was written.

ghost use Rattle.std.specs.Prelude.{◌≡◌};

use hv_types::{Failed, Sink, StdSink};
use std::fs::{File, Files, OpenFile};
use std::io::{self, ErrorKind, Stdout};
use std::marker::Model;

/// The system's name for what standard output stands for.
const STANDARD_OUTPUT: &str = "/proc/self/fd/1";

/// Standard output as a sink, which tells no bytes. Some file systems, as those with quotas or over
/// a network, say only later that they have no room for what they took: so its end asks the system
/// to synchronise the file. Contracts see the count of faults.
#[derive(Drop)]
pub(crate) struct StandardOutput<'a, R: Files> {
    sink: StdSink<Stdout>,
    files: &'a R,
    refused_ends: u64,
}

impl<'a, R: Files> Model for StandardOutput<'a, R> {
    ghost use Rattle.std.specs.Prelude.{ℕ, ◌+◌};

    ghost Value = { ℕ };

    ghost view = { λ s. s.sink.faults + s.refused_ends };
}

impl<'a, R: Files> StandardOutput<'a, R> {
    /// Standard output, of which no write has failed.
    pub(crate) fn new(stdout: Stdout, files: &'a R) -> Self
        ensures { result ≡ 0 }
    {
        StandardOutput {
            sink: StdSink::new(stdout),
            files,
            refused_ends: 0,
        }
    }
}

impl<'a, R: Files> Sink for StandardOutput<'a, R> {
    ghost use Rattle.std.specs.Prelude.{None};

    ghost written = { λ _. None };

    ghost faults = { λ s. s };

    /// Writes as `StdSink` does.
    fn write(&mut self, piece: &[u8]) -> Result<usize, Failed> {
        self.sink.write(piece)
    }

    /// Flushes, and has the file synchronised where standard output is one.
    fn end(&mut self) -> Result<(), Failed> {
        self.sink.end()?;
        if synchronise(self.files).is_err() {
            self.refused_ends = self.refused_ends.saturating_add(1);
            return Err(Failed);
        }
        Ok(())
    }
}

/// Has the file synchronised that standard output stands for. What can't be opened anew, as a
/// socket, and what can't be synchronised, as a pipe or a terminal, has nothing to say.
fn synchronise<R: Files>(files: &R) -> io::Result<()> {
    let Ok(file) = File::open(files, STANDARD_OUTPUT) else {
        return Ok(());
    };
    match file.sync_all() {
        Err(error) if error.kind() == ErrorKind::InvalidInput => Ok(()),
        answer => answer,
    }
}
