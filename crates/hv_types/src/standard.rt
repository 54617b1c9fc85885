//! The standard library's readers and writers as a source and a sink. Of the system's own readers
//! and writers no clause says which bytes they move. What the system interrupts is tried again, as
//! after a stop and a start of the process.

ghost use Rattle.std.specs.Prelude.{◌≡◌, ◌<◌, ◌≤◌, IfOk, OnOk, OnErr, IfSome, IfNone, IsErr, length, take};
ghost use Rattle.std.specs.Io.KnownBytes.{ReadConsumes, WriteAppends, Appends, Keeps};
ghost use Rattle.hv_types.specs.Outside.{Rises};
ghost use Rattle.hv_types.specs.Standard.{AppendsPart};

use crate::{Failed, Sink, Source};
use std::io::{self, ErrorKind, Read, Write};
use std::marker::Model;

/// How often one call that the system interrupts is tried.
pub(crate) const MOST_TRIES: u32 = 1 << 16;

/// A reader of the standard library as a source. As a source it tells no bytes. Contracts see the
/// reader, and the count of faults, which rises at each read that gives an error, but for an
/// interruption, and stays at its last value.
#[derive(Drop)]
pub struct StdSource<R: Read> {
    reader: R,
    faults: u64,
}

impl<R: Read> Model for StdSource<R> {
    ghost use Rattle.hv_types.specs.Standard.{Adapted};

    ghost Value = { Adapted R };

    ghost view = { λ s. record { inner = s.reader; faults = s.faults } };
}

impl<R: Read> StdSource<R> {
    /// A source over this reader, of which no read has failed.
    pub fn new(reader: R) -> Self
        ensures inner { result.inner ≡ reader }
        ensures faults { result.faults ≡ 0 }
    {
        StdSource { reader, faults: 0 }
    }
}

impl<R: Read> Source for StdSource<R> {
    ghost use Rattle.std.specs.Prelude.{None};

    ghost left = { λ _. None };

    ghost faults = { λ s. s.faults };

    /// Gives what one read of the reader gives. What the reader tells of its bytes holds of these.
    /// An interrupted read is no fault, but for the last of `MOST_TRIES` in a row.
    fn read(&mut self, into: &mut [u8]) -> Result<usize, Failed>
        ensures room { IfOk result (λ count. count ≤ length into.new) }
        ensures bytes { ReadConsumes
            (R.remaining self.old.inner) (R.remaining self.new.inner) result into.new }
        ensures no_fault { OnOk result (self.new.faults ≡ self.old.faults) }
        ensures fault { OnErr result (Rises self.old.faults self.new.faults) }
    {
        match read_again(&mut self.reader, into) {
            Ok(count) => Ok(count),
            Err(_) => {
                self.faults = self.faults.saturating_add(1);
                Err(Failed)
            }
        }
    }
}

/// One read of the reader, tried again where the system interrupts it.
fn read_again<R: Read>(reader: &mut R, into: &mut [u8]) -> io::Result<usize>
    ensures room { IfOk result (λ count. count ≤ length into.new) }
    ensures bytes { ReadConsumes
        (R.remaining reader.old) (R.remaining reader.new) result into.new }
{
    for _ in 1..MOST_TRIES {
        match reader.read(into) {
            Err(error) if error.kind() == ErrorKind::Interrupted => {}
            answer => return answer,
        }
    }
    reader.read(into)
}

/// A writer of the standard library as a sink, which it flushes after each write. As a sink it
/// tells no bytes. Contracts see the writer, and the count of faults, which rises at each write
/// or flush that gives an error, but for an interruption, and at each write that takes nothing,
/// and stays at its last value.
#[derive(Drop)]
pub struct StdSink<W: Write> {
    writer: W,
    faults: u64,
}

impl<W: Write> Model for StdSink<W> {
    ghost use Rattle.hv_types.specs.Standard.{Adapted};

    ghost Value = { Adapted W };

    ghost view = { λ s. record { inner = s.writer; faults = s.faults } };
}

impl<W: Write> StdSink<W> {
    /// A sink over this writer, of which no write has failed.
    pub fn new(writer: W) -> Self
        ensures inner { result.inner ≡ writer }
        ensures faults { result.faults ≡ 0 }
    {
        StdSink { writer, faults: 0 }
    }

    /// Counts a fault.
    pub(crate) fn fail<T>(&mut self) -> Result<T, Failed>
        ensures err { IsErr result }
        ensures inner { self.new.inner ≡ self.old.inner }
        ensures fault { Rises self.old.faults self.new.faults }
    {
        self.faults = self.faults.saturating_add(1);
        Err(Failed)
    }
}

impl<W: Write> Sink for StdSink<W> {
    ghost use Rattle.std.specs.Prelude.{None};

    ghost written = { λ _. None };

    ghost faults = { λ s. s.faults };

    /// Takes what one write of the writer takes. What the writer tells of its bytes holds of
    /// these; at an error it has taken a first part of the bytes, or none. An interrupted write
    /// or flush is no fault, but for the last of `MOST_TRIES` in a row.
    fn write(&mut self, piece: &[u8]) -> Result<usize, Failed>
        ensures some { IfOk result (λ count. 0 < count) }
        ensures there { IfOk result (λ count. count ≤ length piece.now) }
        ensures bytes { IfOk result (λ count. Appends
            (W.contents self.old.inner) (W.contents self.new.inner) (take count piece.now)) }
        ensures part { OnErr result (AppendsPart
            (W.contents self.old.inner) (W.contents self.new.inner) piece.now) }
        ensures no_fault { OnOk result (self.new.faults ≡ self.old.faults) }
        ensures fault { OnErr result (Rises self.old.faults self.new.faults) }
    {
        match write_through(&mut self.writer, piece) {
            Some(count) => Ok(count),
            None => self.fail(),
        }
    }

    /// Flushes the writer.
    fn end(&mut self) -> Result<(), Failed>
        ensures bytes { Keeps (W.contents self.old.inner) (W.contents self.new.inner) }
        ensures no_fault { OnOk result (self.new.faults ≡ self.old.faults) }
        ensures fault { OnErr result (Rises self.old.faults self.new.faults) }
    {
        match flush_again(&mut self.writer) {
            Ok(()) => Ok(()),
            Err(_) => self.fail(),
        }
    }
}

/// Writes what the writer takes, and flushes: how many bytes, or `None` where it takes none or one
/// of the two fails, and then it has taken a first part of the bytes, or none.
fn write_through<W: Write>(writer: &mut W, bytes: &[u8]) -> Option<usize>
    ensures some { IfSome result (λ count. 0 < count) }
    ensures there { IfSome result (λ count. count ≤ length bytes.now) }
    ensures bytes { IfSome result (λ count.
        Appends (W.contents writer.old) (W.contents writer.new) (take count bytes.now)) }
    ensures part { IfNone result
        (AppendsPart (W.contents writer.old) (W.contents writer.new) bytes.now) }
{
    let count = write_again(writer, bytes).ok()?;
    flush_again(writer).ok()?;
    if count > 0 { Some(count) } else { None }
}

/// One write of the writer, tried again where the system interrupts it.
fn write_again<W: Write>(writer: &mut W, bytes: &[u8]) -> io::Result<usize>
    ensures there { IfOk result (λ count. count ≤ length bytes.now) }
    ensures bytes { WriteAppends
        (W.contents writer.old) (W.contents writer.new) result bytes.now }
{
    for _ in 1..MOST_TRIES {
        match writer.write(bytes) {
            Err(error) if error.kind() == ErrorKind::Interrupted => {}
            answer => return answer,
        }
    }
    writer.write(bytes)
}

/// A flush of the writer, tried again where the system interrupts it.
fn flush_again<W: Write>(writer: &mut W) -> io::Result<()>
    ensures { Keeps (W.contents writer.old) (W.contents writer.new) }
{
    for _ in 1..MOST_TRIES {
        match writer.flush() {
            Err(error) if error.kind() == ErrorKind::Interrupted => {}
            answer => return answer,
        }
    }
    writer.flush()
}

#[cfg(test)]
mod tests {
    use super::*;
    use crate::NoMemory;

    #[test]
    fn bytes_pass_through(rt: HostRuntime) -> Result<(), NoMemory> {
        let bytes = [1, 2, 3];
        let mut source = StdSource::new(bytes.as_slice());
        let mut into = [0; 2];
        assert_eq!(rt; source.read(&mut into), Ok(2));
        let mut written = Vec::new(rt.alloc());
        let mut sink = StdSink::new(&mut written);
        assert_eq!(rt; sink.write(&into), Ok(2));
        assert_eq!(rt; sink.end(), Ok(()));
        assert_eq!(rt; written.as_slice(), [1, 2].as_slice());
        Ok(())
    }

    /// A reader and writer that gives or takes one byte a call, once its first calls have failed,
    /// and its first flushes. It counts the flushes that it let through.
    #[derive(Drop)]
    struct Slow {
        failing: u32,
        failing_flushes: u32,
        kind: ErrorKind,
        flushes: u32,
    }

    /// An error of this kind while calls are left that fail.
    fn turn(failing: &mut u32, kind: ErrorKind) -> io::Result<()> {
        if *failing == 0 {
            return Ok(());
        }
        *failing -= 1;
        Err(io::Error::from(kind))
    }

    impl Read for Slow {
        fn read(&mut self, buf: &mut [u8]) -> io::Result<usize> {
            turn(&mut self.failing, self.kind)?;
            if buf.is_empty() {
                return Ok(0);
            }
            buf[0] = 7;
            Ok(1)
        }
    }

    impl Write for Slow {
        fn write(&mut self, buf: &[u8]) -> io::Result<usize> {
            turn(&mut self.failing, self.kind)?;
            Ok(buf.len().min(1))
        }

        fn flush(&mut self) -> io::Result<()> {
            turn(&mut self.failing_flushes, self.kind)?;
            self.flushes = self.flushes.saturating_add(1);
            Ok(())
        }
    }

    /// So many calls and flushes fail by an error of this kind.
    fn failing_first(failing: u32, failing_flushes: u32, kind: ErrorKind) -> Slow {
        Slow {
            failing,
            failing_flushes,
            kind,
            flushes: 0,
        }
    }

    #[test]
    fn an_interrupted_read_is_tried_again(rt: HostRuntime) {
        let mut into = [0; 2];
        let mut source = StdSource::new(failing_first(3, 0, ErrorKind::Interrupted));
        assert_eq!(rt; source.read(&mut into), Ok(1));
        assert_eq!(rt; (into, source.faults), ([7, 0], 0));
        let mut source = StdSource::new(failing_first(MOST_TRIES, 0, ErrorKind::Interrupted));
        assert_eq!(rt; source.read(&mut into), Err(Failed));
        assert_eq!(rt; source.faults, 1);
        assert_eq!(rt; source.read(&mut into), Ok(1));
    }

    #[test]
    fn a_read_that_fails_once_is_a_fault(rt: HostRuntime) {
        let mut into = [0; 2];
        let mut source = StdSource::new(failing_first(1, 0, ErrorKind::Other));
        assert_eq!(rt; source.read(&mut into), Err(Failed));
        assert_eq!(rt; source.faults, 1);
        assert_eq!(rt; source.read(&mut into), Ok(1));
    }

    #[test]
    fn each_write_is_flushed(rt: HostRuntime) {
        let mut sink = StdSink::new(failing_first(0, 0, ErrorKind::Other));
        assert_eq!(rt; sink.write(&[1, 2, 3]), Ok(1));
        assert_eq!(rt; sink.end(), Ok(()));
        assert_eq!(rt; (sink.writer.flushes, sink.faults), (2, 0));
    }

    #[test]
    fn an_interrupted_write_is_tried_again(rt: HostRuntime) {
        let mut sink = StdSink::new(failing_first(3, 3, ErrorKind::Interrupted));
        assert_eq!(rt; sink.write(&[1, 2, 3]), Ok(1));
        assert_eq!(rt; (sink.writer.flushes, sink.faults), (1, 0));
    }

    #[test]
    fn a_failing_flush_is_a_fault(rt: HostRuntime) {
        let mut sink = StdSink::new(failing_first(0, 2, ErrorKind::Other));
        assert_eq!(rt; sink.write(&[1, 2, 3]), Err(Failed));
        assert_eq!(rt; sink.end(), Err(Failed));
        assert_eq!(rt; sink.faults, 2);
        assert_eq!(rt; sink.write(&[1, 2, 3]), Ok(1));
    }
}
