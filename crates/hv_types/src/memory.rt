//! A source and a sink in memory, which move bytes in small steps and fail where they are told to.

ghost use Rattle.std.specs.Prelude.{◌≡◌, ◌<◌, ◌≤◌, [], Some, IfOk, OnOk, OnErr, length};
ghost use Rattle.hv_types.specs.Outside.{Reads, Writes, Rises};
ghost use Rattle.hv_types.specs.Memory.{GivesExactly, GivesNothing, TakesExactly, TakesNothing, EndsWell, EndsBadly, uncalled_script};

use crate::script::Script;
use crate::{Failed, NoMemory, Sink, Source};
use std::alloc::Global;
use std::marker::Model;

/// A source in memory. It tells its bytes. Contracts see the bytes still to come, the most that
/// one call gives, the numbers of the calls that fail, and the counts of calls and of faults.
#[derive(Debug, Drop)]
pub struct MemorySource {
    bytes: Vec<u8>,
    at: usize,
    at_most: u32,
    script: Script,
}

impl Model for MemorySource {
    ghost use Rattle.std.specs.Prelude.{◌≤◌, length, drop};
    ghost use Rattle.hv_types.specs.Memory.{Giver};

    ghost Value = { Giver };

    ghost view = { λ s. record {
      left = drop s.at s.bytes.items;
      at_most = s.at_most;
      script = s.script;
    } };

    ghost invariant = { λ s. (s.at ≤ length s.bytes.items) × (1 ≤ s.at_most) };
}

impl MemorySource {
    /// A source of these bytes, which gives at most `at_most` of them at a call, and fails at the
    /// calls whose numbers, from 0, are in `failing`.
    pub fn new(bytes: Vec<u8>, at_most: u32, failing: Vec<u64>) -> Self
        requires { 1 ≤ at_most }
        ensures bytes { result.left ≡ bytes.items }
        ensures at_most { result.at_most ≡ at_most }
        ensures script { result.script ≡ uncalled_script failing.items }
    {
        MemorySource {
            bytes,
            at: 0,
            at_most,
            script: Script::new(failing),
        }
    }
}

impl Source for MemorySource {
    ghost use Rattle.std.specs.Prelude.{Some};

    ghost left = { λ s. Some s.left };

    ghost faults = { λ s. s.script.faults };

    /// Gives as much as is left, there is room for, and one call may give. It fails exactly at the
    /// calls that are told to fail.
    fn read(&mut self, into: &mut [u8]) -> Result<usize, Failed>
        requires { 0 < length into.old }
        ensures ok { IfOk result (GivesExactly self.old self.new into.old into.new) }
        ensures reads { IfOk result (Reads (Some self.old.left) (Some self.new.left) into.new) }
        ensures err { OnErr result (GivesNothing self.old self.new) }
        ensures fault { OnErr result (Rises self.old.script.faults self.new.script.faults) }
        ensures untouched { OnErr result (into.new ≡ into.old) }
    {
        if self.script.is_failing() {
            self.script.count_fault();
            return Err(Failed);
        }
        self.script.count();
        let rest = &self.bytes[self.at..];
        let count = rest.len().min(into.len()).min(self.at_most as usize);
        into[..count].copy_from_slice(&rest[..count]);
        self.at += count;
        Ok(count)
    }
}

/// A sink in memory with room for a number of bytes. It tells its bytes. Contracts see the bytes
/// written, the room, the most that one call takes, the numbers of the calls that fail, and the
/// counts of calls and of faults.
#[derive(Debug, Drop)]
pub struct MemorySink {
    bytes: Vec<u8>,
    room: u32,
    at_most: u32,
    script: Script,
}

impl Model for MemorySink {
    ghost use Rattle.std.specs.Prelude.{◌≤◌, length, vec_capacity};
    ghost use Rattle.hv_types.specs.Memory.{Taker};

    ghost Value = { Taker };

    ghost view = { λ s. record {
      written = s.bytes.items;
      room = s.room;
      at_most = s.at_most;
      script = s.script;
    } };

    ghost invariant = { λ s.
        (length s.bytes.items ≤ s.room) × (s.room ≤ vec_capacity s.bytes) × (1 ≤ s.at_most) };
}

impl MemorySink {
    /// A sink with room for `room` bytes, which it takes from `alloc` at once. A call takes at
    /// most `at_most` bytes, and the calls whose numbers, from 0, are in `failing` fail.
    pub fn new(alloc: Global, room: u32, at_most: u32, failing: Vec<u64>) -> Result<Self, NoMemory>
        requires { 1 ≤ at_most }
        ensures empty { IfOk result (λ sink. sink.written ≡ []) }
        ensures room { IfOk result (λ sink. sink.room ≡ room) }
        ensures at_most { IfOk result (λ sink. sink.at_most ≡ at_most) }
        ensures script { IfOk result (λ sink. sink.script ≡ uncalled_script failing.items) }
    {
        Ok(MemorySink {
            bytes: Vec::with_capacity(alloc, room as usize)?,
            room,
            at_most,
            script: Script::new(failing),
        })
    }

    /// The bytes that were written.
    pub fn written(&self) -> &[u8]
        ensures { result.now ≡ self.now.written }
    {
        &self.bytes
    }
}

impl Sink for MemorySink {
    ghost use Rattle.std.specs.Prelude.{Some};

    ghost written = { λ s. Some s.written };

    ghost faults = { λ s. s.script.faults };

    /// Takes as much as there is, still fits, and one call may take. It fails exactly at the
    /// calls that are told to fail, and where nothing fits.
    fn write(&mut self, piece: &[u8]) -> Result<usize, Failed>
        requires { 0 < length piece.now }
        ensures ok { IfOk result (TakesExactly self.old self.new piece.now) }
        ensures writes { IfOk result
            (Writes (Some self.old.written) (Some self.new.written) piece.now) }
        ensures err { OnErr result (TakesNothing self.old self.new) }
        ensures fault { OnErr result (Rises self.old.script.faults self.new.script.faults) }
    {
        let free = self.room as usize - self.bytes.len();
        if self.script.is_failing() || free == 0 {
            self.script.count_fault();
            return Err(Failed);
        }
        self.script.count();
        let count = free.min(piece.len()).min(self.at_most as usize);
        self.bytes.extend_from_slice(&piece[..count]).unwrap();
        Ok(count)
    }

    /// It is one of the calls that are numbered, and fails exactly where it is told to fail.
    fn end(&mut self) -> Result<(), Failed>
        ensures ok { OnOk result (EndsWell self.old self.new) }
        ensures err { OnErr result (EndsBadly self.old self.new) }
        ensures fault { OnErr result (Rises self.old.script.faults self.new.script.faults) }
    {
        if !self.script.is_failing() {
            self.script.count();
            return Ok(());
        }
        self.script.count_fault();
        Err(Failed)
    }
}

#[cfg(test)]
mod tests {
    use super::*;

    #[test]
    fn a_source_gives_its_bytes_in_steps(rt: HostRuntime) -> Result<(), NoMemory> {
        let bytes = [1, 2, 3, 4, 5].to_vec(rt.alloc())?;
        let mut source = MemorySource::new(bytes, 2, [1].to_vec(rt.alloc())?);
        let mut into = [0; 4];
        assert_eq!(rt; source.read(&mut into), Ok(2));
        assert_eq!(rt; into, [1, 2, 0, 0]);
        assert_eq!(rt; source.read(&mut into), Err(Failed));
        assert_eq!(rt; source.read(&mut into), Ok(2));
        assert_eq!(rt; source.read(&mut into), Ok(1));
        assert_eq!(rt; into, [5, 4, 0, 0]);
        assert_eq!(rt; source.read(&mut into), Ok(0));
        Ok(())
    }

    #[test]
    fn a_sink_takes_what_fits(rt: HostRuntime) -> Result<(), NoMemory> {
        let failing = [0].to_vec(rt.alloc())?;
        let mut sink = MemorySink::new(rt.alloc(), 3, 2, failing)?;
        assert_eq!(rt; sink.write(&[1, 2, 3]), Err(Failed));
        assert_eq!(rt; sink.write(&[1, 2, 3]), Ok(2));
        assert_eq!(rt; sink.write(&[3, 4]), Ok(1));
        assert_eq!(rt; sink.write(&[4]), Err(Failed));
        assert_eq!(rt; sink.written(), [1, 2, 3].as_slice());
        Ok(())
    }

    #[test]
    fn the_end_is_a_call_too(rt: HostRuntime) -> Result<(), NoMemory> {
        let failing = [1, 2].to_vec(rt.alloc())?;
        let mut sink = MemorySink::new(rt.alloc(), 3, 2, failing)?;
        assert_eq!(rt; sink.end(), Ok(()));
        assert_eq!(rt; sink.end(), Err(Failed));
        assert_eq!(rt; sink.write(&[1]), Err(Failed));
        assert_eq!(rt; sink.end(), Ok(()));
        Ok(())
    }
}
