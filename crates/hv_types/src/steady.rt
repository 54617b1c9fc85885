//! A source and a sink that never fail.

ghost use Rattle.std.specs.Prelude.{◌≡◌, ◌<◌, Some, Ok, min, length, IfOk, IsOk};
ghost use Rattle.hv_types.specs.Outside.{Reads};

use crate::{Failed, Sink, Source};
use std::marker::Model;

/// A source in memory that never fails. It tells its bytes, and contracts see those still to come.
#[derive(Debug, Drop)]
pub struct SteadySource {
    bytes: Vec<u8>,
    at: usize,
}

impl Model for SteadySource {
    ghost use Rattle.std.specs.Prelude.{List, ℕ, ◌≤◌, length, drop};

    ghost Value = { List ℕ };

    ghost view = { λ s. drop s.at s.bytes.items };

    ghost invariant = { λ s. s.at ≤ length s.bytes.items };
}

impl SteadySource {
    /// A source of these bytes.
    pub fn new(bytes: Vec<u8>) -> Self
        ensures { result ≡ bytes.items }
    {
        SteadySource { bytes, at: 0 }
    }
}

impl Source for SteadySource {
    ghost use Rattle.std.specs.Prelude.{Some};

    ghost left = { λ s. Some s };

    ghost faults = { λ _. 0 };

    /// Gives what there is room for. It never fails.
    fn read(&mut self, into: &mut [u8]) -> Result<usize, Failed>
        requires { 0 < length into.old }
        ensures ok { IfOk result (Reads (Some self.old) (Some self.new) into.new) }
        ensures whole { IfOk result (λ n. n ≡ min (length self.old) (length into.old)) }
        ensures never_fails { IsOk result }
    {
        let rest = &self.bytes[self.at..];
        let count = rest.len().min(into.len());
        into[..count].copy_from_slice(&rest[..count]);
        self.at += count;
        Ok(count)
    }
}

/// A sink that takes every piece whole, keeps none of it and tells no bytes.
#[derive(Clone, Copy, Debug, PartialEq, Eq)]
pub struct SteadySink;

impl SteadySink {
    /// A sink that takes everything.
    pub fn new() -> Self {
        SteadySink
    }
}

impl Sink for SteadySink {
    ghost use Rattle.std.specs.Prelude.{None};

    ghost written = { λ _. None };

    ghost faults = { λ _. 0 };

    /// Takes the whole piece.
    fn write(&mut self, piece: &[u8]) -> Result<usize, Failed>
        ensures { result ≡ Ok (length piece.now) }
    {
        Ok(piece.len())
    }

    /// It never fails.
    fn end(&mut self) -> Result<(), Failed>
        ensures { IsOk result }
    {
        Ok(())
    }
}

#[cfg(test)]
mod tests {
    use super::*;
    use crate::NoMemory;

    #[test]
    fn steady_ends_take_and_give_what_there_is(rt: HostRuntime) -> Result<(), NoMemory> {
        let mut source = SteadySource::new([1, 2, 3].to_vec(rt.alloc())?);
        let mut into = [0; 2];
        assert_eq!(rt; source.read(&mut into), Ok(2));
        assert_eq!(rt; source.read(&mut into), Ok(1));
        assert_eq!(rt; into, [3, 2]);
        assert_eq!(rt; SteadySink::new().write(&into), Ok(2));
        Ok(())
    }
}
