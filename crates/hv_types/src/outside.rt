//! What the encoder reads from, writes to, and tells before each piece of work.

ghost use Rattle.std.specs.Prelude.{◌≡◌, ◌<◌, ℕ, List, Option, length, IfOk, OnOk, OnErr};
ghost use Rattle.hv_types.specs.Outside.{Reads, Writes, Rises};

use crate::{Failed, Piece};

/// What bytes are read from.
pub trait Source {
    /// The bytes still to come, where the source tells them.
    ghost left: { Self → Option (List ℕ) };

    /// How many reads have failed. A counter of 64 bits stays at its last value.
    ghost faults: { Self → ℕ };

    /// Reads at least one byte to the front of `into`, and at most its length. `Ok(0)` is the end
    /// of the input; a source that tells its bytes answers it there alone. What lies behind the
    /// bytes read may be any.
    fn read(&mut self, into: &mut [u8]) -> Result<usize, Failed>
        requires { 0 < length into.old }
        ensures ok { IfOk result (λ n. Reads (left self.old) (left self.new) into.new n) }
        ensures no_fault { OnOk result (faults self.new ≡ faults self.old) }
        ensures err { OnErr result (left self.new ≡ left self.old) }
        ensures fault { OnErr result (Rises (faults self.old) (faults self.new)) };
}

/// What bytes are written to.
pub trait Sink {
    /// The bytes that were written, where the sink tells them.
    ghost written: { Self → Option (List ℕ) };

    /// How many writes have failed. A counter of 64 bits stays at its last value.
    ghost faults: { Self → ℕ };

    /// Writes one or more bytes from the front of `piece`, and says how many.
    fn write(&mut self, piece: &[u8]) -> Result<usize, Failed>
        requires { 0 < length piece.now }
        ensures ok { IfOk result (λ n. Writes (written self.old) (written self.new) piece.now n) }
        ensures no_fault { OnOk result (faults self.new ≡ faults self.old) }
        ensures err { OnErr result (written self.new ≡ written self.old) }
        ensures fault { OnErr result (Rises (faults self.old) (faults self.new)) };

    /// Asks, behind the last write, whether what was written came through, as far as the sink can
    /// know. It writes nothing.
    fn end(&mut self) -> Result<(), Failed>
        ensures same { written self.new ≡ written self.old }
        ensures no_fault { OnOk result (faults self.new ≡ faults self.old) }
        ensures fault { OnErr result (Rises (faults self.old) (faults self.new)) };
}

/// What each worker tells before it performs a piece, outside of any lock. Several threads may
/// call it at a time, and nothing that a contract names changes.
pub trait Gate: Sync {
    /// A piece is about to be performed.
    fn before(&self, piece: Piece);
}

/// A gate that does nothing.
#[derive(Clone, Copy, Debug)]
pub struct OpenGate;

impl Gate for OpenGate {
    fn before(&self, _piece: Piece) {}
}

#[cfg(test)]
mod tests {
    use super::*;
    use crate::PieceKind;

    #[test]
    fn an_open_gate_lets_a_piece_through() {
        OpenGate.before(Piece {
            group: 0,
            picture: 0,
            kind: PieceKind::Search,
            segment: 0,
        });
    }
}
