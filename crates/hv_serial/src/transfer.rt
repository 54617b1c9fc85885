//! Whole transfers from a source and to a sink, which move as much a call as they like.

ghost use Rattle.std.specs.Prelude.{◌≡◌, ℕ, ◌+◌, ◌<◌, ◌≤◌, List, [], Some, length, drop, IfOk, OnOk, OnErr};
ghost use Rattle.hv_types.specs.Outside.{Fills, Rises};
ghost use Rattle.hv_serial.specs.Transfers.{StopsShort, EndsAfter, Grows, PutsPart};

use hv_types::{Failed, Sink, Source};

/// Reads until the buffer is full or the input ends, never for more than what the buffer lacks, and
/// says how many bytes were read.
pub fn fill<S: Source>(source: &mut S, buffer: &mut [u8]) -> Result<usize, Failed>
    ensures most { IfOk result (λ n. n ≤ length buffer.new) }
    ensures read { IfOk result (λ n.
        (bytes : List ℕ) → S.left source.old ≡ Some bytes →
        Fills bytes (S.left source.new) buffer.new n) }
    ensures end { IfOk result (λ n. n < length buffer.new → EndsAfter (S.left source.old) n) }
    ensures no_fault { OnOk result (S.faults source.new ≡ S.faults source.old) }
    ensures err { OnErr result
        (StopsShort (S.left source.old) (S.left source.new) (length buffer.new)) }
    ensures fault { OnErr result (Rises (S.faults source.old) (S.faults source.new)) }
{
    let mut filled = 0;
    while filled < buffer.len() {
        let n = source.read(&mut buffer[filled..])?;
        if n == 0 {
            return Ok(filled);
        }
        filled += n;
    }
    Ok(filled)
}

/// Writes all the bytes.
pub fn write_all<K: Sink>(sink: &mut K, bytes: &[u8]) -> Result<(), Failed>
    ensures ok { OnOk result (Grows (K.written sink.old) (K.written sink.new) bytes.now) }
    ensures no_fault { OnOk result (K.faults sink.new ≡ K.faults sink.old) }
    ensures err { OnErr result (PutsPart (K.written sink.old) (K.written sink.new) bytes.now) }
    ensures fault { OnErr result (Rises (K.faults sink.old) (K.faults sink.new)) }
{
    let mut done = 0;
    while done < bytes.len() {
        done += sink.write(&bytes[done..])?;
    }
    Ok(())
}
