//! Emulation prevention, byte by byte.

ghost use Rattle.std.specs.Prelude.{◌≡◌, ◌+◌, ◌<◌, ◌≤◌, ◌^◌, ◌++◌, ◌∷◌, [], cond, IfOk, OnOk};
ghost use Rattle.hv_stream_model.specs.Units.{escape};
ghost use Rattle.hv_stream_model.specs.ZeroRuns.{run_after, needs_three};

use hv_types::NoMemory;
use std::alloc::{AllocError, Global};

/// A payload with its emulation prevention bytes (7.3.1.1, 7.4.2): a byte 3 before each byte of at
/// most 3 that follows two zero bytes of the result.
///
/// `NoMemory` where there is not enough memory.
pub fn escape(alloc: Global, bytes: &[u8]) -> Result<Vec<u8>, NoMemory>
    ensures { IfOk result (λ r. r.items ≡ escape bytes.now) }
{
    let mut escaped = Vec::new(alloc);
    let mut run = 0usize;
    for byte in bytes {
        run = put_byte(&mut escaped, run, *byte)?;
    }
    Ok(escaped)
}

/// Whether a byte 3 goes before this byte, where so many zero bytes stand before.
fn needs_three(run: usize, byte: u8) -> bool
    ensures { result ≡ needs_three run byte }
{
    1 < run && byte < 4
}

/// How many zero bytes stand at the end, after one more byte.
fn run_after(run: usize, byte: u8) -> usize
    requires { run < 2 ^ 63 }
    ensures value { result ≡ run_after run byte }
    ensures most { result ≤ run + 1 }
{
    if byte == 0 { run + 1 } else { 0 }
}

/// Puts a byte, with a byte 3 before it where it needs one, and answers how many zero bytes stand
/// at the end then.
fn put_byte(escaped: &mut Vec<u8>, run: usize, byte: u8) -> Result<usize, AllocError>
    requires { run < 2 ^ 63 }
    ensures bytes { OnOk result (escaped.new.items ≡
        escaped.old.items ++ cond (needs_three run byte) (3 ∷ byte ∷ []) (byte ∷ [])) }
    ensures run { IfOk result (λ r. r ≡ run_after (cond (needs_three run byte) 0 run) byte) }
    ensures most { IfOk result (λ r. r ≤ run + 1) }
{
    if needs_three(run, byte) {
        escaped.push(3)?;
        escaped.push(byte)?;
        Ok(run_after(0, byte))
    } else {
        escaped.push(byte)?;
        Ok(run_after(run, byte))
    }
}
