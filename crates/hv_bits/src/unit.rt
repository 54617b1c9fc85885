//! NAL units, and emulation prevention.

ghost use Rattle.std.specs.Prelude.{◌≡◌, ◌≢◌, ◌+◌, ◌<◌, ◌≤◌, ◌++◌, length, drop, slice_index, IfOk, OnOk, IsTrue};
ghost use Rattle.hv_stream_model.specs.Units.{unit_bytes, last_of, escape, strip};

use hv_types::NoMemory;
use std::alloc::{AllocError, Global};

/// `emulation_prevention_three_byte`, which stands behind two zero bytes and before a byte of at
/// most the second number (7.3.1.1, 7.4.2).
const THREE_BYTE: u8 = 3;

const LARGEST_ESCAPED: u8 = 3;

/// A NAL unit of layer 0 with its start code (7.3.1, Annex B): `kind` is its `nal_unit_type`,
/// `temporal` its `TemporalId`, and `payload` its raw byte sequence payload, to which the emulation
/// prevention bytes are added.
pub fn write_nal(alloc: Global, kind: u8, temporal: u8, payload: &[u8]) -> Result<Vec<u8>, NoMemory>
    requires kind { kind < 64 }
    requires temporal { temporal < 7 }
    requires ends { last_of payload.now ≢ 0 }
    ensures { IfOk result (λ bytes. bytes.items ≡ unit_bytes record {
      nal_unit_type = kind;
      nuh_layer_id = 0;
      TemporalId = temporal;
      payload = payload.now;
    }) }
{
    let mut bytes = Vec::new(alloc);
    bytes.extend_from_slice(&[0, 0, 0, 1, kind * 2, temporal + 1])?;
    put_escaped(&mut bytes, payload)?;
    Ok(bytes)
}

/// The raw byte sequence payload of a NAL unit that begins with its header of two bytes (7.3.1):
/// the bytes behind the header without their emulation prevention bytes.
pub fn strip_nal(alloc: Global, unit: &[u8]) -> Result<Vec<u8>, NoMemory>
    requires { 2 ≤ length unit.now }
    ensures { IfOk result (λ bytes. bytes.items ≡ strip (drop 2 unit.now)) }
{
    let mut bytes = Vec::with_capacity(alloc, unit.len() - 2)?;
    put_stripped(&mut bytes, &unit[2..])?;
    Ok(bytes)
}

/// Whether the third byte from a place on is none that an emulation prevention byte stands before,
/// and isn't the last. Where no zero byte is before that place, all three stay as they are.
#[inline(always)]
fn third_is_large(bytes: &[u8], at: usize) -> bool
    requires { at < length bytes.now }
    ensures { IsTrue result → (at + 3 < length bytes.now) × (4 ≤ slice_index bytes.now (at + 2)) }
{
    at + 3 < bytes.len() && bytes[at + 2] > LARGEST_ESCAPED
}

/// Adds a payload with its emulation prevention bytes.
fn put_escaped(bytes: &mut Vec<u8>, payload: &[u8]) -> Result<(), AllocError>
    ensures { OnOk result (bytes.new.items ≡ bytes.old.items ++ escape payload.now) }
{
    let mut from = 0;
    let mut zeros = 0usize;
    let mut at = 0;
    while at < payload.len() {
        while zeros == 0 && third_is_large(payload, at) {
            at += 3;
        }
        if zeros > 1 && payload[at] <= LARGEST_ESCAPED {
            bytes.extend_from_slice(&payload[from..at])?;
            bytes.push(THREE_BYTE)?;
            from = at;
            zeros = 0;
        }
        zeros = if payload[at] == 0 { zeros + 1 } else { 0 };
        at += 1;
    }
    bytes.extend_from_slice(&payload[from..])
}

/// Adds an escaped payload without its emulation prevention bytes.
fn put_stripped(bytes: &mut Vec<u8>, escaped: &[u8]) -> Result<(), AllocError>
    ensures { OnOk result (bytes.new.items ≡ bytes.old.items ++ strip escaped.now) }
{
    let mut from = 0;
    let mut run = 0usize;
    let mut at = 0;
    while at < escaped.len() {
        while run == 0 && third_is_large(escaped, at) {
            at += 3;
        }
        if run > 1 && escaped[at] == THREE_BYTE {
            bytes.extend_from_slice(&escaped[from..at])?;
            from = at + 1;
            run = 0;
        } else {
            run = if escaped[at] == 0 { run + 1 } else { 0 };
        }
        at += 1;
    }
    bytes.extend_from_slice(&escaped[from..])
}
