//! A million fields, a payload of a megabyte, and the NAL unit of that payload.
ghost use Rattle.std.specs.Prelude.{◌≡◌, ◌≢◌, ◌^◌, ◌<◌, ◌≤◌, length, vec_len, IfOk};
ghost use Rattle.hv_stream_model.specs.Units.{last_of};

use hv_bits::write_nal;
use hv_types::NoMemory;
use std::alloc::{AllocError, Global};

const FIELDS: usize = 1_000_000;

const PAYLOAD: usize = 1_000_000;

pub const NAL_UNIT_TYPE: u8 = 1;

/// A value, and the number of bits that it is put in.
#[derive(Clone, Copy)]
pub struct Field {
    pub value: u32,
    pub bits: u8,
    pub ghost width: { bits ≤ 32 },
    pub ghost fits: { value < 2 ^ bits },
}

#[derive(Drop)]
pub struct Streams {
    pub fields: Vec<Field>,
    pub payload: Vec<u8>,
    // From the start code on.
    pub unit: Vec<u8>,
    ghost ends: { last_of payload.items ≢ 0 },
    ghost long: { 6 ≤ vec_len unit },
}

/// The next number of a generator.
#[inline(always)]
fn next(state: u32) -> u32 {
    state.wrapping_mul(1664525).wrapping_add(1013904223)
}

/// A field of 1 to 32 bits.
#[inline(always)]
fn field_of(word: u32) -> Field {
    let bits = (word >> 27) as u8 + 1;
    Field {
        value: word >> (32 - bits),
        bits,
    }
}

fn noise_fields(alloc: Global) -> Result<Vec<Field>, AllocError> {
    let mut fields = Vec::new(alloc);
    let mut state = 3u32;
    for _ in 0..FIELDS {
        state = next(state);
        fields.push(field_of(state))?;
    }
    Ok(fields)
}

/// Noise with so many zero bytes that emulation prevention happens now and then.
fn noise_payload(alloc: Global) -> Result<Vec<u8>, AllocError>
    ensures { IfOk result (λ payload. last_of payload.items ≢ 0) }
{
    let mut payload = Vec::new(alloc);
    let mut state = 4u32;
    for _ in 0..PAYLOAD - 1 {
        state = next(state);
        let byte = (state >> 24) as u8;
        payload.push(if byte < 16 { 0 } else { byte })?;
    }
    payload.push(128)?;
    Ok(payload)
}

impl Streams {
    pub fn new(alloc: Global) -> Result<Streams, NoMemory> {
        let fields = noise_fields(alloc)?;
        let payload = noise_payload(alloc)?;
        let unit = write_nal(alloc, NAL_UNIT_TYPE, 0, &payload)?;
        Ok(Streams {
            fields,
            payload,
            unit,
        })
    }
}
