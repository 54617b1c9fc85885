//! Two pictures of noise, of 512 columns and 128 rows.
ghost use Rattle.std.specs.Prelude.{◌≡◌, ◌*◌, ◌≤◌, IfOk, vec_len};

use std::alloc::{AllocError, Global};

pub const WIDTH: usize = 512;

pub const SAMPLES: usize = 65536;

pub const QUARTER_WIDTH: usize = 128;

#[derive(Drop)]
pub struct Pictures {
    pub first: Vec<u8>,
    pub second: Vec<u8>,
    pub quarter_row: Vec<u8>,
    pub stride: usize,
    ghost first_whole: { vec_len first ≡ 65536 },
    ghost second_whole: { vec_len second ≡ 65536 },
    ghost quarter_whole: { vec_len quarter_row ≡ 128 },
    ghost narrow: { stride ≤ 512 },
}

/// Samples from a generator of numbers that starts at `seed`.
fn noise(alloc: Global, seed: u32) -> Result<Vec<u8>, AllocError>
    ensures { IfOk result (λ samples. vec_len samples ≡ 65536) }
{
    let mut samples = vec![in alloc; 0u8; SAMPLES]?;
    let mut state = seed;
    for sample in samples.iter_mut() {
        state = state.wrapping_mul(1664525).wrapping_add(1013904223);
        *sample = (state >> 24) as u8;
    }
    Ok(samples)
}

impl Pictures {
    /// The stride stands in a field, so that no kernel is compiled for this one stride.
    #[inline(never)]
    pub fn new(alloc: Global) -> Result<Pictures, AllocError> {
        let first = noise(alloc, 1)?;
        let second = noise(alloc, 2)?;
        let quarter_row = vec![in alloc; 0u8; QUARTER_WIDTH]?;
        Ok(Pictures {
            first,
            second,
            quarter_row,
            stride: WIDTH,
        })
    }
}
