//! The kernels of bits and NAL units that can be run.

use crate::streams::{Field, NAL_UNIT_TYPE, Streams};
use hv_bits::{BitWriter, strip_nal, write_nal};
use hv_types::NoMemory;
use std::alloc::Global;

/// Of so many bytes one goes into the sum.
const SAMPLED: usize = 256;

#[derive(Clone, Copy, PartialEq, Eq)]
pub enum BitKernel {
    Put,
    WriteNal,
    StripNal,
}

/// Puts all fields, and gives their bytes.
#[inline(never)]
fn put_fields(alloc: Global, fields: &[Field]) -> Result<Vec<u8>, NoMemory> {
    let mut writer = BitWriter::new(alloc);
    for field in fields {
        writer.put(field.value, field.bits);
    }
    writer.trail();
    writer.finish()
}

/// A sum of the number of bytes and of some of them.
fn sum_of(bytes: &[u8]) -> u64 {
    let mut sum = bytes.len() as u64;
    for part in bytes.chunks(SAMPLED) {
        if let Some(byte) = part.first() {
            sum = sum.wrapping_mul(31).wrapping_add(u64::from(*byte));
        }
    }
    sum
}

impl BitKernel {
    /// All kernels, in the order in which they are run.
    pub const ALL: [BitKernel; 3] = [BitKernel::Put, BitKernel::WriteNal, BitKernel::StripNal];

    /// The word by which a user asks for it.
    pub fn name(self) -> &'static str {
        match self {
            BitKernel::Put => "put",
            BitKernel::WriteNal => "write_nal",
            BitKernel::StripNal => "strip_nal",
        }
    }

    /// The kernel of this name, if there is one.
    pub fn named(word: &str) -> Option<BitKernel> {
        for kernel in &BitKernel::ALL {
            if kernel.name() == word {
                return Some(*kernel);
            }
        }
        None
    }

    /// Runs the kernel once over its whole stream, and gives a sum of the bytes that it made.
    pub fn run(self, alloc: Global, streams: &Streams) -> Result<u64, NoMemory> {
        let bytes = match self {
            BitKernel::Put => put_fields(alloc, &streams.fields)?,
            BitKernel::WriteNal => write_nal(alloc, NAL_UNIT_TYPE, 0, &streams.payload)?,
            BitKernel::StripNal => strip_nal(alloc, &streams.unit[4..])?,
        };
        Ok(sum_of(&bytes))
    }
}
