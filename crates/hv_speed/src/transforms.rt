//! The kernels of transforms that can be run, and the blocks that they go over.
ghost use Rattle.std.specs.Prelude.{◌≡◌, ◌^◌, ◌<◌, ◌≤◌, IfOk, vec_len, length};
ghost use Rattle.hv_forward.specs.Ranges.{AreDifferences};
ghost use Rattle.hv_lanes.specs.Ranges.{Have16Bits};

use hv_forward::{forward, quantise};
use hv_transform::{inverse, scale};
use std::alloc::{AllocError, Global};

/// A block of residuals, one of coefficients, and room for what a transform makes of them.
#[derive(Drop)]
pub struct Block {
    log2: u8,
    residual: Vec<i16>,
    coefficients: Vec<i32>,
    new_residual: Vec<i16>,
    new_coefficients: Vec<i32>,
    ghost least: { 2 ≤ log2 },
    ghost greatest: { log2 ≤ 5 },
    ghost residual_whole: { vec_len residual ≡ 4 ^ log2 },
    ghost coefficients_whole: { vec_len coefficients ≡ 4 ^ log2 },
    ghost new_residual_whole: { vec_len new_residual ≡ 4 ^ log2 },
    ghost new_coefficients_whole: { vec_len new_coefficients ≡ 4 ^ log2 },
    ghost differences: { AreDifferences residual.items },
    ghost range: { Have16Bits coefficients.items },
}

/// The quantiser of every block.
const QUANTISER: u8 = 26;

/// Writes differences from a generator of numbers.
fn put_noise(out: &mut [i16])
    ensures { AreDifferences out.new }
{
    let mut state = 5u32;
    for i in 0..out.len() {
        state = state.wrapping_mul(1664525).wrapping_add(1013904223);
        out[i] = i16::from((state >> 24) as u8) - 128;
    }
}

/// Keeps the first numbers of the first rows of a block of so many columns: `kept` of each.
fn keep_first(block: &mut [i16], columns: usize, kept: usize)
    requires { 0 < columns }
{
    for i in 0..block.len() {
        if i % columns >= kept || i / columns >= kept {
            block[i] = 0;
        }
    }
}

/// The size of a number, or 0 where there is none.
fn size_at(numbers: &[i32], place: usize) -> u64 {
    match numbers.get(place) {
        Some(number) => u64::from(number.unsigned_abs()),
        None => 0,
    }
}

/// The same, of a number of 16 bits.
fn short_size_at(numbers: &[i16], place: usize) -> u64
    ensures { result ≤ 32768 }
{
    match numbers.get(place) {
        Some(number) => u64::from(number.unsigned_abs()),
        None => 0,
    }
}

impl Block {
    /// A block of 2^log2 columns, which has `size` members. The levels behind the first columns and
    /// rows are 0: `kept` of each have others.
    pub fn new(alloc: Global, log2: u8, size: usize, kept: usize) -> Result<Block, AllocError>
        requires least { 2 ≤ log2 }
        requires greatest { log2 ≤ 5 }
        requires size { size ≡ 4 ^ log2 }
    {
        let mut residual = vec![in alloc; 0i16; size]?;
        let mut levels = vec![in alloc; 0i16; size]?;
        let mut coefficients = vec![in alloc; 0i32; size]?;
        let new_residual = vec![in alloc; 0i16; size]?;
        let new_coefficients = vec![in alloc; 0i32; size]?;
        put_noise(&mut residual);
        put_noise(&mut levels);
        keep_first(&mut levels, 1 << log2, kept);
        scale(&levels, log2, QUANTISER, &mut coefficients);
        Ok(Block {
            log2,
            residual,
            coefficients,
            new_residual,
            new_coefficients,
        })
    }
}

#[derive(Clone, Copy, PartialEq, Eq)]
pub enum TransformKernel {
    Inverse4,
    Inverse8,
    Inverse16,
    Inverse32,
    InverseCorner16,
    InverseCorner32,
    InverseFirst16,
    InverseFirst32,
    Forward4,
    Forward8,
    Forward16,
    Forward32,
    Quantise8,
    Quantise32,
    Scale8,
    Scale32,
}

impl TransformKernel {
    /// All kernels, in the order in which they are run.
    pub const ALL: [TransformKernel; 16] = [
        TransformKernel::Inverse4,
        TransformKernel::Inverse8,
        TransformKernel::Inverse16,
        TransformKernel::Inverse32,
        TransformKernel::InverseCorner16,
        TransformKernel::InverseCorner32,
        TransformKernel::InverseFirst16,
        TransformKernel::InverseFirst32,
        TransformKernel::Forward4,
        TransformKernel::Forward8,
        TransformKernel::Forward16,
        TransformKernel::Forward32,
        TransformKernel::Quantise8,
        TransformKernel::Quantise32,
        TransformKernel::Scale8,
        TransformKernel::Scale32,
    ];

    /// The word by which a user asks for it.
    pub fn name(self) -> &'static str {
        match self {
            TransformKernel::Inverse4 => "inverse_4",
            TransformKernel::Inverse8 => "inverse_8",
            TransformKernel::Inverse16 => "inverse_16",
            TransformKernel::Inverse32 => "inverse_32",
            TransformKernel::InverseCorner16 => "inverse_corner_16",
            TransformKernel::InverseCorner32 => "inverse_corner_32",
            TransformKernel::InverseFirst16 => "inverse_first_16",
            TransformKernel::InverseFirst32 => "inverse_first_32",
            TransformKernel::Forward4 => "forward_4",
            TransformKernel::Forward8 => "forward_8",
            TransformKernel::Forward16 => "forward_16",
            TransformKernel::Forward32 => "forward_32",
            TransformKernel::Quantise8 => "quantise_8",
            TransformKernel::Quantise32 => "quantise_32",
            TransformKernel::Scale8 => "scale_8",
            TransformKernel::Scale32 => "scale_32",
        }
    }

    /// The kernel of this name, if there is one.
    pub fn named(word: &str) -> Option<TransformKernel> {
        for kernel in &TransformKernel::ALL {
            if kernel.name() == word {
                return Some(*kernel);
            }
        }
        None
    }

    /// The block that the kernel goes over.
    pub fn block(self, alloc: Global) -> Result<Block, AllocError> {
        match self {
            TransformKernel::Inverse4 | TransformKernel::Forward4 => Block::new(alloc, 2, 16, 4),
            TransformKernel::Inverse8
            | TransformKernel::Forward8
            | TransformKernel::Quantise8
            | TransformKernel::Scale8 => Block::new(alloc, 3, 64, 8),
            TransformKernel::Inverse16 | TransformKernel::Forward16 => Block::new(
                alloc, 4, 256, 16,
            ),
            TransformKernel::Inverse32
            | TransformKernel::Forward32
            | TransformKernel::Quantise32
            | TransformKernel::Scale32 => Block::new(alloc, 5, 1024, 32),
            TransformKernel::InverseCorner16 => Block::new(alloc, 4, 256, 8),
            TransformKernel::InverseCorner32 => Block::new(alloc, 5, 1024, 8),
            TransformKernel::InverseFirst16 => Block::new(alloc, 4, 256, 1),
            TransformKernel::InverseFirst32 => Block::new(alloc, 5, 1024, 1),
        }
    }

    /// Runs the kernel once, and gives a number of what it made. The place chooses the number. The
    /// levels that are scaled are the residuals.
    pub fn run(self, block: &mut Block, place: usize) -> u64
        requires { place < 64 }
    {
        match self {
            TransformKernel::Forward4
            | TransformKernel::Forward8
            | TransformKernel::Forward16
            | TransformKernel::Forward32 => {
                forward(&block.residual, block.log2, &mut block.new_coefficients);
                size_at(&block.new_coefficients, place)
            }
            TransformKernel::Scale8 | TransformKernel::Scale32 => {
                scale(
                    &block.residual,
                    block.log2,
                    QUANTISER,
                    &mut block.new_coefficients,
                );
                size_at(&block.new_coefficients, place)
            }
            TransformKernel::Quantise8 | TransformKernel::Quantise32 => {
                let is_some = quantise(
                    &block.coefficients,
                    block.log2,
                    QUANTISER,
                    true,
                    &mut block.new_residual,
                );
                short_size_at(&block.new_residual, place) + u64::from(is_some)
            }
            _ => {
                inverse(&block.coefficients, block.log2, &mut block.new_residual);
                short_size_at(&block.new_residual, place)
            }
        }
    }
}
