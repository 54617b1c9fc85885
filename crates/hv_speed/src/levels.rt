//! The kernels of levels that can be run: levels put into the arithmetic encoder, and counted.
ghost use Rattle.std.specs.Prelude.{◌≡◌, ◌*◌, ◌^◌, ◌<◌, ◌≤◌, true, vec_len, length};
ghost use Rattle.hv_plan.specs.Levels.{any_significant};

use anyhow::bail;
use hv_cabac::{BinSink, Encoder, SliceKind};
use hv_residual::{Scan, any_significant, count_residual, put_residual};
use hv_types::NoMemory;
use std::alloc::Global;

/// A round has so many calls.
const CALLS: usize = 64;

/// Of so many bytes one goes into the sum.
const SAMPLED: usize = 16;

/// The quantiser of the slice.
const QUANTISER: u8 = 26;

/// Five levels of a block of 32x32, by their places in its rows, and two of one of 4x4.
static FIVE: [(usize, i16); 5] = [(0, 9), (1, -3), (34, 1), (132, -1), (396, 1)];

static OTHER_FIVE: [(usize, i16); 5] = [(0, -6), (32, 2), (65, -1), (99, 1), (586, -1)];

static TWO: [(usize, i16); 2] = [(0, 3), (5, -1)];

static OTHER_TWO: [(usize, i16); 2] = [(1, -2), (4, 1)];

/// The levels of a block of luma that aren't all 0.
#[derive(Drop)]
pub struct Levels {
    scan: Scan,
    log2: u8,
    luma: bool,
    levels: Vec<i16>,
    ghost least: { 2 ≤ log2 },
    ghost most: { log2 ≤ 5 },
    ghost whole: { vec_len levels ≡ 2 ^ log2 * 2 ^ log2 },
    ghost some: { any_significant levels.items ≡ true },
}

/// Two blocks, so that no call is like the one before.
#[derive(Drop)]
pub struct Blocks {
    first: Levels,
    second: Levels,
}

/// Writes levels of -4 to 3 from a generator of numbers, of which a quarter is 0.
fn put_dense(out: &mut [i16], seed: u32) {
    let mut state = seed;
    for i in 0..out.len() {
        state = state.wrapping_mul(1664525).wrapping_add(1013904223);
        out[i] = (i16::from((state >> 24) as u8) - 128) / 32;
    }
}

/// Writes levels at these places, where a block has them.
fn put_sparse(out: &mut [i16], levels: &[(usize, i16)]) {
    for (place, level) in levels {
        if *place < out.len() {
            out[*place] = *level;
        }
    }
}

impl Levels {
    /// The scan and the component stand in fields, so that no kernel is compiled for one alone.
    #[inline(never)]
    fn new(levels: Vec<i16>, log2: u8) -> anyhow::Result<Levels>
        requires least { 2 ≤ log2 }
        requires most { log2 ≤ 5 }
        requires whole { vec_len levels ≡ 2 ^ log2 * 2 ^ log2 }
    {
        if !any_significant(&levels) {
            bail!("a block has no levels");
        }
        Ok(Levels {
            scan: Scan::Diagonal,
            log2,
            luma: true,
            levels,
        })
    }

    /// A block of noise.
    fn dense(alloc: Global, log2: u8, size: usize, seed: u32) -> anyhow::Result<Levels>
        requires least { 2 ≤ log2 }
        requires most { log2 ≤ 5 }
        requires whole { size ≡ 2 ^ log2 * 2 ^ log2 }
    {
        let mut levels = vec![in alloc; 0i16; size]?;
        put_dense(&mut levels, seed);
        Levels::new(levels, log2)
    }

    /// A block with levels at these places alone.
    fn sparse(
        alloc: Global,
        log2: u8,
        size: usize,
        places: &[(usize, i16)],
    ) -> anyhow::Result<Levels>
        requires least { 2 ≤ log2 }
        requires most { log2 ≤ 5 }
        requires whole { size ≡ 2 ^ log2 * 2 ^ log2 }
    {
        let mut levels = vec![in alloc; 0i16; size]?;
        put_sparse(&mut levels, places);
        Levels::new(levels, log2)
    }
}

/// Puts a block once.
#[inline(never)]
fn put_block(encoder: &mut Encoder, block: &Levels) {
    put_residual(encoder, &block.levels, block.scan, block.log2, block.luma);
}

/// Counts the bins of a block once.
#[inline(never)]
fn count_block(block: &Levels) -> u32 {
    count_residual(&block.levels, block.scan, block.log2, block.luma)
}

/// A sum of the number of bytes and of some of them.
pub(crate) fn sum_of(bytes: &[u8]) -> u64 {
    let mut sum = bytes.len() as u64;
    for part in bytes.chunks(SAMPLED) {
        if let Some(byte) = part.first() {
            sum = sum.wrapping_mul(31).wrapping_add(u64::from(*byte));
        }
    }
    sum
}

impl Blocks {
    /// The block of this call.
    #[inline(always)]
    fn at(&self, place: usize) -> &Levels {
        if place % 2 == 0 {
            &self.first
        } else {
            &self.second
        }
    }

    /// Puts all calls' blocks into one slice, and gives a sum of its bytes.
    fn put(&self, alloc: Global) -> Result<u64, NoMemory> {
        let mut encoder = Encoder::new(alloc, SliceKind::I, QUANTISER);
        for place in 0..CALLS {
            put_block(&mut encoder, self.at(place));
        }
        encoder.terminate(true);
        let bytes = encoder.finish()?;
        Ok(sum_of(&bytes))
    }

    /// The sum of all calls' counts.
    fn count(&self) -> u64 {
        let mut sum = 0u64;
        for place in 0..CALLS {
            sum = sum.wrapping_add(u64::from(count_block(self.at(place))));
        }
        sum
    }
}

#[derive(Clone, Copy, PartialEq, Eq)]
pub enum LevelKernel {
    PutDense32,
    PutSparse32,
    Put8,
    Put4,
    CountDense32,
    CountSparse32,
    Count8,
    Count4,
}

impl LevelKernel {
    /// All kernels, in the order in which they are run.
    pub const ALL: [LevelKernel; 8] = [
        LevelKernel::PutDense32,
        LevelKernel::PutSparse32,
        LevelKernel::Put8,
        LevelKernel::Put4,
        LevelKernel::CountDense32,
        LevelKernel::CountSparse32,
        LevelKernel::Count8,
        LevelKernel::Count4,
    ];

    /// The word by which a user asks for it.
    pub fn name(self) -> &'static str {
        match self {
            LevelKernel::PutDense32 => "residual_put_32_dense",
            LevelKernel::PutSparse32 => "residual_put_32_sparse",
            LevelKernel::Put8 => "residual_put_8",
            LevelKernel::Put4 => "residual_put_4",
            LevelKernel::CountDense32 => "residual_count_32_dense",
            LevelKernel::CountSparse32 => "residual_count_32_sparse",
            LevelKernel::Count8 => "residual_count_8",
            LevelKernel::Count4 => "residual_count_4",
        }
    }

    /// The kernel of this name, if there is one.
    pub fn named(word: &str) -> Option<LevelKernel> {
        for kernel in &LevelKernel::ALL {
            if kernel.name() == word {
                return Some(*kernel);
            }
        }
        None
    }

    /// The blocks that the kernel goes over.
    pub fn blocks(self, alloc: Global) -> anyhow::Result<Blocks> {
        let (first, second) = match self {
            LevelKernel::PutDense32 | LevelKernel::CountDense32 => (
                Levels::dense(alloc, 5, 1024, 5)?,
                Levels::dense(alloc, 5, 1024, 6)?,
            ),
            LevelKernel::PutSparse32 | LevelKernel::CountSparse32 => (
                Levels::sparse(alloc, 5, 1024, &FIVE)?,
                Levels::sparse(alloc, 5, 1024, &OTHER_FIVE)?,
            ),
            LevelKernel::Put8 | LevelKernel::Count8 => (
                Levels::dense(alloc, 3, 64, 5)?,
                Levels::dense(alloc, 3, 64, 6)?,
            ),
            LevelKernel::Put4 | LevelKernel::Count4 => (
                Levels::sparse(alloc, 2, 16, &TWO)?,
                Levels::sparse(alloc, 2, 16, &OTHER_TWO)?,
            ),
        };
        Ok(Blocks { first, second })
    }

    /// Runs a round of the kernel, and gives a sum of what came out.
    pub fn run(self, alloc: Global, blocks: &Blocks) -> Result<u64, NoMemory> {
        match self {
            LevelKernel::PutDense32
            | LevelKernel::PutSparse32
            | LevelKernel::Put8
            | LevelKernel::Put4 => blocks.put(alloc),
            _ => Ok(blocks.count()),
        }
    }
}
