//! Blocks of levels from a seed, put into the arithmetic encoder and read back by the plain reader.

ghost use Rattle.std.specs.Prelude.{◌≡◌, ◌*◌, ◌^◌, ◌≤◌, length, true};
ghost use Rattle.hv_plan.specs.Levels.{any_significant};

use crate::alternatives::Tally;
use crate::generator::{Generated, Random, count_in, generate};
use crate::levels::read_levels;
use crate::reader::{BinReader, Question};
use hv_cabac::Encoder;
use hv_plan::Scan;
use hv_residual::{any_significant, count_residual, put_residual};
use hv_tables::{BinSink, SliceKind};
use hv_types::NoMemory;
use std::alloc::Global;

/// How many blocks each slice of `read_back` has.
pub const BLOCKS: u32 = 24;

/// The most bytes of a slice that is read back.
const MOST_BYTES: usize = 1 << 24;

/// Puts so many slices of blocks from a seed into the encoder, and reads each back. False where a
/// level isn't the one put, where the bins that are asked for are fewer or more than are counted,
/// or where the bin before terminate isn't read behind them. Each eight slices have blocks of every
/// kind, side, component and scan. What came is added to the tally. No contract says this; tests
/// and `checks/read_back` rely on it.
pub fn read_back(
    alloc: Global,
    seed: u64,
    slices: u32,
    tally: &mut Tally,
) -> Result<bool, NoMemory> {
    let mut random = Random::new(seed);
    for slice in 0..slices {
        let first = slice.wrapping_mul(BLOCKS);
        if !is_read_back(alloc, &mut random, first, tally)? {
            return Ok(false);
        }
    }
    Ok(true)
}

/// Whether the slice of the blocks from this number on is read back.
fn is_read_back(
    alloc: Global,
    random: &mut Random,
    first: u32,
    tally: &mut Tally,
) -> Result<bool, NoMemory> {
    let mut again = *random;
    let (bytes, bins) = written(alloc, random, first)?;
    if bytes.len() > MOST_BYTES {
        return Ok(false);
    }
    let before = tally.bins();
    let Some(mut reader) = BinReader::new(alloc, &bytes, SliceKind::I, 26)? else {
        return Ok(false);
    };
    for i in 0..BLOCKS {
        let block = generate(&mut again, first.wrapping_add(i));
        if !is_next(&mut reader, tally, &block) {
            return Ok(false);
        }
    }
    let asked = tally.bins().saturating_sub(before);
    Ok(asked == bins && reader.answer(Question::End) == Some(true))
}

/// Whether this block is read next.
fn is_next(reader: &mut BinReader<'_>, tally: &mut Tally, block: &Generated) -> bool {
    match read_levels(reader, tally, block.scan, block.log2, block.luma) {
        None => false,
        Some(levels) => levels.as_slice() == block.levels.as_slice(),
    }
}

/// The bytes of a slice of the blocks from this number on, and how many bins they have.
fn written(alloc: Global, random: &mut Random, first: u32) -> Result<(Vec<u8>, u32), NoMemory> {
    let mut encoder = Encoder::new(alloc, SliceKind::I, 26);
    let mut bins = 0u32;
    for i in 0..BLOCKS {
        let block = generate(random, first.wrapping_add(i));
        let levels = &block.levels[..count_in(block.log2) as usize];
        let count = put_levels(&mut encoder, levels, block.scan, block.log2, block.luma);
        bins = bins.saturating_add(count);
    }
    encoder.terminate(true);
    Ok((encoder.finish()?, bins))
}

/// Puts a transform block of side 2^log2 into the encoder, where these are its levels by rows, and
/// they aren't all 0; else nothing. How many bins it has.
pub fn put_levels(encoder: &mut Encoder, levels: &[i16], scan: Scan, log2: u8, luma: bool) -> u32 {
    if !is_block(levels, log2) {
        return 0;
    }
    put_residual(encoder, levels, scan, log2, luma);
    count_residual(levels, scan, log2, luma)
}

/// Whether these are the levels of a block that isn't all 0.
fn is_block(levels: &[i16], log2: u8) -> bool
    ensures { result ≡ true → (2 ≤ log2) × (log2 ≤ 5) ×
        (length levels.now ≡ 2 ^ log2 * 2 ^ log2) × (any_significant levels.now ≡ true) }
{
    let count = match log2 {
        2 => 16,
        3 => 64,
        4 => 256,
        5 => 1024,
        _ => return false,
    };
    levels.len() == count && any_significant(levels)
}
