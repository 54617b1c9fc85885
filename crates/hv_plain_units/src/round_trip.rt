//! Slices of blocks from a seed, put into the arithmetic encoder and read back by the plain reader.

use crate::alternatives::UnitTally;
use crate::coded::CodedBlock;
use crate::generator::generate_picture;
use crate::picture::Slice;
use crate::slice::read_slice;
use crate::source::Source;
use crate::writer::write_slice;
use hv_plain::{BinReader, Random};
use hv_tables::SliceKind;
use hv_types::NoMemory;
use std::alloc::Global;

/// `SliceQpY` of the slices.
const QP: u8 = 26;

/// The most bytes of a slice that is read back.
const MOST_BYTES: usize = 1 << 24;

/// Puts so many slices of blocks from a seed into the arithmetic encoder, and reads each back: a
/// third are I slices, a third P slices of one reference, and a third of two, of pictures of 1 to 6
/// coding tree blocks. None where what is read isn't what was put, or where more than the stop bit
/// and zeros to the byte are left. Else the tally, with what came added to it. `NoMemory` where
/// there is not enough memory. No contract says this; tests and `checks/read_back` rely on it.
pub fn read_slices_back(
    alloc: Global,
    seed: u64,
    slices: u32,
    tally: UnitTally,
) -> Result<Option<UnitTally>, NoMemory> {
    let mut random = Random::new(seed);
    let mut all = tally;
    for number in 0..slices {
        let slice = slice_of(&mut random, number);
        let blocks = generate_picture(alloc, &mut random, slice)?;
        match read_back(alloc, slice, &blocks, all)? {
            None => return Ok(None),
            Some(tally) => all = tally,
        }
    }
    Ok(Some(all))
}

/// The slice of this number: its kind and references by turns, its sides by chance; in half of the
/// cases whole coding tree blocks.
fn slice_of(random: &mut Random, number: u32) -> Slice {
    let (kind, references) = match number % 3 {
        0 => (SliceKind::I, 0),
        1 => (SliceKind::P, 1),
        _ => (SliceKind::P, 2),
    };
    let (width, height) = if random.below(2) == 0 {
        (64 * (1 + random.below(3)), 64 * (1 + random.below(2)))
    } else {
        (8 * (1 + random.below(24)), 8 * (1 + random.below(16)))
    };
    Slice {
        kind,
        references,
        width,
        height,
    }
}

/// The tally of these blocks, where what is read of them is what is put.
fn read_back(
    alloc: Global,
    slice: Slice,
    blocks: &[CodedBlock],
    tally: UnitTally,
) -> Result<Option<UnitTally>, NoMemory> {
    let Some(bytes) = write_slice(alloc, slice, QP, blocks)? else {
        return Ok(None);
    };
    if bytes.len() > MOST_BYTES {
        return Ok(None);
    }
    let Some(reader) = BinReader::new(alloc, &bytes, slice.kind, QP)? else {
        return Ok(None);
    };
    let mut source = Source::new(reader, tally);
    let Some(read) = read_slice(alloc, &mut source, slice)? else {
        return Ok(None);
    };
    if !are_same(blocks, &read) || !is_end(&bytes, source.bits_left()) {
        return Ok(None);
    }
    Ok(Some(source.into_tally()))
}

/// Whether these are the same blocks.
fn are_same(blocks: &[CodedBlock], others: &[CodedBlock]) -> bool {
    if blocks.len() != others.len() {
        return false;
    }
    for i in 0..blocks.len() {
        if !blocks[i].is_same(&others[i]) {
            return false;
        }
    }
    true
}

/// Whether the stop bit and zeros to the byte end the bytes of a slice, of which so many bits are
/// left behind the stop bit (9.3.2.5).
pub fn is_end(bytes: &[u8], left: usize) -> bool {
    if left > 7 {
        return false;
    }
    let last = bytes.last().copied().unwrap_or(0);
    u32::from(last) % (2 << left) == 1 << left
}
