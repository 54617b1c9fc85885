//! Slices of blocks from a seed, and those of standard input: a line for each, with `I` or `P`, the
//! number of references, the quantiser, the sides of the picture in luma samples, and the data in
//! hexadecimal.

use anyhow::bail;
use hv_plain::BinReader;
use hv_plain_units::{Slice, Source, UnitTally, is_end, read_slice, read_slices_back};
use hv_tables::SliceKind;
use std::alloc::Global;
use std::io::{Input, Print};

/// The most bytes of a slice.
const MOST_BYTES: usize = 1 << 24;

/// Puts slices of blocks from a seed into the encoder, reads them back, and prints how many bins
/// were asked for, and, where that is wanted, how often each alternative of the syntax came.
pub fn read_units_back(
    rt: &impl Print,
    alloc: Global,
    seed: u64,
    slices: u32,
    with_counts: bool,
) -> anyhow::Result<()> {
    let Ok(read) = read_slices_back(alloc, seed, slices, UnitTally::new()) else {
        bail!("not enough memory");
    };
    let Some(tally) = read else {
        bail!("a slice isn't read back");
    };
    println!(rt; "{slices} slices are read back, of {} bins", tally.bins())?;
    if with_counts {
        tally.print(rt)?;
    }
    Ok(())
}

/// Reads each slice to its end, and prints how many there are, how many bins were asked for, and
/// how often each alternative of the syntax came.
pub fn read_slices<R: Input + Print>(rt: &R, alloc: Global) -> anyhow::Result<()> {
    let mut tally = UnitTally::new();
    let mut count = 0u64;
    for line in rt.lines(alloc) {
        let line = line?;
        tally = read_line(alloc, &line, tally)?;
        count = count.saturating_add(1);
    }
    println!(rt; "{count} slices are read, of {} bins", tally.bins())?;
    tally.print(rt)?;
    Ok(())
}

/// Reads the slice of a line to its end.
fn read_line(alloc: Global, line: &str, tally: UnitTally) -> anyhow::Result<UnitTally> {
    let mut words = line.split_whitespace();
    let kind = match words.next() {
        Some("I") => SliceKind::I,
        Some("P") => SliceKind::P,
        _ => bail!("neither I nor P: {line}"),
    };
    let references = number(words.next())?;
    let qp = number(words.next())?;
    let slice = Slice {
        kind,
        references: u8::try_from(references)?,
        width: number(words.next())?,
        height: number(words.next())?,
    };
    let bytes = bytes_of(alloc, words.next().unwrap_or(""))?;
    read_bytes(alloc, &bytes, slice, u8::try_from(qp)?, tally)
}

/// The number that a word is.
fn number(word: Option<&str>) -> anyhow::Result<u32> {
    match word {
        Some(word) => Ok(word.parse::<u32>()?),
        None => bail!("a number is missing"),
    }
}

/// The bytes of two hexadecimal digits each.
fn bytes_of(alloc: Global, digits: &str) -> anyhow::Result<Vec<u8>> {
    let mut bytes = Vec::new(alloc);
    let mut high = None;
    for digit in digits.chars() {
        let Some(value) = digit.to_digit(16) else {
            bail!("no hexadecimal digit: {digit}");
        };
        match high {
            None => high = Some(value),
            Some(before) => {
                bytes.push(((16 * (before % 16) + value) % 256) as u8)?;
                high = None;
            }
        }
    }
    Ok(bytes)
}

/// Reads a slice of these bytes to its end.
fn read_bytes(
    alloc: Global,
    bytes: &[u8],
    slice: Slice,
    qp: u8,
    tally: UnitTally,
) -> anyhow::Result<UnitTally> {
    if bytes.len() > MOST_BYTES {
        bail!("the slice is too long");
    }
    let Some(reader) = BinReader::new(alloc, bytes, slice.kind, qp)? else {
        bail!("the slice doesn't begin");
    };
    let mut source = Source::new(reader, tally);
    let Ok(read) = read_slice(alloc, &mut source, slice) else {
        bail!("not enough memory");
    };
    if read.is_none() {
        bail!("a slice isn't read");
    }
    if !is_end(bytes, source.bits_left()) {
        bail!("a slice doesn't end behind its last block");
    }
    Ok(source.into_tally())
}
