//! Blocks of a seeded generator, written as bins into the encoder, are read back by the plain
//! reader, and each alternative of the syntax comes often enough.

use crate::{BLOCKS, BinReader, Question, Tally, read_back, read_levels};
use hv_cabac::Encoder;
use hv_plan::Scan;
use hv_tables::{BinSink, Ctx, CtxTable, SliceKind};
use std::alloc::Global;
use std::io::Print;
use std::process::Abort;
use std::test::Fail;

/// How many slices: each kind of block comes in every eight.
const SLICES: u32 = 128;

#[test]
fn blocks_are_read_back(rt: HostRuntime) -> Result<(), Fail> {
    let mut tally = Tally::new();
    let same = read_back(rt.alloc(), 0x9E37_79B9_7F4A_7C15, SLICES, &mut tally)?;
    assert!(rt; same);
    println!(rt; "{} blocks, {} bins", SLICES * BLOCKS, tally.bins())?;
    tally.print(&rt)?;
    let least = tally.least();
    assert!(rt; least >= 20, "{least}");
    Ok(())
}

/// The first level of a 4x4 block of luma whose other levels are 0, as it is read: behind its sign
/// come four ones, so many further ones, a 0, and the suffix in one bin more.
fn read_alone(
    rt: &impl Abort,
    alloc: Global,
    ones: u32,
    suffix: u32,
    is_negative: bool,
) -> Result<Option<i16>, Fail> {
    let mut encoder = Encoder::new(alloc, SliceKind::I, 26);
    for (table, index, value) in [
        (CtxTable::LastX, 0, false),
        (CtxTable::LastY, 0, false),
        (CtxTable::Greater1, 1, true),
        (CtxTable::Greater2, 0, true),
    ] {
        encoder.bin(Ctx { table, index }, value);
    }
    encoder.bypass(is_negative);
    for _ in 0..4 {
        encoder.bypass(true);
    }
    for _ in 0..ones {
        encoder.bypass(true);
    }
    encoder.bypass(false);
    for place in 0..16u32 {
        if place <= ones.min(15) {
            encoder.bypass((suffix >> (ones.min(15) - place)) & 1 == 1);
        }
    }
    encoder.terminate(true);
    let bytes = encoder.finish()?;
    assert!(rt; bytes.len() < 100);
    let mut reader = BinReader::new(alloc, &bytes, SliceKind::I, 26)?.ok_or("begins")?;
    let read = read_levels(&mut reader, &mut Tally::new(), Scan::Diagonal, 2, true);
    Ok(read.map(|levels| levels[0]))
}

/// The ends of 16 bits: 3 is the base, 4 is below the escape, and thirteen ones are
/// 2 + 4 + .. + 2^13 = 16382. One more, or fourteen ones, is no level.
#[test]
fn levels_end_at_16_bits(rt: HostRuntime) -> Result<(), Fail> {
    for (ones, suffix, is_negative, level) in [
        (0, 0, false, Some(7)),
        (0, 1, true, Some(-8)),
        (13, 16378, false, Some(32767)),
        (13, 16379, true, Some(-32768)),
        (13, 16379, false, None),
        (13, 16380, true, None),
        (14, 0, true, None),
    ] {
        let read = read_alone(&rt, rt.alloc(), ones, suffix, is_negative)?;
        assert_eq!(rt; read, level);
    }
    Ok(())
}

/// No side but 4 to 32 is read, for which no bin is asked, and nothing once the slice has ended.
#[test]
fn nothing_is_read(rt: HostRuntime) -> Result<(), Fail> {
    let mut encoder = Encoder::new(rt.alloc(), SliceKind::I, 26);
    encoder.terminate(true);
    let bytes = encoder.finish()?;
    assert!(rt; bytes.len() < 100);
    let mut reader = BinReader::new(rt.alloc(), &bytes, SliceKind::I, 26)?.ok_or("begins")?;
    let mut tally = Tally::new();
    assert!(rt; read_levels(&mut reader, &mut tally, Scan::Vertical, 1, true).is_none());
    assert!(rt; read_levels(&mut reader, &mut tally, Scan::Vertical, 6, true).is_none());
    assert_eq!(rt; tally.bins(), 0);
    assert_eq!(rt; reader.answer(Question::End), Some(true));
    assert!(rt; read_levels(&mut reader, &mut tally, Scan::Vertical, 2, true).is_none());
    assert_eq!(rt; tally.bins(), 1);
    Ok(())
}
