//! The top call over groups of pictures: another encoder's stream, and each call failing in turn.

use crate::tests::{NEVER, grey, small, words_of};
use crate::{Status, run_encode};
use hv_types::{MemorySink, MemorySource, NoMemory, OpenGate};
use std::alloc::Global;
use std::process::Abort;
use std::sync::Wait;
use std::test::Fail;
use std::thread::Threads;

const COMMAND: &str = "--width 66 --height 50 --qp 32 --levels 0 --group 4 --effort 0";

/// The stream of nine pictures of 66x50 at quantiser 32 and no levels, in groups of 4, 4 and 1,
/// whatever their samples.
#[rattlefmt::skip]
const STREAM: [u8; 312] = [
    // the parameter sets
    0x00, 0x00, 0x00, 0x01, 0x40, 0x01, 0x0C, 0x01, 0xFF, 0xFF, 0x01, 0x60, 0x00, 0x00, 0x03,
    0x00, 0x90, 0x00, 0x00, 0x03, 0x00, 0x00, 0x03, 0x00, 0x99, 0xAC, 0x09,
    0x00, 0x00, 0x00, 0x01, 0x42, 0x01, 0x01, 0x01, 0x60, 0x00, 0x00, 0x03, 0x00, 0x90, 0x00,
    0x00, 0x03, 0x00, 0x00, 0x03, 0x00, 0x99, 0xA0, 0x24, 0x83, 0x9C, 0x92, 0x65, 0xAE, 0x49,
    0x32, 0x82,
    0x00, 0x00, 0x00, 0x01, 0x44, 0x01, 0xC0, 0x71, 0x80, 0x12,
    // a group of four
    0x00, 0x00, 0x00, 0x01, 0x28, 0x01, 0xAF, 0x19, 0xF1, 0x19, 0x92, 0x5E, 0x09, 0x15, 0x79,
    0x8B, 0x07, 0x5B, 0x75, 0x58, 0x16, 0x29, 0x40,
    0x00, 0x00, 0x00, 0x01, 0x02, 0x01, 0xD0, 0x09, 0x7F, 0x28, 0xE8, 0xF5, 0x50, 0x2C, 0x6C,
    0x82, 0xAD, 0x23, 0x75, 0xDB, 0xDF, 0xC7, 0x21, 0x86, 0xFF, 0xEC, 0x7F, 0x08, 0x0A,
    0x00, 0x00, 0x00, 0x01, 0x02, 0x01, 0xD0, 0x11, 0x7F, 0x28, 0xE8, 0xF5, 0x50, 0x2C, 0x6C,
    0x82, 0xAD, 0x23, 0x75, 0xDB, 0xDF, 0xC7, 0x21, 0x86, 0xFF, 0xEC, 0x7F, 0x08, 0x0A,
    0x00, 0x00, 0x00, 0x01, 0x02, 0x01, 0xD0, 0x19, 0x7F, 0x28, 0xE8, 0xF5, 0x50, 0x2C, 0x6C,
    0x82, 0xAD, 0x23, 0x75, 0xDB, 0xDF, 0xC7, 0x21, 0x86, 0xFF, 0xEC, 0x7F, 0x08, 0x0A,
    // a group of four
    0x00, 0x00, 0x00, 0x01, 0x28, 0x01, 0xAF, 0x19, 0xF1, 0x19, 0x92, 0x5E, 0x09, 0x15, 0x79,
    0x8B, 0x07, 0x5B, 0x75, 0x58, 0x16, 0x29, 0x40,
    0x00, 0x00, 0x00, 0x01, 0x02, 0x01, 0xD0, 0x09, 0x7F, 0x28, 0xE8, 0xF5, 0x50, 0x2C, 0x6C,
    0x82, 0xAD, 0x23, 0x75, 0xDB, 0xDF, 0xC7, 0x21, 0x86, 0xFF, 0xEC, 0x7F, 0x08, 0x0A,
    0x00, 0x00, 0x00, 0x01, 0x02, 0x01, 0xD0, 0x11, 0x7F, 0x28, 0xE8, 0xF5, 0x50, 0x2C, 0x6C,
    0x82, 0xAD, 0x23, 0x75, 0xDB, 0xDF, 0xC7, 0x21, 0x86, 0xFF, 0xEC, 0x7F, 0x08, 0x0A,
    0x00, 0x00, 0x00, 0x01, 0x02, 0x01, 0xD0, 0x19, 0x7F, 0x28, 0xE8, 0xF5, 0x50, 0x2C, 0x6C,
    0x82, 0xAD, 0x23, 0x75, 0xDB, 0xDF, 0xC7, 0x21, 0x86, 0xFF, 0xEC, 0x7F, 0x08, 0x0A,
    // a group of one
    0x00, 0x00, 0x00, 0x01, 0x28, 0x01, 0xAF, 0x19, 0xF1, 0x19, 0x92, 0x5E, 0x09, 0x15, 0x79,
    0x8B, 0x07, 0x5B, 0x75, 0x58, 0x16, 0x29, 0x40,
];

/// Encodes, and sees how that ends and how much of the stream is then written.
fn see<R: Abort + Threads + Wait + Sync>(
    rt: &R,
    alloc: Global,
    command: &str,
    mut source: MemorySource,
    failing_write: u64,
    want: (Status, usize),
) -> Result<(), Fail> {
    let words = words_of(alloc, command)?;
    let mut out = MemorySink::new(alloc, 400, 60, vec![in alloc; failing_write; 1]?)?;
    let mut report = small(alloc, 100, &[])?;
    let status = run_encode(
        rt,
        alloc,
        &words,
        &mut source,
        &mut out,
        &mut report,
        &OpenGate,
    );
    assert_eq!(rt; status, want.0);
    assert_eq!(rt; Some(out.written()), STREAM.get(..want.1));
    Ok(())
}

/// Two reads a picture and one behind the last: what is written is that of the whole groups before.
#[test]
fn reads_that_fail(rt: HostRuntime) -> Result<(), Fail> {
    for read in 0..19 {
        let written = match read {
            0..=7 => 0,
            8..=15 => 179,
            _ => 289,
        };
        let source = grey(rt.alloc(), 9 * 4950, 2475, &[read])?;
        see(
            &rt,
            rt.alloc(),
            COMMAND,
            source,
            NEVER,
            (Status::ReadFault, written),
        )?;
    }
    Ok(())
}

/// Three writes of the first group, two of the second, one of the third, and the end.
#[test]
#[rattlefmt::skip]
fn writes_that_fail(rt: HostRuntime) -> Result<(), Fail> {
    for (write, status, written) in [
        (0, Status::WriteFault, 0),
        (1, Status::WriteFault, 60),
        (2, Status::WriteFault, 120),
        (3, Status::WriteFault, 179),
        (4, Status::WriteFault, 239),
        (5, Status::WriteFault, 289),
        (6, Status::WriteFault, 312),
        (7, Status::Ok, 312),
    ] {
        let source = grey(rt.alloc(), 9 * 4950, 2475, &[NEVER])?;
        see(&rt, rt.alloc(), COMMAND, source, write, (status, written))?;
    }
    Ok(())
}

/// A picture that is cut, in each group: nothing of its own group is written.
#[test]
#[rattlefmt::skip]
fn groups_that_are_cut(rt: HostRuntime) -> Result<(), Fail> {
    let sixteen = "--width 64 --height 64 --group 16 --effort 0";
    for (command, bytes, written) in [
        (sixteen, 6144 + 1, 0),
        (COMMAND, 3 * 4950 + 1, 0),
        (COMMAND, 4 * 4950 + 1, 179),
        (COMMAND, 7 * 4950 + 1, 179),
        (COMMAND, 8 * 4950 + 1, 289),
    ] {
        let source = grey(rt.alloc(), bytes, 9000, &[NEVER])?;
        let status = Status::ShortPicture { have: 1 };
        see(&rt, rt.alloc(), command, source, NEVER, (status, written))?;
    }
    Ok(())
}

/// slice_pic_order_cnt_lsb of each P slice of a stream (7.3.6.1), which is of type 1.
fn counts_of(alloc: Global, stream: &[u8]) -> Result<Vec<u8>, NoMemory> {
    let mut counts = Vec::new(alloc);
    for at in 6..stream.len().saturating_sub(1) {
        if stream[at - 6..at].starts_with([0, 0, 0, 1, 2, 1].as_slice()) {
            counts.push(stream[at] % 8 * 32 + stream[at + 1] / 8)?;
        }
    }
    Ok(counts)
}

/// Ten pictures at three levels: behind the first one, the anchors 8 and 9, and the halves before
/// 8.
#[test]
fn units_in_coding_order(rt: HostRuntime) -> Result<(), Fail> {
    let words = words_of(rt.alloc(), "--width 8 --height 8 --group 16 --effort 0")?;
    let mut source = grey(rt.alloc(), 960, 960, &[NEVER])?;
    let mut out = MemorySink::new(rt.alloc(), 400, 400, Vec::new(rt.alloc()))?;
    let mut report = small(rt.alloc(), 100, &[])?;
    let status = run_encode(
        &rt,
        rt.alloc(),
        &words,
        &mut source,
        &mut out,
        &mut report,
        &OpenGate,
    );
    assert_eq!(rt; status, Status::Ok);
    let counts = counts_of(rt.alloc(), out.written())?;
    assert_eq!(rt; counts.as_slice(), [8, 4, 2, 1, 3, 6, 5, 7, 9].as_slice());
    Ok(())
}
