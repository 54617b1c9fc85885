//! What no clause says: that an encoding ends well where there is memory, and the bytes of a known
//! stream, which come from outside.

use crate::{Status, run_encode};
use hv_types::{
    Failed, MemorySink, MemorySource, NoMemory, OpenGate, Sink, Source, SteadySink, SteadySource,
    Words,
};
use std::alloc::Global;
use std::process::Abort;
use std::sync::Wait;
use std::test::Fail;
use std::thread::Threads;

const COMMAND: &str = "--width 64 --height 64 --qp 26 --levels 0 --group 1 --effort 0";

/// The stream of two pictures of 64x64 at quantiser 26, whatever their samples.
#[rattlefmt::skip]
const STREAM: [u8; 92] = [
    // the video parameter set
    0, 0, 0, 1, 0x40, 0x01, 0x0C, 0x01, 0xFF, 0xFF, 0x01, 0x60, 0, 0, 3, 0, 0x90, 0, 0, 3, 0, 0, 3,
    0, 0x99, 0xAC, 0x09,
    // the sequence parameter set
    0, 0, 0, 1, 0x42, 0x01, 0x01, 0x01, 0x60, 0, 0, 3, 0, 0x90, 0, 0, 3, 0, 0, 3, 0, 0x99, 0xA0,
    0x20, 0x81, 0x05, 0x96, 0xB9, 0x24, 0xCA, 0x08,
    // the picture parameter set
    0, 0, 0, 1, 0x44, 0x01, 0xC0, 0x71, 0x80, 0x12,
    // the slices
    0, 0, 0, 1, 0x28, 0x01, 0xAF, 0xC0, 0xE8, 0x73, 0x7F, 0x80,
    0, 0, 0, 1, 0x28, 0x01, 0xAF, 0xC0, 0xE8, 0x73, 0x7F, 0x80,
];

/// The words of a line.
pub(crate) fn words_of(alloc: Global, line: &str) -> Result<Words, NoMemory> {
    let mut words = Words::new(alloc);
    for word in line.split_ascii_whitespace() {
        if words.count() < 100 {
            words.push(word)?;
        }
    }
    Ok(words)
}

/// A source of so many bytes of 85, which gives at most `at_most` a call, and one where that is 0.
pub(crate) fn grey(
    alloc: Global,
    bytes: usize,
    at_most: u32,
    failing: &[u64],
) -> Result<MemorySource, NoMemory> {
    Ok(MemorySource::new(
        vec![in alloc; 85; bytes]?,
        at_most.max(1),
        failing.to_vec(alloc)?,
    ))
}

/// A sink with room for 100 bytes, which takes at most `at_most` a call, and one where that is 0.
pub(crate) fn small(alloc: Global, at_most: u32, failing: &[u64]) -> Result<MemorySink, NoMemory> {
    MemorySink::new(alloc, 100, at_most.max(1), failing.to_vec(alloc)?)
}

/// The number of a call that isn't reached.
pub(crate) const NEVER: u64 = u64::MAX;

/// What an encoding is tried with: how many bytes the source has and gives a call, how many a sink
/// and the report take a call, and the number of the call of each that fails.
#[derive(Clone, Copy)]
struct Trial {
    bytes: usize,
    given: u32,
    taken: u32,
    told: u32,
    failing_read: u64,
    failing_write: u64,
    failing_line: u64,
}

/// A trial of so many bytes of input, in which no call fails and each moves all that there is.
fn trial_of(bytes: usize) -> Trial {
    Trial {
        bytes,
        given: 9000,
        taken: 100,
        told: 100,
        failing_read: NEVER,
        failing_write: NEVER,
        failing_line: NEVER,
    }
}

/// Encodes, and sees how that ends, how much of the stream is then written, and what is reported.
fn see<R: Abort + Threads + Wait + Sync>(
    rt: &R,
    alloc: Global,
    trial: Trial,
    want: (Status, usize),
    line: &str,
) -> Result<(), Fail> {
    let words = words_of(alloc, COMMAND)?;
    let mut source = grey(alloc, trial.bytes, trial.given, &[trial.failing_read])?;
    let mut out = small(alloc, trial.taken, &[trial.failing_write])?;
    let mut report = small(alloc, trial.told, &[trial.failing_line])?;
    let status = run_encode(
        rt,
        alloc,
        &words,
        &mut source,
        &mut out,
        &mut report,
        &OpenGate,
    );
    assert_eq!(rt; status, want.0, "{line}");
    assert_eq!(rt; Some(out.written()), STREAM.get(..want.1), "{line}");
    assert_eq!(rt; report.written(), line.as_bytes());
    Ok(())
}

/// Nothing, less than a picture, one, one and a byte, and two, by few or many bytes a call.
#[test]
#[rattlefmt::skip]
fn inputs_of_all_lengths(rt: HostRuntime) -> Result<(), Fail> {
    for (bytes, status, written, line) in [
        (0, Status::Ok, 0, "encoded 0 pictures in 0 groups, 0 bytes\n"),
        (1, Status::ShortPicture { have: 1 }, 0, "short picture: 1 of 6144 bytes\n"),
        (6143, Status::ShortPicture { have: 6143 }, 0, "short picture: 6143 of 6144 bytes\n"),
        (6144, Status::Ok, 80, "encoded 1 pictures in 1 groups, 80 bytes\n"),
        (6145, Status::ShortPicture { have: 1 }, 80, "short picture: 1 of 6144 bytes\n"),
        (12288, Status::Ok, 92, "encoded 2 pictures in 2 groups, 92 bytes\n"),
    ] {
        for (given, taken) in [(1, 1), (7, 3), (9000, 100)] {
            let mut trial = trial_of(bytes);
            trial.given = given;
            trial.taken = taken;
            trial.told = taken;
            see(&rt, rt.alloc(), trial, (status, written), line)?;
        }
    }
    Ok(())
}

/// The number is that of the call that fails: two reads a picture and one behind them, and four
/// writes of the first picture, one of the second, and the end.
#[test]
#[rattlefmt::skip]
fn calls_that_fail(rt: HostRuntime) -> Result<(), Fail> {
    for (read, write, status, written, line) in [
        (0, 9, Status::ReadFault, 0, "read fault\n"),
        (1, 9, Status::ReadFault, 0, "read fault\n"),
        (2, 9, Status::ReadFault, 80, "read fault\n"),
        (4, 9, Status::ReadFault, 92, "read fault\n"),
        (9, 0, Status::WriteFault, 0, "write fault\n"),
        (9, 1, Status::WriteFault, 20, "write fault\n"),
        (9, 4, Status::WriteFault, 80, "write fault\n"),
        (9, 5, Status::WriteFault, 92, "write fault\n"),
        (9, 9, Status::Ok, 92, "encoded 2 pictures in 2 groups, 92 bytes\n"),
    ] {
        let mut trial = trial_of(12288);
        trial.given = 3072;
        trial.taken = 20;
        trial.failing_read = read;
        trial.failing_write = write;
        see(&rt, rt.alloc(), trial, (status, written), line)?;
    }
    Ok(())
}

/// A report that fails changes no status but `Ok`, and the output is whole then. A report that
/// takes all that there is has the line in one write: the second one would fail.
#[test]
#[rattlefmt::skip]
fn reports_that_fail(rt: HostRuntime) -> Result<(), Fail> {
    for (bytes, told, fails_at, status, line) in [
        (6144, 5, 0, Status::ReportFault, ""),
        (6144, 5, 1, Status::ReportFault, "encod"),
        (6144, 5, 2, Status::ReportFault, "encoded 1 "),
        (6144, 100, 1, Status::Ok, "encoded 1 pictures in 1 groups, 80 bytes\n"),
        (6145, 5, 0, Status::ShortPicture { have: 1 }, ""),
        (6145, 100, 1, Status::ShortPicture { have: 1 }, "short picture: 1 of 6144 bytes\n"),
    ] {
        let mut trial = trial_of(bytes);
        trial.told = told;
        trial.failing_line = fails_at;
        see(&rt, rt.alloc(), trial, (status, 80), line)?;
    }
    Ok(())
}

/// Source and sink fail at their first call, which the test makes itself.
#[test]
#[rattlefmt::skip]
fn words_that_are_refused(rt: HostRuntime) -> Result<(), Fail> {
    for (line, report) in [
        ("", "error: the following required arguments were not provided:\n"),
        ("--help", "Encodes raw video"),
        ("--width 64 --height 64 --speed 0", "error: unexpected argument '--speed' found\n"),
        ("--width 64 --height 64 --emit video", "error: invalid value 'video' for '--emit <"),
        ("--workers 17 --width 64 --height 64", "value out of range\n"),
        ("--width 65 --height 64 --qp 26 --levels 0 --group 1 --effort 0", "odd size\n"),
        ("--width 64 --height 2178 --qp 26 --levels 0 --group 1 --effort 0", "size out of range\n"),
        ("--width 4096 --height 2176 --qp 9 --levels 0 --group 31 --effort 0", "group too large\n"),
        ("--width 64 --height 64 --qp 52 --levels 0 --group 1 --effort 0", "value out of range\n"),
    ] {
        refuses(&rt, rt.alloc(), line, report)?;
    }
    Ok(())
}

/// Sees that the words of a line are refused, and nothing is read or written.
fn refuses<R: Abort + Threads + Wait + Sync>(
    rt: &R,
    alloc: Global,
    line: &str,
    want: &str,
) -> Result<(), Fail> {
    let words = words_of(alloc, line)?;
    let mut source = grey(alloc, 6144, 9000, &[0])?;
    let mut out = small(alloc, 80, &[0])?;
    let mut report = MemorySink::new(alloc, 4000, 4000, Vec::new(alloc))?;
    let status = run_encode(
        rt,
        alloc,
        &words,
        &mut source,
        &mut out,
        &mut report,
        &OpenGate,
    );
    assert_eq!(rt; status, Status::Words, "{line}");
    assert!(rt; report.written().starts_with(want.as_bytes()), "{line}");
    assert_eq!(rt; source.read(&mut [0; 1]), Err(Failed), "{line}");
    assert_eq!(rt; out.write(&[0]), Err(Failed), "{line}");
    assert_eq!(rt; out.written(), [].as_slice(), "{line}");
    Ok(())
}

/// A byte behind 400,000 pictures of 8x8, each of 96 bytes, of which the last 6 begin a group of 7.
#[test]
fn a_video_that_is_too_long(rt: HostRuntime) -> Result<(), Fail> {
    let line = "--width 8 --height 8 --qp 26 --levels 3 --group 7 --effort 0";
    let words = words_of(rt.alloc(), line)?;
    let mut source = SteadySource::new(vec![in rt.alloc(); 85; 96 * 400_000 + 1]?);
    let mut report = small(rt.alloc(), 80, &[])?;
    let status = run_encode(
        &rt,
        rt.alloc(),
        &words,
        &mut source,
        &mut SteadySink::new(),
        &mut report,
        &OpenGate,
    );
    assert_eq!(rt; status, Status::TooLong);
    assert_eq!(rt; report.written(), b"more than 400000 pictures\n".as_slice());
    assert_eq!(rt; source.read(&mut [0; 1]), Ok(0));
    Ok(())
}

/// Encodes a picture, if there is memory for the words, the source and the sinks.
fn encode_picture<R: Abort + Threads + Wait + Sync>(rt: &R, alloc: Global) -> Result<(), NoMemory> {
    let words = words_of(alloc, COMMAND)?;
    let mut source = grey(alloc, 6144, 9000, &[])?;
    let mut out = small(alloc, 80, &[])?;
    let mut report = small(alloc, 80, &[])?;
    match run_encode(
        rt,
        alloc,
        &words,
        &mut source,
        &mut out,
        &mut report,
        &OpenGate,
    ) {
        Status::Ok => assert_eq!(rt; Some(out.written()), STREAM.get(..80)),
        status => {
            assert_eq!(rt; status, Status::NoMemory);
            let written = out.written();
            assert!(rt; written.is_empty() || Some(written) == STREAM.get(..80));
            assert_eq!(rt; report.written(), b"no memory\n".as_slice());
        }
    }
    Ok(())
}

/// Whichever allocation is refused, the stream is whole or nothing is written: memory may be short
/// before the group is written, and behind it.
#[test]
fn answers_want_of_memory(rt: HostRuntime) {
    let _ = encode_picture(&rt, rt.alloc());
}

/// The codes of a program, which a script looks at.
#[test]
#[rattlefmt::skip]
fn codes_of_statuses(rt: HostRuntime) {
    for (status, code) in [
        (Status::Ok, 0),
        (Status::Words, 2),
        (Status::ReadFault, 3),
        (Status::ShortPicture { have: 1 }, 4),
        (Status::WriteFault, 5),
        (Status::NoMemory, 6),
        (Status::TooLong, 7),
        (Status::ReportFault, 8),
    ] {
        assert_eq!(rt; status.code(), code);
    }
}
