//! The top call over generated video, and what it writes of reconstructed pictures.

use crate::intra_tests::slopes;
use crate::tests::{grey, small, words_of};
use crate::{Status, run_encode};
use hv_synth::Synth;
use hv_types::{Failed, MemorySink, MemorySource, OpenGate, Source, SteadySource, Words};
use hv_words::config_of_words;
use std::alloc::Global;
use std::process::Abort;
use std::sync::Wait;
use std::test::Fail;
use std::thread::Threads;

/// The bytes of generated pictures in these tests, at most.
const MOST_BYTES: u32 = 100_000;

/// What an encoding that ends well wrote and reported, where it has room for so many bytes.
fn output_of<S: Source, R: Abort + Threads + Wait + Sync>(
    rt: &R,
    alloc: Global,
    words: &Words,
    source: &mut S,
    room: u32,
) -> Result<(MemorySink, MemorySink), Fail> {
    let mut out = MemorySink::new(alloc, room, u32::MAX, Vec::new(alloc))?;
    let mut report = small(alloc, 100, &[])?;
    let status = run_encode(rt, alloc, words, source, &mut out, &mut report, &OpenGate);
    assert_eq!(rt; status, Status::Ok);
    Ok((out, report))
}

/// A source of the pictures of the generator that the words of a line name.
fn generated<R: Abort>(rt: &R, alloc: Global, line: &str) -> Result<SteadySource, Fail> {
    let config = config_of_words(alloc, &words_of(alloc, line)?)?;
    let mut raw = vec![in alloc; 0u8; MOST_BYTES as usize]?;
    let Ok(count) = Synth::new(config).read(&mut raw) else {
        panic!(rt; "{line}: the generator fails");
    };
    raw.truncate(count);
    Ok(SteadySource::new(raw))
}

/// Grey pictures of 256x192 in groups of 16, 16 and 1. The source fails at its first call, which
/// the test makes.
#[test]
fn reconstructed_pictures_of_a_generator(rt: HostRuntime) -> Result<(), Fail> {
    let line = "--width 256 --height 192 --synth 7 --pictures 33 --emit recon --effort 0";
    let words = words_of(rt.alloc(), line)?;
    let mut source = grey(rt.alloc(), 1, 1, &[0])?;
    let (out, report) = output_of(&rt, rt.alloc(), &words, &mut source, 2_433_024)?;
    assert_eq!(rt; out.written().len(), 2_433_024);
    assert!(rt; out.written().iter().all(|sample| *sample == 128));
    let line = b"encoded 33 pictures in 3 groups, 2433024 bytes\n";
    assert_eq!(rt; report.written(), line.as_slice());
    assert_eq!(rt; source.read(&mut [0; 1]), Err(Failed));
    Ok(())
}

/// With a generator the output is that of its pictures from a source, with any number of workers.
#[test]
#[rattlefmt::skip]
fn generated_pictures_are_those_of_a_source(rt: HostRuntime) -> Result<(), Fail> {
    for (settings, generator) in [
        ("--width 64 --height 64 --effort 0 --group 4", "--synth 7 --pictures 9"),
        ("--width 66 --height 50 --effort 1 --group 1", "--synth 4 --pictures 3"),
        ("--width 66 --height 50 --group 1 --workers 16", "--synth 4294967295 --pictures 2"),
        ("--width 16 --height 8 --effort 2 --group 1 --emit recon", "--synth 0 --pictures 7"),
        ("--width 8 --height 8 --effort 1 --group 1 --segment 64", "--synth 3 --pictures 0"),
        ("--width 8 --height 8 --effort 1 --group 1 --workers 2", "--synth 3"),
    ] {
        let line = format!(in rt.alloc(); "{settings} {generator}")?;
        let mut source = generated(&rt, rt.alloc(), &line)?;
        let named = words_of(rt.alloc(), &line)?;
        let mut none = grey(rt.alloc(), 0, 1, &[])?;
        let (out, report) = output_of(&rt, rt.alloc(), &named, &mut none, MOST_BYTES)?;
        let words = words_of(rt.alloc(), settings)?;
        let (of_source, told) = output_of(&rt, rt.alloc(), &words, &mut source, MOST_BYTES)?;
        assert_eq!(rt; out.written(), of_source.written(), "{line}");
        assert_eq!(rt; report.written(), told.written(), "{line}");
    }
    Ok(())
}

/// Of five slopes of 8x8, at quantiser 37 and effort 1: the first row of luma, and the sample that
/// all of Cb and all of Cr have, as `ffmpeg` decodes them.
const SHOWN: [([u8; 8], u8, u8); 5] = [
    ([5, 7, 9, 12, 15, 18, 20, 21], 48, 88),
    ([5, 7, 9, 12, 15, 18, 20, 21], 56, 96),
    ([11, 12, 15, 17, 21, 23, 26, 27], 56, 96),
    ([17, 18, 20, 23, 26, 29, 31, 32], 64, 104),
    ([22, 24, 26, 29, 32, 35, 37, 38], 72, 112),
];

#[test]
fn reconstructed_pictures_whose_units_are_chosen(rt: HostRuntime) -> Result<(), Fail> {
    let line = "--width 8 --height 8 --qp 37 --group 1 --effort 1 --emit recon";
    let words = words_of(rt.alloc(), line)?;
    let mut source = MemorySource::new(slopes(rt.alloc())?, 9000, Vec::new(rt.alloc()));
    let (out, report) = output_of(&rt, rt.alloc(), &words, &mut source, 480)?;
    let line = b"encoded 5 pictures in 5 groups, 480 bytes\n";
    assert_eq!(rt; report.written(), line.as_slice());
    for (picture, (row, cb, cr)) in out.written().chunks(96).zip(SHOWN) {
        assert_eq!(rt; picture.get(..8), Some(row.as_slice()));
        assert!(rt; picture.iter().skip(64).take(16).all(|sample| *sample == cb));
        assert!(rt; picture.iter().skip(80).all(|sample| *sample == cr));
    }
    Ok(())
}
