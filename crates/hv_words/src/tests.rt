//! What no clause says: the texts of `clap`, and that words are read where there is memory.

use crate::{WordsError, config_of_words};
use hv_types::{NoMemory, Words};
use std::alloc::Global;
use std::process::Abort;
use std::test::Fail;

/// The words of a line, where a `_` stands for an empty word.
fn words_of(alloc: Global, line: &str) -> Result<Words, NoMemory> {
    let mut words = Words::new(alloc);
    for word in line.split_ascii_whitespace() {
        if words.count() < 100 {
            words.push(if word == "_" { "" } else { word })?;
        }
    }
    Ok(words)
}

/// The text of words that are no command line.
fn text_of<R: Abort>(rt: &R, alloc: Global, line: &str) -> Result<String, Fail> {
    match config_of_words(alloc, &words_of(alloc, line)?) {
        Err(WordsError::Parse { text }) => Ok(text),
        other => panic!(rt; "{line}: {other:?}"),
    }
}

/// Each is refused with a text that begins so, and ends with where help is.
#[test]
#[rattlefmt::skip]
fn lines_that_are_refused(rt: HostRuntime) -> Result<(), Fail> {
    let end = "\nFor more information, try '--help'.\n";
    for (line, start) in [
        ("", "error: the following required arguments were not provided:"),
        ("--width 64", "error: the following required arguments were not provided:"),
        ("--height 64 --qp 30", "error: the following required arguments were not provided:"),
        ("--widht 64 --height 64", "error: unexpected argument '--widht' found"),
        ("--width 64 --height 64 --effrot 0", "error: unexpected argument '--effrot' found"),
        ("--width 64 --height 64 --lev 0", "error: unexpected argument '--lev' found"),
        ("--WIDTH 64 --height 64", "error: unexpected argument '--WIDTH' found"),
        ("--width 64 --height 64 -q 30", "error: unexpected argument '-q' found"),
        ("-width 64 --height 64", "error: unexpected argument '-w' found"),
        ("--width 64 --height 64 --version", "error: unexpected argument '--version' found"),
        (
            "--width 64 --width 64 --height 64",
            "error: the argument '--width <NUMBER>' cannot be used multiple times",
        ),
        (
            "--width 64 --height 64 --qp 1 --qp=1",
            "error: the argument '--qp <NUMBER>' cannot be used multiple times",
        ),
        (
            "--width 64 --height",
            "error: a value is required for '--height <NUMBER>' but none was supplied",
        ),
        (
            "--width --height 64",
            "error: a value is required for '--width <NUMBER>' but none was supplied",
        ),
        (
            "--width= --height 64",
            "error: invalid value '' for '--width <NUMBER>': cannot parse integer from empty",
        ),
        (
            "--width 64 --height 64 --emit",
            "error: a value is required for '--emit <VALUE>' but none was supplied",
        ),
        (
            "--width _ --height 64",
            "error: invalid value '' for '--width <NUMBER>': cannot parse integer from empty",
        ),
        ("--width 64 --height 64 --qp -1", "error: unexpected argument '-1' found"),
        (
            "--width 64 --height 64 --qp=-1",
            "error: invalid value '-1' for '--qp <NUMBER>': -1 is not in 0..=4294967295",
        ),
        (
            "--width 4294967296 --height 64",
            "error: invalid value '4294967296' for '--width <NUMBER>': 4294967296 is not in",
        ),
        (
            "--width 64 --height 64 --synth 99999999999999999999",
            "error: invalid value '99999999999999999999' for '--synth <NUMBER>': number too large",
        ),
        (
            "--width 64x48 --height 64",
            "error: invalid value '64x48' for '--width <NUMBER>': invalid digit found in string",
        ),
        (
            "--width 64 --height 64 --qp 2.5",
            "error: invalid value '2.5' for '--qp <NUMBER>': invalid digit found in string",
        ),
        (
            "--width 64 --height 64 --qp 0x20",
            "error: invalid value '0x20' for '--qp <NUMBER>': invalid digit found in string",
        ),
        (
            "--width 64 --height 64 --emit video",
            "error: invalid value 'video' for '--emit <VALUE>'",
        ),
        ("--width 64 --height 64 --emit _", "error: invalid value '' for '--emit <VALUE>'"),
        ("--width 64 --height 64 film.yuv", "error: unexpected argument 'film.yuv' found"),
        ("64 48", "error: unexpected argument '64' found"),
        ("--width 64 --height 64 -- film.yuv", "error: unexpected argument 'film.yuv' found"),
        ("--width 64 --height 64 -- --", "error: unexpected argument '--' found"),
        ("--width 64 --height 64 -", "error: unexpected argument '-' found"),
        ("--width 64 --height 64 _", "error: unexpected argument '' found"),
    ] {
        let text = text_of(&rt, rt.alloc(), line)?;
        let text = text.as_str();
        assert!(rt; text.starts_with(start) && text.ends_with(end), "{line}: {text}");
    }
    Ok(())
}

/// The text for `--help` has a line for each option, with its range and its default.
#[test]
#[rattlefmt::skip]
fn help_names_every_option(rt: HostRuntime) -> Result<(), Fail> {
    let text = text_of(&rt, rt.alloc(), "--help")?;
    for (option, range, default) in [
        ("--width <NUMBER>", "even, 8 to 4096", ""),
        ("--height <NUMBER>", "even, 8 to 2176", ""),
        ("--qp <NUMBER>", "0 to 51", "[default: 32]"),
        ("--levels <NUMBER>", "0 to 3", "[default: 3]"),
        ("--group <NUMBER>", "1 to 64", "[default: 16]"),
        ("--workers <NUMBER>", "1 to 16", "[default: 1]"),
        ("--effort <NUMBER>", "0 (nothing) to 2 (most)", "[default: 2]"),
        ("--segment <NUMBER>", "1 to 64", "[default: 4]"),
        ("--emit <VALUE>", "stream, or recon", "[default: stream]"),
        ("--synth <NUMBER>", "0 to 4294967295", ""),
        ("--pictures <NUMBER>", "0 to 400000", "[default: 60]"),
    ] {
        let line = text.as_str().lines().find(|line| line.trim_start().starts_with(option));
        let line = line.ok_or("a line for each option")?;
        assert!(rt; line.contains(range) && line.contains(default), "{line}");
    }
    let text = text_of(&rt, rt.alloc(), "--width 64 --height 64 --efort 0")?;
    assert!(rt; text.as_str().contains("a similar argument exists: '--effort'"), "{text}");
    Ok(())
}

/// What `config_of_words` answers, without its text.
#[test]
#[rattlefmt::skip]
fn words_are_read_where_there_is_memory(rt: HostRuntime) -> Result<(), Fail> {
    for (line, answer) in [
        ("--width 64 --height 64", "Ok 64x64 32 3"),
        ("--width 64 --height 64 --effort 1 --group 2", "Ok 64x64 32 3"),
        ("--effort 0 --height 50 --group=1 --width +66", "Ok 66x50 32 3"),
        ("--width 64 --height 64 --effort 0", "Ok 64x64 32 3"),
        ("--width 64 --height 64 --effort 0 --group 64 --levels 2", "Ok 64x64 32 2"),
        ("--width 64 --height 64 --group 1", "Ok 64x64 32 3"),
        ("--width 64 --height 64 --group 1 --emit recon", "Ok 64x64 32 3"),
        ("--width 64 --height 64 --group 1 --synth 7 --pictures 400000", "Ok 64x64 32 3"),
        ("--width 64 --height 64 --group 1 --workers 16", "Ok 64x64 32 3"),
        ("--width 64 --height 64 --group 1 --pictures 400001", "Ok 64x64 32 3"),
        ("--width 65 --height 64", "odd size"),
        ("--width 7 --height 64", "odd size"),
        ("--width 4098 --height 64", "size out of range"),
        ("--width 4096 --height 2176 --group 31", "group too large"),
        ("--width 64 --height 64 --qp 300", "value out of range"),
        ("--width 64 --height 64 --workers 17", "value out of range"),
        ("--width 64 --height 64 --synth 1 --pictures 400001", "value out of range"),
    ] {
        let text = match config_of_words(rt.alloc(), &words_of(rt.alloc(), line)?) {
            Ok(config) => {
                let s = config.settings();
                format!(in rt.alloc(); "Ok {}x{} {} {}", s.width, s.height, s.qp, s.levels)?
            }
            Err(error) => format!(in rt.alloc(); "{error}")?,
        };
        assert_eq!(rt; text.as_str(), answer, "{line}");
    }
    Ok(())
}
