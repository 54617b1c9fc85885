//! What no clause says: which code a run ends with, and that the words are kept where there is
//! memory.

use crate::arguments::words_behind_name;
use crate::exit::encode_to_exit;
use hv_types::{MemorySink, MemorySource, NoMemory, Words};
use std::alloc::Global;
use std::process::Abort;
use std::sync::Wait;
use std::test::Fail;
use std::thread::Threads;

const COMMAND: &str = "hv_encode --width 64 --height 64 --qp 26 --levels 0 --group 1 --effort 0";

/// The words of a command, whose first one is the program's name.
fn words_of(alloc: Global, command: &str) -> Result<Option<Words>, NoMemory> {
    let mut arguments = Vec::new(alloc);
    for word in command.split_ascii_whitespace() {
        arguments.push(String::from_str(alloc, word)?)?;
    }
    Ok(words_behind_name(alloc, arguments.into_iter()))
}

/// The code of a command on so many bytes of input, where the read, the write and the line of these
/// numbers fail. The end of the output counts as a write.
fn code_of<R: Abort + Threads + Wait + Sync>(
    rt: &R,
    alloc: Global,
    command: &str,
    bytes: usize,
    failing: [u64; 3],
) -> Result<u8, Fail> {
    let words = words_of(alloc, command)?.expect(rt, "memory for the words");
    let raw = vec![in alloc; 85; bytes]?;
    let mut source = MemorySource::new(raw, 9000, [failing[0]].to_vec(alloc)?);
    let mut out = MemorySink::new(alloc, 100, 100, [failing[1]].to_vec(alloc)?)?;
    let mut report = MemorySink::new(alloc, 100, 100, [failing[2]].to_vec(alloc)?)?;
    Ok(encode_to_exit(rt, alloc, &words, &mut source, &mut out, &mut report))
}

#[test]
#[rattlefmt::skip]
fn codes_of_runs(rt: HostRuntime) -> Result<(), Fail> {
    for (command, bytes, failing, code) in [
        (COMMAND, 6144, [9, 9, 9], 0),
        ("hv_encode --width 64", 6144, [9, 9, 9], 2),
        (COMMAND, 6144, [0, 9, 9], 3),
        (COMMAND, 6145, [9, 9, 9], 4),
        (COMMAND, 6144, [9, 0, 9], 5),
        (COMMAND, 6144, [9, 1, 9], 5),
        (COMMAND, 0, [9, 0, 9], 5),
        (COMMAND, 6144, [9, 9, 0], 8),
    ] {
        assert_eq!(rt; code_of(&rt, rt.alloc(), command, bytes, failing)?, code);
    }
    Ok(())
}

#[test]
fn words_stand_behind_the_name(rt: HostRuntime) -> Result<(), Fail> {
    let words = words_of(rt.alloc(), "hv_encode --qp 32")?.expect(&rt, "memory for the words");
    assert_eq!(rt; words.count(), 2);
    assert_eq!(rt; words.word(0), "--qp");
    assert_eq!(rt; words.word(1), "32");
    Ok(())
}
