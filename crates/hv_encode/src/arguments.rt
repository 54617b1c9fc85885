//! The arguments of the program as words.

ghost use Rattle.std.specs.Prelude.{◌≡◌, ◌≢◌, codes, drop, map, string_bytes, IfSome};
ghost use Rattle.std.specs.Vec.Iter.{into_iter_items};
ghost use Rattle.hv_serial.specs.Transfers.{put};
ghost use Rattle.hv_run.specs.Report.{Reports};

use hv_serial::write_all;
use hv_types::{Sink, Words};
use std::alloc::Global;
use std::env::Args;
use std::io::ErrorKind;

/// The exit code of words that are refused, which an argument that isn't UTF-8 has too.
const REFUSED: u8 = 2;

/// The exit code where the arguments can't be read or kept, which no status has.
pub(crate) const NO_ARGUMENTS: u8 = 1;

/// The words behind the program's name, all of them in their order, or `None` where they can't be
/// kept.
pub(crate) fn words_behind_name(alloc: Global, mut arguments: Args) -> Option<Words>
    ensures { IfSome result (λ words.
        words ≡ map string_bytes (drop 1 (into_iter_items arguments))) }
{
    let _name = arguments.next();
    let mut words = Words::new(alloc);
    while let Some(word) = arguments.next() {
        if words.count() >= u32::MAX - 1 {
            return None;
        }
        words.push(&word).ok()?;
    }
    Some(words)
}

/// The exit code where the system gives no arguments, with a line on the report where one of them
/// isn't UTF-8: the system has no text for it then.
pub(crate) fn without_arguments<P: Sink>(report: &mut P, kind: ErrorKind) -> u8
    ensures refused { kind ≡ ErrorKind.InvalidData → result ≡ 2 }
    ensures refused_report { kind ≡ ErrorKind.InvalidData →
        Reports (put P.written P.faults report.old report.new)
        (codes "error: an argument isn't UTF-8\n") }
    ensures other { kind ≢ ErrorKind.InvalidData → result ≡ 1 }
    ensures other_report { kind ≢ ErrorKind.InvalidData → report.new ≡ report.old }
{
    if kind == ErrorKind::InvalidData {
        let _ = write_all(report, b"error: an argument isn't UTF-8\n");
        REFUSED
    } else {
        NO_ARGUMENTS
    }
}
