//! The program `hv_encode`: raw video on standard input, an H.265 byte stream on standard output,
//! and a line of how that ended on standard error.
#![tactic(auto)]

mod arguments;
mod exit;
mod standard_output;
#[cfg(test)]
mod tests;

use crate::arguments::{NO_ARGUMENTS, without_arguments, words_behind_name};
use crate::exit::encode_to_exit;
use crate::standard_output::StandardOutput;
use hv_types::{StdSink, StdSource};
use std::env;
use std::process::ExitCode;

fn main(rt: HostRuntime) -> ExitCode {
    let alloc = rt.alloc();
    let mut report = StdSink::new(rt.stderr());
    let arguments = match env::args(&rt) {
        Ok(arguments) => arguments,
        Err(error) => return ExitCode::from(without_arguments(&mut report, error.kind())),
    };
    let Some(words) = words_behind_name(alloc, arguments) else {
        return ExitCode::from(NO_ARGUMENTS);
    };
    let mut source = StdSource::new(rt.stdin());
    let mut out = StandardOutput::new(rt.stdout(), &rt);
    let code = encode_to_exit(&rt, alloc, &words, &mut source, &mut out, &mut report);
    ExitCode::from(code)
}
