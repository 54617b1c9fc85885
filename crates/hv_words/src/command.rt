//! The command of the program, for `clap`: its options, their defaults, and the text for users.

ghost use Rattle.std.specs.Prelude.{◌≡◌, IfOk, false};
ghost use Rattle.clap.specs.Words.{app_of, rule_of};
ghost use Rattle.hv_words.specs.Command.{command, number, option, or_else, program_name, required};

use clap::{Arg, ArgAction, Command, value_parser};
use std::alloc::{AllocError, Global};

/// The name that stands before the words, and in the texts for users.
pub(crate) const PROGRAM_NAME: &str = "hv_encode";

// ---- the texts for users

const ABOUT: &str = "Encodes raw video, 8-bit 4:2:0, from standard input to an H.265 byte stream \
    on standard output";

const AFTER_HELP: &str = "More workers than one encode as one does.";

const WIDTH: &str = "Width of a picture in luma samples: even, 8 to 4096";

const HEIGHT: &str = "Height of a picture in luma samples: even, 8 to 2176";

const QP: &str = "Quantiser, 0 to 51: a higher one gives fewer bytes and a coarser picture";

const LEVELS: &str = "How often the span between two anchor pictures is halved, 0 to 3";

const GROUP: &str = "Pictures of a group, which is decoded without the others, 1 to 64";

const WORKERS: &str = "Threads that encode, 1 to 16";

const EFFORT: &str = "How much is tried for each block, 0 (nothing) to 2 (most)";

const SEGMENT: &str = "Blocks of 64x64 that a thread encodes at a stretch, 1 to 64";

const EMIT: &str = "What is written: stream, or recon for the pictures that a decoder shows, raw";

const SYNTH: &str = "Encodes a generated video and reads no input: its seed, 0 to 4294967295";

const PICTURES: &str = "Pictures of the generated video, 0 to 400000; unused without --synth";

/// The command.
pub(crate) fn encoder_command<'a>(alloc: Global) -> Result<Command<'a>, AllocError>
    ensures { IfOk result (λ c. app_of c ≡ command) }
{
    Command::new(alloc, PROGRAM_NAME)
        .about(ABOUT)
        .after_help(AFTER_HELP)
        .arg(required_number(alloc, "width", WIDTH))?
        .arg(required_number(alloc, "height", HEIGHT))?
        .arg(number_or(alloc, "qp", "32", QP))?
        .arg(number_or(alloc, "levels", "3", LEVELS))?
        .arg(number_or(alloc, "group", "16", GROUP))?
        .arg(number_or(alloc, "workers", "1", WORKERS))?
        .arg(number_or(alloc, "effort", "2", EFFORT))?
        .arg(number_or(alloc, "segment", "4", SEGMENT))?
        .arg(any_or(alloc, "emit", "stream", EMIT))?
        .arg(number_option(alloc, "synth", SYNTH))?
        .arg(number_or(alloc, "pictures", "60", PICTURES))
}

/// An option of any value.
fn any_option<'a>(alloc: Global, name: &'a str, help: &'a str) -> Arg<'a>
    ensures rule { rule_of result ≡ option name.entry.now }
    ensures local { result.global ≡ false }
{
    Arg::new(alloc, name)
        .long(name)
        .action(ArgAction::Set)
        .value_name("VALUE")
        .help(help)
}

/// An option of any value that has a default.
fn any_or<'a>(alloc: Global, name: &'a str, default: &'a str, help: &'a str) -> Arg<'a>
    ensures rule { rule_of result ≡ or_else (option name.entry.now) default.entry.now }
    ensures local { result.global ≡ false }
{
    any_option(alloc, name, help).default_value(default)
}

/// An option of a whole number below 2^32.
fn number_option<'a>(alloc: Global, name: &'a str, help: &'a str) -> Arg<'a>
    ensures rule { rule_of result ≡ number name.entry.now }
    ensures local { result.global ≡ false }
{
    any_option(alloc, name, help)
        .value_name("NUMBER")
        .value_parser(value_parser!(u32))
}

/// An option of a number that has a default.
fn number_or<'a>(alloc: Global, name: &'a str, default: &'a str, help: &'a str) -> Arg<'a>
    ensures rule { rule_of result ≡ or_else (number name.entry.now) default.entry.now }
    ensures local { result.global ≡ false }
{
    number_option(alloc, name, help).default_value(default)
}

/// An option of a number that has to be there.
fn required_number<'a>(alloc: Global, name: &'a str, help: &'a str) -> Arg<'a>
    ensures rule { rule_of result ≡ required (number name.entry.now) }
    ensures local { result.global ≡ false }
{
    number_option(alloc, name, help).required(true)
}
