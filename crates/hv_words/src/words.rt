//! The words of the command line.

ghost use Rattle.std.specs.Prelude.{◌≡◌, ⊤, map, Some, None, IfOk, IfErr};
ghost use Rattle.clap.specs.Words.{Row, found_of, rows_of};
ghost use Rattle.hv_words.specs.CommandLine.{AsksFor, refusal, settings_of, settings_in, emit_in, emit_of_text, synth_in, number_in, whole_in, byte_in, named, refusal_of_settings};
ghost use Rattle.hv_words.specs.Answers.{Answers, HasLine, Rejects};

use crate::command::{PROGRAM_NAME, encoder_command};
use crate::refusal::{WordsError, refused};
use clap::error::ErrorKind;
use clap::{ArgMatches, Command};
use hv_types::{Config, Emit, Settings, SynthSpec, Words};
use std::alloc::{AllocError, Global};

/// The settings that the words ask for, tested.
///
/// The words, without the program's name, are options with one value each, as `--qp 30` or
/// `--qp=30`, each at most once and in any order. `--width` and `--height` must be there. Else the
/// defaults are `--qp 32 --levels 3 --group 16 --workers 1 --effort 2 --segment 4 --emit stream`,
/// no `--synth`, and `--pictures 60`, which says nothing without `--synth`. `--emit` is `stream` or
/// `recon`, and the others are whole numbers below 2^32, of which a value above 255 for `--qp` to
/// `--segment` stands as 255.
///
/// `Parse` comes just where `clap` refuses the words, also for `--help`, or `--emit` has another
/// value, and `Config` where the settings have a fault. `NoMemory` may come at any time.
pub fn config_of_words(alloc: Global, words: &Words) -> Result<Config, WordsError>
    ensures ok { IfOk result (λ config. AsksFor words.now config) }
    ensures err { IfErr result (Answers (refusal words.now)) }
    ensures text { IfErr result HasLine }
{
    match settings_of_words(alloc, words) {
        Ok(settings) => checked(settings),
        Err(error) => Err(error),
    }
}

/// Tests settings.
fn checked(settings: Settings) -> Result<Config, WordsError>
    ensures ok { IfOk result (λ config.
        (config ≡ settings) × (refusal_of_settings (Some settings) ≡ None)) }
    ensures err { IfErr result (Answers (refusal_of_settings (Some settings))) }
    ensures text { IfErr result HasLine }
{
    match Config::checked(settings) {
        Ok(config) => Ok(config),
        Err(error) => Err(WordsError::Config { error }),
    }
}

/// The settings that the words ask for, if they are those of the command. A value of `--emit` that
/// is none of its two is the one thing that is refused behind `clap`.
fn settings_of_words(alloc: Global, words: &Words) -> Result<Settings, WordsError>
    ensures ok { IfOk result (λ settings. settings_of words.now ≡ Some settings) }
    ensures err { IfErr result (Rejects (settings_of words.now ≡ None)) }
    ensures text { IfErr result HasLine }
{
    let texts = texts_of_words(alloc, words)?;
    let mut command = encoder_command(alloc)?;
    match command.try_get_matches_from_mut(texts.as_slice()) {
        Ok(matches) => match settings_of_matches(&matches) {
            Some(settings) => Ok(settings),
            None => Err(emit_refused(alloc, &mut command, matches.get_str("emit").unwrap_or(""))),
        },
        Err(error) => Err(refused(alloc, &error)),
    }
}

/// The program's name and the words.
fn texts_of_words(alloc: Global, words: &Words) -> Result<Vec<&str>, AllocError>
    ensures { IfOk result (λ texts. map (λ s. s.now) texts.items ≡ named words.now) }
{
    let mut texts = Vec::new(alloc);
    texts.push(PROGRAM_NAME)?;
    for i in 0..words.count() {
        texts.push(words.word(i))?;
    }
    Ok(texts)
}

/// The settings that matches of the command ask for, or `None` where `--emit` has another value
/// than its two.
fn settings_of_matches(matches: &ArgMatches<'_>) -> Option<Settings>
    ensures { result ≡ settings_in (rows_of (found_of matches.now)) }
{
    Some(Settings {
        width: whole(matches, "width"),
        height: whole(matches, "height"),
        qp: byte(matches, "qp"),
        levels: byte(matches, "levels"),
        group: byte(matches, "group"),
        workers: byte(matches, "workers"),
        effort: byte(matches, "effort"),
        segment: byte(matches, "segment"),
        emit: emit(matches)?,
        synth: synth(matches),
    })
}

/// The number of an option, where it has one.
fn number(matches: &ArgMatches<'_>, name: &str) -> Option<u32>
    ensures { result ≡ number_in (rows_of (found_of matches.now)) name.now }
{
    matches.get_one::<u32>(name)
}

/// The number of an option that has one.
fn whole(matches: &ArgMatches<'_>, name: &str) -> u32
    ensures { result ≡ whole_in (rows_of (found_of matches.now)) name.now }
{
    number(matches, name).unwrap_or(0)
}

/// The number of an option that has one, where a value above 255 stands as 255.
fn byte(matches: &ArgMatches<'_>, name: &str) -> u8
    ensures { result ≡ byte_in (rows_of (found_of matches.now)) name.now }
{
    whole(matches, name).min(255) as u8
}

/// What is written, if it is one of the two.
fn emit(matches: &ArgMatches<'_>) -> Option<Emit>
    ensures { result ≡ emit_in (rows_of (found_of matches.now)) }
{
    emit_of_text(matches.get_str("emit")?)
}

/// The value of `--emit` with this text.
fn emit_of_text(text: &str) -> Option<Emit>
    ensures { result ≡ emit_of_text text.now }
{
    if text == "stream" {
        Some(Emit::Stream)
    } else if text == "recon" {
        Some(Emit::Recon)
    } else {
        None
    }
}

/// The generator, if one is asked for.
fn synth(matches: &ArgMatches<'_>) -> Option<SynthSpec>
    ensures { result ≡ synth_in (rows_of (found_of matches.now)) }
{
    Some(SynthSpec {
        seed: number(matches, "synth")?,
        pictures: whole(matches, "pictures"),
    })
}

/// What is said of another value of `--emit` than its two, in the form of `clap`.
fn emit_refused(alloc: Global, command: &mut Command<'_>, value: &str) -> WordsError
    ensures rejects { Rejects ⊤ result }
    ensures text { HasLine result }
{
    let Ok(message) = format!(in alloc;
        "invalid value '{value}' for '--emit <VALUE>'\n  [possible values: stream, recon]"
    ) else {
        return WordsError::NoMemory;
    };
    match command.error(ErrorKind::InvalidValue, message.as_str()) {
        Ok(error) => refused(alloc, &error),
        Err(_) => WordsError::NoMemory,
    }
}
