//! Why words are refused.

ghost use Rattle.std.specs.Prelude.{◌≡◌, ◌≢◌, IfOk, string_bytes};
ghost use Rattle.clap.specs.Values.{kind_of};
ghost use Rattle.clap.specs.declared.error.kind.ErrorKind.TheVariants.{OutOfMemory};
ghost use Rattle.hv_words.specs.Answers.{HasLine, IsLine, Rejects};

use clap::error::ErrorKind;
use hv_types::ConfigError;
use std::alloc::{AllocError, Global};
use thiserror::Error;

/// Why the words of a command line are refused. Its text is the line of the report.
#[derive(Debug, Drop, Error)]
pub enum WordsError {
    /// The words are no command line of this program, or ask for help. The text is `clap`'s, and
    /// ends with a line feed.
    #[error("{text}")]
    Parse { text: String },
    /// The settings that they ask for have this fault.
    #[error("{error}")]
    Config { error: ConfigError },
    /// There was not enough memory to read them.
    #[error("no memory")]
    NoMemory,
}

impl From<AllocError> for WordsError {
    ghost use Rattle.hv_words.specs.declared.refusal.WordsError.TheVariants.{NoMemory};

    ghost from_gives = { λ _ e. e ≡ NoMemory };

    fn from(_error: AllocError) -> WordsError {
        WordsError::NoMemory
    }
}

/// What an error of `clap` says of the words.
pub(crate) fn refused(alloc: Global, error: &clap::Error) -> WordsError
    ensures rejects { Rejects (kind_of error.now ≢ OutOfMemory) result }
    ensures text { HasLine result }
{
    if error.kind() == ErrorKind::OutOfMemory {
        return WordsError::NoMemory;
    }
    match text_of_error(alloc, error) {
        Ok(text) => WordsError::Parse { text },
        Err(_) => WordsError::NoMemory,
    }
}

/// The text of an error, with one line feed behind it.
fn text_of_error(alloc: Global, error: &clap::Error) -> Result<String, AllocError>
    ensures { IfOk result (λ text. IsLine (string_bytes text)) }
{
    let shown = format!(in alloc; "{error}")?;
    let mut text = String::from_str(alloc, shown.trim_end())?;
    text.push_str("\n")?;
    Ok(text)
}
