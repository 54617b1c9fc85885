//! The lines of the report. Each is made in a buffer on the stack and handed over whole, so that no
//! memory is taken, and lines of encodings that run side by side aren't torn where the report takes
//! them in one write.

ghost use Rattle.std.specs.Prelude.{◌≡◌, ◌≤◌, ◌+◌, ◌++◌, length, OnOk, OnErr};
ghost use Rattle.arrayvec.specs.ArrayString.{array_string_len};
ghost use Rattle.hv_serial.specs.Transfers.{put};
ghost use Rattle.hv_run.specs.Report.{Tells, TellsPart, Reports, counted, short_line as short_line_of, words_line, config_line as config_line_of};
ghost use Rattle.hv_run.specs.Report.{error_line as error_line_of, totals_line as totals_line_of};

use arrayvec::ArrayString;
use hv_serial::{EncodeError, Totals, write_all};
use hv_types::{ConfigError, Failed, Sink};
use hv_words::WordsError;
use itoa::Buffer;

/// The most bytes of a number: its digits, and a sign, of 128 bits.
const NUMBER: usize = 40;

/// The most bytes of a line: those of its texts and of three numbers.
const LINE: usize = 37 + 3 * NUMBER;

/// A line that is made.
type Line = ArrayString<LINE>;

/// Writes the line of an encoding that came to its end.
pub(crate) fn report_totals<P: Sink>(report: &mut P, totals: Totals) -> Result<(), Failed>
    ensures ok { OnOk result
        (Tells (put P.written P.faults report.old report.new) (totals_line_of totals)) }
    ensures err { OnErr result
        (TellsPart (put P.written P.faults report.old report.new) (totals_line_of totals)) }
{
    put_line(report, totals_line(totals).as_str())
}

/// Writes the line of an encoding that didn't, as far as the report takes it. `size` is that of a
/// picture, in bytes.
pub(crate) fn report_error<P: Sink>(report: &mut P, error: EncodeError, size: u64)
    ensures { Reports (put P.written P.faults report.old report.new) (error_line_of size error) }
{
    let _ = put_line(report, error_line(error, size).as_str());
}

/// Writes what is told of words that give no settings, as far as the report takes it.
pub(crate) fn report_words<P: Sink>(report: &mut P, error: &WordsError)
    ensures { Reports (put P.written P.faults report.old report.new) (words_line error.now) }
{
    let _ = match error {
        WordsError::Parse { text } => put_line(report, text.as_str()),
        WordsError::Config { error } => put_line(report, config_line(*error).as_str()),
        WordsError::NoMemory => put_line(report, "no memory\n"),
    };
}

/// Hands a line over.
fn put_line<P: Sink>(report: &mut P, line: &str) -> Result<(), Failed>
    ensures ok { OnOk result (Tells (put P.written P.faults report.old report.new) line.now) }
    ensures err { OnErr result (TellsPart (put P.written P.faults report.old report.new) line.now) }
{
    write_all(report, line.as_bytes())
}

/// The line of an encoding that came to its end.
fn totals_line(totals: Totals) -> Line
    ensures { result.bytes ≡ totals_line_of totals }
{
    let mut line = Line::new();
    put_counted(&mut line, "encoded ", totals.pictures as u128);
    put_counted(&mut line, " pictures in ", totals.groups as u128);
    put_counted(&mut line, " groups, ", totals.bytes);
    line.push_str(" bytes\n");
    line
}

/// The line of an encoding of pictures of this size in bytes, that didn't come to its end.
fn error_line(error: EncodeError, size: u64) -> Line
    ensures { result.bytes ≡ error_line_of size error }
{
    match error {
        EncodeError::ReadFault => text_line("read fault\n"),
        EncodeError::ShortPicture { have } => short_line(have, size),
        EncodeError::WriteFault => text_line("write fault\n"),
        EncodeError::NoMemory => text_line("no memory\n"),
        EncodeError::TooLong => text_line("more than 400000 pictures\n"),
    }
}

/// The line of an input that ended `have` bytes into a picture of `size` bytes.
fn short_line(have: u64, size: u64) -> Line
    ensures { result.bytes ≡ short_line_of have size }
{
    let mut line = Line::new();
    put_counted(&mut line, "short picture: ", have as u128);
    put_counted(&mut line, " of ", size as u128);
    line.push_str(" bytes\n");
    line
}

/// A line without a number.
fn text_line(text: &str) -> Line
    requires room { length text.now ≤ 37 }
    ensures { result.bytes ≡ text.now }
{
    let mut line = Line::new();
    line.push_str(text);
    line
}

/// Puts a text, and a number in decimal digits.
fn put_counted(line: &mut Line, text: &str, number: u128)
    requires room { array_string_len line.old + length text.now + 40 ≤ 157 }
    ensures bytes { line.new.bytes ≡ line.old.bytes ++ counted text.now number }
    ensures len { array_string_len line.new ≤ array_string_len line.old + length text.now + 40 }
{
    line.push_str(text);
    line.push_str(Buffer::new().format(number));
}

/// The line of settings with a fault.
fn config_line(error: ConfigError) -> Line
    ensures { result.bytes ≡ config_line_of error }
{
    let mut line = Line::new();
    line.push_str(error.text());
    line.push_str("\n");
    line
}
