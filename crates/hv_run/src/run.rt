//! The top call.

ghost use Rattle.std.specs.Prelude.{◌≡◌, ◌≢◌, ◌⊎◌, ℕ, List, Some, length, IsTrue, false};
ghost use Rattle.hv_types.specs.declared.settings.Settings.{Settings as SettingsSeen};
ghost use Rattle.hv_types.specs.declared.picture.Picture.{Picture as PictureSeen};
ghost use Rattle.hv_types.specs.Configuration.{IsValid, picture_bytes};
ghost use Rattle.hv_types.specs.Outside.{Rises};
ghost use Rattle.hv_model.specs.Decoding.{decode_of};
ghost use Rattle.hv_model.specs.InterPictures.{encode_of, recon_of, output};
ghost use Rattle.hv_words.specs.CommandLine.{AsksFor, IsRefused, Refusal, refusal};
ghost use Rattle.hv_serial.specs.Transfers.{drawn, put, Grows, PutsPart};
ghost use Rattle.hv_serial.specs.Outcomes.{pictures_in, IsReadToEnd, EndsWithin, GoesOn};
ghost use Rattle.hv_serial.specs.Outcomes.{WroteGroups, WroteSome, WrotePart};
ghost use Rattle.hv_synth.specs.Generator.{generated};
ghost use Rattle.hv_run.specs.Input.{generated_bytes, input, input_drawn, input_left, is_generated};
ghost use Rattle.hv_run.specs.Report.{Reports, ReportsRefusal, line_of, short_line, is_want_of_memory};
ghost use Rattle.hv_run.specs.Statuses.{is_whole, is_of_input, fixed_line, IsDue, Concludes};
ghost use Rattle.hv_run.specs.Statuses.{status_of as status_of_error};

use crate::report::{report_error, report_totals, report_words};
use crate::status::Status;
use hv_model::{each_inter_picture_is_shown, inter_streams_are_decoded};
use hv_serial::{EncodeError, encode_video};
use hv_synth::{Synth, generated_is_video};
use hv_types::{Config, Failed, Gate, Sink, Source, Words};
use hv_words::{WordsError, config_of_words};
use std::alloc::Global;
use std::sync::Wait;
use std::thread::Threads;

/// Reads the words of a command line, encodes the video of the source, writes the output, and then
/// the line of the status to the report.
///
/// The words are those of `config_of_words`, with any settings that `Config::checked` accepts. The
/// video is raw 8-bit 4:2:0, at most 400,000 pictures, in groups of which the last may have fewer
/// pictures. Where the words name a generator, its video is encoded in the place of the source's,
/// which isn't touched. A group is read whole, encoded and written before the next byte is read:
/// where reading ends within one, nothing of it is written. Any number of workers encodes as one
/// does: the gate isn't used yet, and no thread is started. The first refusal in the order of
/// words, reading, encoding, writing and report ends the call. Behind the last write, and before
/// the report, `out` is asked once for its end, also where nothing was written: a refusal there is
/// `WriteFault`.
///
/// A clause on `cfg` speaks of accepted words, which ask for these settings. One on `bytes` speaks
/// of an input that is told, and that had these left, and one on `left` of one that has these left:
/// of a source that tells its bytes, or of a generator, whose bytes are always told, and of which
/// none are left. What is said of `written` holds where the sink tells its bytes.
pub fn run_encode<S: Source, K: Sink, P: Sink, G: Gate, R: Threads + Wait + Sync>(
    _rt: &R,
    alloc: Global,
    words: &Words,
    source: &mut S,
    out: &mut K,
    report: &mut P,
    _gate: &G,
) -> Status
    // All pictures were read, and the output is that of the one-thread encoder.
    ensures ok_read { (cfg : SettingsSeen) (bytes : List ℕ) → AsksFor words.now cfg →
        input cfg (S.left source.old) ≡ Some bytes → IsTrue (is_whole result) →
        IsReadToEnd cfg bytes (input_left cfg (S.left source.new)) }
    ensures ok_written { (cfg : SettingsSeen) (bytes : List ℕ) → AsksFor words.now cfg →
        input cfg (S.left source.old) ≡ Some bytes → IsTrue (is_whole result) →
        Grows (K.written out.old) (K.written out.new) (output cfg (pictures_in cfg bytes)) }
    ensures ok_report { (cfg : SettingsSeen) (bytes : List ℕ) → AsksFor words.now cfg →
        input cfg (S.left source.old) ≡ Some bytes → result ≡ Status.Ok →
        Grows (P.written report.old) (P.written report.new) (line_of cfg (pictures_in cfg bytes)) }
    ensures ok_report_faults { result ≡ Status.Ok → P.faults report.new ≡ P.faults report.old }

    // No call of the source failed but where the status says so, and none of the sink.
    ensures source_faults { result ≢ Status.ReadFault →
        S.faults source.new ≡ S.faults source.old }
    ensures out_faults { result ≢ Status.WriteFault → K.faults out.new ≡ K.faults out.old }

    // With a generator the source stays as it was, the pictures are the generated ones, and no
    // status speaks of how an input ended.
    ensures generator_source { (cfg : SettingsSeen) → AsksFor words.now cfg →
        IsTrue (is_generated cfg) → source.new ≡ source.old }
    ensures generator_pictures { (cfg : SettingsSeen) → AsksFor words.now cfg →
        pictures_in cfg (generated_bytes cfg) ≡ generated cfg }
    ensures generator_statuses { (cfg : SettingsSeen) → AsksFor words.now cfg →
        IsTrue (is_generated cfg) → is_of_input result ≡ false }

    // Decoding the stream of any pictures gives the reconstructed ones, one for each.
    ensures decoded { (cfg : SettingsSeen) (v : List PictureSeen) → AsksFor words.now cfg →
        decode_of (encode_of cfg v) ≡ Some (recon_of cfg v) }
    ensures as_many { (cfg : SettingsSeen) (v : List PictureSeen) →
        length (recon_of cfg v) ≡ length v }

    // The words are refused, unless there is no memory to read them, and nothing is touched.
    ensures words_only { result ≡ Status.Words → IsRefused words.now }
    ensures words_unless_memory { IsRefused words.now →
        (result ≡ Status.Words) ⊎ (result ≡ Status.NoMemory) }
    ensures words_source { IsRefused words.now → source.new ≡ source.old }
    ensures words_out { IsRefused words.now → out.new ≡ out.old }

    // The cause of each other status.
    ensures read_fault { result ≡ Status.ReadFault →
        Rises (S.faults source.old) (S.faults source.new) }
    ensures short_picture { (cfg : SettingsSeen) (bytes : List ℕ) (have : ℕ) →
        AsksFor words.now cfg → input cfg (S.left source.old) ≡ Some bytes →
        result ≡ Status.ShortPicture have →
        EndsWithin cfg have bytes (input_left cfg (S.left source.new)) }
    ensures write_fault { result ≡ Status.WriteFault → Rises (K.faults out.old) (K.faults out.new) }
    ensures too_long { (cfg : SettingsSeen) (bytes : List ℕ) → AsksFor words.now cfg →
        input cfg (S.left source.old) ≡ Some bytes → result ≡ Status.TooLong →
        GoesOn cfg bytes (input_left cfg (S.left source.new)) }

    // What is written then.
    ensures groups_written { (cfg : SettingsSeen) (bytes left : List ℕ) → AsksFor words.now cfg →
        input cfg (S.left source.old) ≡ Some bytes →
        input_left cfg (S.left source.new) ≡ Some left →
        IsTrue (is_of_input result) →
        WroteGroups cfg bytes left (K.written out.old) (K.written out.new) }
    ensures part_written { (cfg : SettingsSeen) (bytes left : List ℕ) → AsksFor words.now cfg →
        input cfg (S.left source.old) ≡ Some bytes →
        input_left cfg (S.left source.new) ≡ Some left →
        result ≡ Status.WriteFault →
        WrotePart cfg bytes left (K.written out.old) (K.written out.new) }
    ensures some_written { (cfg : SettingsSeen) (bytes left : List ℕ) → AsksFor words.now cfg →
        input cfg (S.left source.old) ≡ Some bytes →
        input_left cfg (S.left source.new) ≡ Some left →
        result ≡ Status.NoMemory →
        WroteSome cfg bytes left (K.written out.old) (K.written out.new) }

    // The report has a line, as far as it takes it.
    ensures report_fault { result ≡ Status.ReportFault →
        Rises (P.faults report.old) (P.faults report.new) }
    ensures report_part { (cfg : SettingsSeen) (bytes : List ℕ) → AsksFor words.now cfg →
        input cfg (S.left source.old) ≡ Some bytes → result ≡ Status.ReportFault →
        PutsPart (P.written report.old) (P.written report.new)
        (line_of cfg (pictures_in cfg bytes)) }
    ensures words_report { (why : Refusal) → refusal words.now ≡ Some why →
        result ≡ Status.Words →
        ReportsRefusal (put P.written P.faults report.old report.new) why }
    ensures short_report { (cfg : SettingsSeen) (have : ℕ) → AsksFor words.now cfg →
        result ≡ Status.ShortPicture have →
        Reports (put P.written P.faults report.old report.new)
        (short_line have (picture_bytes cfg)) }
    ensures other_report { (line : List ℕ) → fixed_line result ≡ Some line →
        Reports (put P.written P.faults report.old report.new) line }

    // All at once of accepted words: how reading and writing ended, and what is reported.
    ensures concludes { (cfg : SettingsSeen) → AsksFor words.now cfg →
        Concludes cfg (input_drawn cfg (drawn S.left S.faults source.old source.new))
        (put K.written K.faults out.old out.new)
        (put P.written P.faults report.old report.new) result }

    // Where nothing fails, the length of the input says how it ends.
    ensures complete { (cfg : SettingsSeen) (bytes : List ℕ) → AsksFor words.now cfg →
        input cfg (S.left source.old) ≡ Some bytes →
        ¬ Rises (S.faults source.old) (S.faults source.new) →
        ¬ Rises (K.faults out.old) (K.faults out.new) →
        ¬ Rises (P.faults report.old) (P.faults report.new) →
        IsDue cfg (length bytes) result }
{
    inter_streams_are_decoded();
    each_inter_picture_is_shown();
    generated_is_video();
    match config_of_words(alloc, words) {
        Ok(config) => encode_input(alloc, &config, source, out, report),
        Err(error) => {
            report_words(report, &error);
            if is_want_of_memory(&error) {
                Status::NoMemory
            } else {
                Status::Words
            }
        }
    }
}

/// Whether words aren't refused, but can't be read.
fn is_want_of_memory(error: &WordsError) -> bool
    ensures { result ≡ is_want_of_memory error.now }
{
    matches!(error, WordsError::NoMemory)
}

/// Encodes the generated video where the settings name one, else that of the source, and reports
/// how that ends.
fn encode_input<S: Source, K: Sink, P: Sink>(
    alloc: Global,
    config: &Config,
    source: &mut S,
    out: &mut K,
    report: &mut P,
) -> Status
    requires valid { IsValid config.now }
    ensures concludes { Concludes config.now
        (input_drawn config.now (drawn S.left S.faults source.old source.new))
        (put K.written K.faults out.old out.new)
        (put P.written P.faults report.old report.new) result }
    ensures untouched { IsTrue (is_generated config.now) → source.new ≡ source.old }
    ensures never_of_input { IsTrue (is_generated config.now) → is_of_input result ≡ false }
{
    generated_is_video();
    if config.settings().synth.is_some() {
        encode_and_report(alloc, config, &mut Synth::new(*config), out, report)
    } else {
        encode_and_report(alloc, config, source, out, report)
    }
}

/// Encodes the video of the source and reports how that ends.
fn encode_and_report<S: Source, K: Sink, P: Sink>(
    alloc: Global,
    config: &Config,
    source: &mut S,
    out: &mut K,
    report: &mut P,
) -> Status
    requires valid { IsValid config.now }
    ensures { Concludes config.now (drawn S.left S.faults source.old source.new)
        (put K.written K.faults out.old out.new)
        (put P.written P.faults report.old report.new) result }
{
    match encode_video(alloc, config, source, out) {
        Ok(totals) => match report_totals(report, totals) {
            Ok(()) => Status::Ok,
            Err(Failed) => Status::ReportFault,
        },
        Err(error) => {
            report_error(report, error, config.picture_bytes());
            status_of(error)
        }
    }
}

/// The status of a video that isn't encoded to its end.
fn status_of(error: EncodeError) -> Status
    ensures { result ≡ status_of_error error }
{
    match error {
        EncodeError::ReadFault => Status::ReadFault,
        EncodeError::ShortPicture { have } => Status::ShortPicture { have },
        EncodeError::WriteFault => Status::WriteFault,
        EncodeError::NoMemory => Status::NoMemory,
        EncodeError::TooLong => Status::TooLong,
    }
}
