//! The exit code of an encoding.

ghost use Rattle.std.specs.Prelude.{◌≡◌, ◌⊎◌, ℕ, List, Some, length, IsTrue};
ghost use Rattle.hv_types.specs.declared.settings.Settings.{Settings as SettingsSeen};
ghost use Rattle.hv_types.specs.Outside.{Rises};
ghost use Rattle.hv_model.specs.InterPictures.{output};
ghost use Rattle.hv_words.specs.CommandLine.{AsksFor, IsRefused};
ghost use Rattle.hv_serial.specs.Transfers.{Grows};
ghost use Rattle.hv_serial.specs.Outcomes.{pictures_in};
ghost use Rattle.hv_run.specs.Input.{input, is_generated};
ghost use Rattle.hv_run.specs.Statuses.{code_of, status_due};

use hv_run::run_encode;
use hv_types::{OpenGate, Sink, Source, Words};
use std::alloc::Global;
use std::sync::Wait;
use std::thread::Threads;

/// Encodes the source's video into the sink, or that of the generator that the words name, and
/// gives the exit code: 2 where the words are refused; where they are accepted and nothing fails,
/// that of the status which the length of the input asks for; and in both cases 6, where there was
/// not enough memory.
pub(crate) fn encode_to_exit<S: Source, K: Sink, P: Sink, R: Threads + Wait + Sync>(
    rt: &R,
    alloc: Global,
    words: &Words,
    source: &mut S,
    out: &mut K,
    report: &mut P,
) -> u8
    ensures refused { IsRefused words.now → (result ≡ 2) ⊎ (result ≡ 6) }
    ensures refused_source { IsRefused words.now → source.new ≡ source.old }
    ensures refused_out { IsRefused words.now → out.new ≡ out.old }
    ensures due { (cfg : SettingsSeen) (bytes : List ℕ) → AsksFor words.now cfg →
        input cfg (S.left source.old) ≡ Some bytes →
        ¬ Rises (S.faults source.old) (S.faults source.new) →
        ¬ Rises (K.faults out.old) (K.faults out.new) →
        ¬ Rises (P.faults report.old) (P.faults report.new) →
        (result ≡ 6) ⊎ (result ≡ code_of (status_due cfg (length bytes))) }
    ensures whole { (cfg : SettingsSeen) (bytes : List ℕ) → AsksFor words.now cfg →
        input cfg (S.left source.old) ≡ Some bytes → result ≡ 0 →
        Grows (K.written out.old) (K.written out.new) (output cfg (pictures_in cfg bytes)) }
    ensures generated { (cfg : SettingsSeen) → AsksFor words.now cfg → IsTrue (is_generated cfg) →
        source.new ≡ source.old }
    ensures read_fault { result ≡ 3 → Rises (S.faults source.old) (S.faults source.new) }
    ensures write_fault { result ≡ 5 → Rises (K.faults out.old) (K.faults out.new) }
    ensures report_fault { result ≡ 8 → Rises (P.faults report.old) (P.faults report.new) }
{
    run_encode(rt, alloc, words, source, out, report, &OpenGate).code()
}
