//! The top call over a source and sinks that are known: what its clauses say of them.

ghost use Rattle.std.specs.Prelude.{◌≡◌, ◌≢◌, ◌⊎◌, ◌++◌, List, ℕ, [], Some, length, false};
ghost use Rattle.hv_types.specs.declared.settings.Settings.{Settings as SettingsSeen};
ghost use Rattle.hv_types.specs.declared.settings.Emit.TheVariants.{Stream};
ghost use Rattle.hv_types.specs.Outside.{Rises};
ghost use Rattle.hv_model.specs.Decoding.{decode_of};
ghost use Rattle.hv_model.specs.InterPictures.{recon_of, output};
ghost use Rattle.hv_words.specs.CommandLine.{AsksFor, IsRefused, Refusal, refusal};
ghost use Rattle.hv_serial.specs.Outcomes.{pictures_in};
ghost use Rattle.hv_serial.specs.Transfers.{put};
ghost use Rattle.hv_run.specs.Input.{input_bytes, input_drawn, is_generated};
ghost use Rattle.hv_run.specs.KnownEnds.{steady_drawn, memory_drawn, memory_put};
ghost use Rattle.hv_run.specs.Report.{Reports, ReportsRefusal, line_of};
ghost use Rattle.hv_run.specs.Statuses.{Concludes, IsDue, fixed_line};

use crate::run::run_encode;
use crate::status::Status;
use hv_types::{Gate, MemorySink, MemorySource, Sink, SteadySource, Words};
use std::alloc::Global;
use std::sync::Wait;
use std::thread::Threads;

/// The top call over a source that never fails: the answer is never `ReadFault`, and where output
/// and report don't fail either, the length of the input says how it ends.
pub fn encode_steady<K: Sink, P: Sink, G: Gate, R: Threads + Wait + Sync>(
    rt: &R,
    alloc: Global,
    words: &Words,
    source: &mut SteadySource,
    out: &mut K,
    report: &mut P,
    gate: &G,
) -> Status
    ensures never { result ≢ Status.ReadFault }
    ensures concludes { (cfg : SettingsSeen) → AsksFor words.now cfg →
        Concludes cfg (input_drawn cfg (steady_drawn source.old source.new))
        (put K.written K.faults out.old out.new)
        (put P.written P.faults report.old report.new) result }
    ensures complete { (cfg : SettingsSeen) → AsksFor words.now cfg →
        ¬ Rises (K.faults out.old) (K.faults out.new) →
        ¬ Rises (P.faults report.old) (P.faults report.new) →
        IsDue cfg (length (input_bytes cfg source.old)) result }

    // The words are refused, unless there is no memory to read them, and nothing is touched.
    ensures words_only { result ≡ Status.Words → IsRefused words.now }
    ensures words_unless_memory { IsRefused words.now →
        (result ≡ Status.Words) ⊎ (result ≡ Status.NoMemory) }
    ensures words_source { IsRefused words.now → source.new ≡ source.old }
    ensures words_out { IsRefused words.now → out.new ≡ out.old }
    ensures words_report { (why : Refusal) → refusal words.now ≡ Some why →
        result ≡ Status.Words →
        ReportsRefusal (put P.written P.faults report.old report.new) why }
    ensures other_report { (line : List ℕ) → fixed_line result ≡ Some line →
        Reports (put P.written P.faults report.old report.new) line }
{
    run_encode(rt, alloc, words, source, out, report, gate)
}

/// The top call from memory to memory: at `Ok` the source is empty, unless a generator is named;
/// the output of the pictures, the source's or the generator's, stands behind what the sink had,
/// and their line behind what the report had. A stream that so stands alone in the sink decodes to
/// the reconstructed pictures. Where no call fails, the length of the input says how it ends.
pub fn encode_in_memory<G: Gate, R: Threads + Wait + Sync>(
    rt: &R,
    alloc: Global,
    words: &Words,
    source: &mut MemorySource,
    out: &mut MemorySink,
    report: &mut MemorySink,
    gate: &G,
) -> Status
    ensures read { (cfg : SettingsSeen) → AsksFor words.now cfg → is_generated cfg ≡ false →
        result ≡ Status.Ok → source.new.left ≡ [] }
    ensures written { (cfg : SettingsSeen) → AsksFor words.now cfg → result ≡ Status.Ok →
        out.new.written ≡ out.old.written ++
        output cfg (pictures_in cfg (input_bytes cfg source.old.left)) }
    ensures decoded { (cfg : SettingsSeen) → AsksFor words.now cfg → result ≡ Status.Ok →
        cfg.emit ≡ Stream → out.old.written ≡ [] →
        decode_of out.new.written ≡
        Some (recon_of cfg (pictures_in cfg (input_bytes cfg source.old.left))) }
    ensures reported { (cfg : SettingsSeen) → AsksFor words.now cfg → result ≡ Status.Ok →
        report.new.written ≡ report.old.written ++
        line_of cfg (pictures_in cfg (input_bytes cfg source.old.left)) }
    ensures concludes { (cfg : SettingsSeen) → AsksFor words.now cfg →
        Concludes cfg (input_drawn cfg (memory_drawn source.old source.new))
        (memory_put out.old out.new) (memory_put report.old report.new) result }
    ensures complete { (cfg : SettingsSeen) → AsksFor words.now cfg →
        ¬ Rises source.old.script.faults source.new.script.faults →
        ¬ Rises out.old.script.faults out.new.script.faults →
        ¬ Rises report.old.script.faults report.new.script.faults →
        IsDue cfg (length (input_bytes cfg source.old.left)) result }

    // The words are refused, unless there is no memory to read them, and nothing is touched.
    ensures words_only { result ≡ Status.Words → IsRefused words.now }
    ensures words_unless_memory { IsRefused words.now →
        (result ≡ Status.Words) ⊎ (result ≡ Status.NoMemory) }
    ensures words_source { IsRefused words.now → source.new ≡ source.old }
    ensures words_out { IsRefused words.now → out.new ≡ out.old }
    ensures words_report { (why : Refusal) → refusal words.now ≡ Some why →
        result ≡ Status.Words → ReportsRefusal (memory_put report.old report.new) why }
    ensures other_report { (line : List ℕ) → fixed_line result ≡ Some line →
        Reports (memory_put report.old report.new) line }
{
    run_encode(rt, alloc, words, source, out, report, gate)
}
