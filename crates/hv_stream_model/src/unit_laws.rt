//! What is written as NAL units is read back exactly.

ghost use Rattle.hv_stream_model.specs.ZeroRuns.{EscapeByRuns, StripByRuns};
ghost use Rattle.hv_stream_model.specs.UnitLaws.{PayloadsComeBack, StreamsAreReadBack, UnitsMakeAStream};

/// A payload with its emulation prevention bytes (7.3.1.1) is the payload again once they are left
/// out.
pub fn payloads_come_back()
    ensures { PayloadsComeBack }
{}

/// Emulation prevention by the last two bytes (7.3.1.1, 7.4.2) is that by a running number of zero
/// bytes, as code counts them.
pub fn zero_runs_laws()
    ensures escape { EscapeByRuns }
    ensures strip { StripByRuns }
{}

/// The units that are found in a byte stream (Annex B) are those of which it is the stream, so
/// there is one list of them at most.
pub fn streams_are_read_back()
    ensures { StreamsAreReadBack }
{}

/// Units as the encoder writes them, one behind another, are a byte stream of these units.
pub fn units_make_a_stream()
    ensures { UnitsMakeAStream }
{}
