//! The encoding of a video, group by group.

ghost use Rattle.std.specs.Prelude.{◌≡◌, ◌+◌, ◌<◌, ◌^◌, OnOk};
ghost use Rattle.hv_types.specs.Configuration.{IsValid};
ghost use Rattle.hv_serial.specs.Transfers.{drawn, put};
ghost use Rattle.hv_serial.specs.Endings.{Decodes, Ends};

use crate::answers::{EncodeError, Totals};
use crate::reading::read_group;
use crate::workspace::Workspace;
use crate::writing::write_group;
use hv_model::inter_streams_are_decoded;
use hv_types::{Config, Failed, Sink, Source};
use std::alloc::Global;

/// Encodes the video of the source: reads a group of pictures, of which the last may have fewer,
/// and encodes and writes it before the next one is read, until the input ends. Where all were read
/// and written, also where there is none, the sink is then asked once whether that came through: if
/// it didn't, that is `WriteFault`. A stream so written decodes (clauses 7 to 9 and Annex B) to the
/// reconstructed pictures.
pub fn encode_video<S: Source, K: Sink>(
    alloc: Global,
    config: &Config,
    source: &mut S,
    out: &mut K,
) -> Result<Totals, EncodeError>
    requires valid { IsValid config.now }
    ensures ends { Ends config.now (drawn S.left S.faults source.old source.new)
        (put K.written K.faults out.old out.new) result }
    ensures decoded { OnOk result (Decodes config.now
        (drawn S.left S.faults source.old source.new) (put K.written K.faults out.old out.new)) }
{
    inter_streams_are_decoded();
    let totals = encode_groups(alloc, config, source, out)?;
    match out.end() {
        Ok(()) => Ok(totals),
        Err(Failed) => Err(EncodeError::WriteFault),
    }
}

/// Reads groups until the input ends, and encodes and writes each before the next one is read. The
/// buffer for a raw picture is taken once, and so is what groups are encoded in.
fn encode_groups<S: Source, K: Sink>(
    alloc: Global,
    config: &Config,
    source: &mut S,
    out: &mut K,
) -> Result<Totals, EncodeError>
    requires valid { IsValid config.now }
    ensures { Ends config.now (drawn S.left S.faults source.old source.new)
        (put K.written K.faults out.old out.new) result }
{
    let size = config.picture_bytes() as usize;
    let Ok(mut raw) = vec![in alloc; 0u8; size] else {
        return Err(EncodeError::NoMemory);
    };
    let Ok(mut work) = Workspace::new(alloc, config) else {
        return Err(EncodeError::NoMemory);
    };
    let mut totals = Totals {
        pictures: 0,
        groups: 0,
        bytes: 0,
    };
    'groups: loop {
        let input = match read_group(alloc, config, totals.pictures, &mut raw, source) {
            Ok(input) => input,
            Err(error) => return Err(error),
        };
        let count = input.count();
        if count == 0 {
            return Ok(totals);
        }
        let bytes = match write_group(alloc, totals.groups, input, &mut work, out) {
            Ok(bytes) => bytes,
            Err(error) => return Err(error),
        };
        totals = one_more(totals, count, bytes);
        if count < config.settings().group {
            return Ok(totals);
        }
    }
}

/// With one group more, of so many pictures and so many bytes of output.
fn one_more(totals: Totals, count: u8, bytes: usize) -> Totals
    requires pictures { totals.pictures + count < 2 ^ 32 }
    requires groups { totals.groups + 1 < 2 ^ 32 }
    requires bytes { totals.bytes + bytes < 2 ^ 128 }
    ensures pictures { result.pictures ≡ totals.pictures + count }
    ensures groups { result.groups ≡ totals.groups + 1 }
    ensures bytes { result.bytes ≡ totals.bytes + bytes }
{
    Totals {
        pictures: totals.pictures + u32::from(count),
        groups: totals.groups + 1,
        bytes: totals.bytes + bytes as u128,
    }
}
