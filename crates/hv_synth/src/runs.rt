//! Bytes of generated video, a run at a time.

ghost use Rattle.std.specs.Prelude.{ℕ, ◌≡◌, ◌+◌, ◌*◌, ◌<◌, ◌≤◌, length};
ghost use Rattle.hv_types.specs.Configuration.{picture_bytes};
ghost use Rattle.hv_synth.specs.Runs.{IsRun, byte_of, Generates};

use crate::samples::fill_samples;
use crate::spot::spot_at;
use hv_types::{Settings, SynthSpec};

/// Fills a run from a place in the video on, to the end of the row or of the slice, and says how
/// long it is.
fn fill_run(settings: &Settings, spec: SynthSpec, at: u64, into: &mut [u8]) -> usize
    requires generates { Generates settings.now spec }
    requires there { at < spec.pictures * picture_bytes settings.now }
    requires room { 0 < length into.old }
    ensures some { 0 < result }
    ensures most { result ≤ length into.new }
    ensures run { IsRun result (λ k. byte_of settings.now (at + k)) into.new }
{
    let luma = settings.width * settings.height;
    let chroma = settings.width / 2 * (settings.height / 2);
    let size = u64::from(luma + 2 * chroma);
    let picture = (at / size) as u32;
    let spot = spot_at(settings, (at % size) as u32);
    let n = into.len().min(spot.rest as usize);
    fill_samples(spec.seed, picture, spot, &mut into[..n]);
    n
}

/// Fills a slice with the bytes of the video from a place on.
pub(crate) fn fill(settings: &Settings, spec: SynthSpec, at: u64, into: &mut [u8])
    requires generates { Generates settings.now spec }
    requires there { at + length into.old ≤ spec.pictures * picture_bytes settings.now }
    ensures { IsRun (length into.new) (λ k. byte_of settings.now (at + k)) into.new }
{
    let mut done = 0;
    while done < into.len() {
        done += fill_run(settings, spec, at + done as u64, &mut into[done..]);
    }
}
