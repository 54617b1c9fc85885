//! The parameter sets of a video.

ghost use Rattle.std.specs.Prelude.{◌≡◌, IfOk};
ghost use Rattle.hv_stream_model.specs.Headers.{parameter_sets as parameter_sets_of};

use hv_params::{write_pps, write_sps, write_vps};
use hv_types::{Config, NoMemory};
use std::alloc::Global;

/// The units of the parameter sets of these settings (7.3.2), with their start codes (Annex B):
/// VPS, SPS and PPS. `NoMemory` where a growth failed.
pub(crate) fn parameter_sets(alloc: Global, config: &Config) -> Result<Vec<u8>, NoMemory>
    ensures { IfOk result (λ bytes. bytes.items ≡ parameter_sets_of config.now) }
{
    let mut bytes = write_vps(alloc, config)?;
    bytes.extend_from_slice(&write_sps(alloc, config)?)?;
    bytes.extend_from_slice(&write_pps(alloc, config)?)?;
    Ok(bytes)
}
