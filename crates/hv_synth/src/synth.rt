//! The source of generated video.

ghost use Rattle.std.specs.Prelude.{◌≡◌, ◌<◌, Some, min, length, IfOk, IsOk};
ghost use Rattle.std.specs.List.{flat_map};
ghost use Rattle.hv_types.specs.Outside.{Reads};
ghost use Rattle.hv_types.specs.Video.{raw};
ghost use Rattle.hv_synth.specs.Generator.{generated};

use crate::runs::fill;
use hv_types::{Config, Failed, Source};
use std::marker::Model;

/// A source that makes its bytes while they are read: raw pictures in 4:2:0, a byte a sample, luma,
/// then Cb, then Cr, without padding. It takes no memory, never fails and tells its bytes.
/// Contracts see those still to come.
///
/// Pictures count from t = 0. With a = x + 2 * t and b = y + t, luma in column x of row y is
/// a * (3 + seed % 5) + b * (2 + seed % 3) + (a / 8 ^ b / 8) * (1 + seed % 7), Cb there is
/// x + y + t + seed, and Cr 2 * x + y + 3 * t, each modulo 256.
#[derive(Debug, Drop)]
pub struct Synth {
    config: Config,
    at: u64,
}

impl Model for Synth {
    ghost use Rattle.std.specs.Prelude.{List, ℕ, ◌≤◌, length, drop};
    ghost use Rattle.std.specs.List.{flat_map};
    ghost use Rattle.hv_types.specs.Video.{raw};
    ghost use Rattle.hv_synth.specs.Generator.{generated};

    ghost Value = { List ℕ };

    ghost view = { λ s. drop s.at (flat_map raw (generated s.config)) };

    ghost invariant = { λ s. s.at ≤ length (flat_map raw (generated s.config)) };
}

impl Synth {
    /// A source of the pictures that the configuration asks to be generated, from the first byte of
    /// the first one to the last byte of the last. Where it names no generator there are none.
    pub fn new(config: Config) -> Self
        ensures { result ≡ flat_map raw (generated config) }
    {
        Synth { config, at: 0 }
    }
}

impl Source for Synth {
    ghost use Rattle.std.specs.Prelude.{Some};

    ghost left = { λ s. Some s };

    ghost faults = { λ _. 0 };

    /// Gives what there is room for. It never fails.
    fn read(&mut self, into: &mut [u8]) -> Result<usize, Failed>
        requires { 0 < length into.old }
        ensures ok { IfOk result (Reads (Some self.old) (Some self.new) into.new) }
        ensures whole { IfOk result (λ n. n ≡ min (length self.old) (length into.old)) }
        ensures never_fails { IsOk result }
    {
        let settings = self.config.settings();
        let Some(spec) = settings.synth else {
            return Ok(0);
        };
        let total = self.config.picture_bytes() * u64::from(spec.pictures);
        let count = (total - self.at).min(into.len() as u64) as usize;
        fill(&settings, spec, self.at, &mut into[..count]);
        self.at += count as u64;
        Ok(count)
    }
}
