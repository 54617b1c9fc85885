//! Samples that are seen one behind another.

ghost use Rattle.std.specs.Prelude.{◌≡◌, ◌<◌, ◌≤◌};

/// Samples that are seen one behind another: at most `count` of a list, from the place `first` on,
/// each `step` places behind the one before.
#[derive(Clone, Copy)]
pub struct Run<'a> {
    pub samples: &'a [u8],
    pub first: usize,
    pub step: usize,
    pub count: usize,
    pub ghost near: { first ≤ 8192 },
    pub ghost narrow: { step ≤ 64 },
}

impl<'a> Run<'a> {
    ghost use Rattle.hv_recon.specs.Runs.{seen_in};

    /// No samples.
    #[inline(always)]
    pub fn none() -> Run<'a>
        ensures { result.count ≡ 0 }
    {
        Run {
            samples: &[],
            first: 0,
            step: 1,
            count: 0,
        }
    }

    /// One of them, or none behind the last.
    #[inline(always)]
    pub fn at(self, i: usize) -> Option<u8>
        requires { i < 8 }
        ensures { result ≡ seen_in self.entry i }
    {
        if i < self.count {
            self.samples.get(self.first + i * self.step).copied()
        } else {
            None
        }
    }
}
