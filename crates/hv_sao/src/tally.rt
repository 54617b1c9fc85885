//! Counts and sums of samples.

ghost use Rattle.std.specs.Prelude.{◌≡◌, ◌+◌, ◌<◌, ◌^◌, pos, ◌+ℤ◌, ◌-ℤ◌};
ghost use Rattle.std.specs.Int.RustNames.{unsigned_abs};

/// How many samples there are of a kind, and the sum of the input minus the deblocked sample.
#[derive(Clone, Copy)]
pub(crate) struct Tally {
    pub(crate) count: u32,
    pub(crate) sum: i32,
}

impl Tally {
    /// No samples.
    pub(crate) const NONE: Tally = Tally { count: 0, sum: 0 };

    /// One sample more: as it is in the input, and as deblocked.
    #[inline(always)]
    pub(crate) fn with(self, input: u8, deblocked: u8) -> Self
        requires count { self.count < 2 ^ 24 }
        requires sum { unsigned_abs self.sum < 2 ^ 30 }
        ensures count { result.count ≡ self.count + 1 }
        ensures sum { result.sum ≡ self.sum +ℤ (pos input -ℤ pos deblocked) }
    {
        Tally {
            count: self.count + 1,
            sum: self.sum + (i32::from(input) - i32::from(deblocked)),
        }
    }
}
