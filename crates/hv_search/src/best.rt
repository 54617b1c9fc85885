//! The better of two places of a search.
ghost use Rattle.std.specs.Prelude.{◌≡◌, cond, nat_lt};

/// A place of a search, so many columns and rows behind the first one, and its score.
#[derive(Clone, Copy)]
pub(crate) struct Best {
    pub(crate) sum: u32,
    pub(crate) right: u8,
    pub(crate) down: u8,
}

/// The second of two where its score is less, else the first.
#[inline(always)]
pub(crate) fn better(first: Best, second: Best) -> Best
    ensures { result ≡ cond (nat_lt second.sum first.sum) second first }
{
    if second.sum < first.sum {
        second
    } else {
        first
    }
}
