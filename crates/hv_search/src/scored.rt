//! The better of two vectors.
ghost use Rattle.std.specs.Prelude.{◌≡◌, cond, nat_lt};

use hv_plan::Mv;

/// A vector and its score.
#[derive(Clone, Copy)]
pub(crate) struct Scored {
    pub(crate) sum: u64,
    pub(crate) mv: Mv,
}

/// The second of two where its score is less, else the first.
#[inline(always)]
pub(crate) fn better(first: Scored, second: Scored) -> Scored
    ensures { result ≡ cond (nat_lt second.sum first.sum) second first }
{
    if second.sum < first.sum {
        second
    } else {
        first
    }
}
