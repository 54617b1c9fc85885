//! The counter of bins.

ghost use Rattle.std.specs.Prelude.{◌≡◌, ◌+◌, ℕ, List, [], min, length};
ghost use Rattle.hv_tables.specs.declared.bins.SliceKind.{SliceKind};
ghost use Rattle.hv_tables.specs.Bins.{Bin};

use hv_tables::{BinSink, Ctx};

/// Counts the bins that it takes, of a slice of any kind and quantiser, and stays at `u64::MAX`
/// where there are more.
#[derive(Drop)]
pub struct Counter {
    count: u64,
}

impl Counter {
    ghost use Rattle.hv_cabac.specs.Counting.{Counts};

    /// A counter that has taken no bins.
    pub fn new() -> Counter
        ensures { (kind : SliceKind) (qp : ℕ) → Counts result kind qp [] }
    {
        Counter { count: 0 }
    }

    /// The number of bins, or `u64::MAX` where there are more.
    pub fn count(&self) -> u64
        ensures { (kind : SliceKind) (qp : ℕ) (bins : List Bin) → Counts self.now kind qp bins →
            result ≡ min (length bins) u64.MAX }
    {
        self.count
    }

    /// One more bin.
    #[inline(always)]
    fn step(&mut self)
        ensures { self.new.count ≡ min (self.old.count + 1) u64.MAX }
    {
        self.count = self.count.saturating_add(1);
    }
}

impl BinSink for Counter {
    ghost use Rattle.hv_cabac.specs.Counting.{Counts};

    ghost stands_for = { Counts };

    #[inline(always)]
    fn bin(&mut self, _context: Ctx, _value: bool) {
        self.step();
    }

    #[inline(always)]
    fn bypass(&mut self, _value: bool) {
        self.step();
    }

    #[inline(always)]
    fn terminate(&mut self, _value: bool) {
        self.step();
    }
}
