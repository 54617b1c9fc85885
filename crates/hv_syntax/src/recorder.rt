//! What compares the bins that it is given with those that a test expects.

use hv_tables::{BinSink, Ctx, CtxTable};

/// A bin: with the context variable of this place in its table (9.3.4.2), in bypass, or before
/// terminate.
#[derive(Clone, Copy, PartialEq, Eq)]
pub(crate) enum Bin {
    Coded(CtxTable, u8, bool),
    Bypass(bool),
    Terminate(bool),
}

/// Which bins are compared.
#[derive(Clone, Copy)]
pub(crate) enum Compared {
    All,
    /// Those of `split_cu_flag`.
    Splits,
    /// `prev_intra_luma_pred_flag`, and the bins in bypass.
    Modes,
}

impl Compared {
    /// Whether this bin is compared.
    fn has(self, bin: Bin) -> bool {
        match bin {
            Bin::Coded(table, _, _) => match self {
                Compared::All => true,
                Compared::Splits => table == CtxTable::Split,
                Compared::Modes => table == CtxTable::PrevIntra,
            },
            Bin::Bypass(_) => !matches!(&self, Compared::Splits),
            Bin::Terminate(_) => matches!(&self, Compared::All),
        }
    }
}

/// It counts the bins that it is given, and compares some of them with those that are expected.
#[derive(Drop)]
pub(crate) struct Recorder {
    compared: Compared,
    expected: &'static [Bin],
    place: usize,
    are_same: bool,
    /// How many bins it was given.
    pub(crate) count: u64,
}

impl Recorder {
    /// One that was given no bin.
    pub(crate) fn new(compared: Compared, expected: &'static [Bin]) -> Recorder {
        Recorder {
            compared,
            expected,
            place: 0,
            are_same: true,
            count: 0,
        }
    }

    /// Whether the bins that are compared are those that are expected.
    pub(crate) fn is_met(&self) -> bool {
        self.are_same && self.place == self.expected.len()
    }

    /// One more bin.
    fn take(&mut self, bin: Bin) {
        self.count = self.count.saturating_add(1);
        if !self.compared.has(bin) {
            return;
        }
        self.are_same = self.are_same && self.expected.get(self.place) == Some(&bin);
        self.place = self.place.saturating_add(1);
    }
}

impl BinSink for Recorder {
    ghost use Rattle.std.specs.Prelude.{List, ℕ};
    ghost use Rattle.hv_tables.specs.declared.bins.SliceKind.{SliceKind};
    ghost use Rattle.hv_tables.specs.Bins.{Bin};

    /// It stands for any bins: what a test sees of it is what it compared.
    ghost stands_for = { λ recorder kind qp bins. Unit {0} };

    fn bin(&mut self, context: Ctx, value: bool) {
        self.take(Bin::Coded(context.table, context.index, value));
    }

    fn bypass(&mut self, value: bool) {
        self.take(Bin::Bypass(value));
    }

    fn terminate(&mut self, value: bool) {
        self.take(Bin::Terminate(value));
    }
}
