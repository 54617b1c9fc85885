//! Which calls of a source or a sink in memory fail.

ghost use Rattle.std.specs.Prelude.{◌≡◌};
ghost use Rattle.hv_types.specs.Outside.{Rises};
ghost use Rattle.hv_types.specs.Memory.{uncalled_script, is_failing, after_ok, after_fault};

use std::marker::Model;

/// The numbers of the calls that fail, and a count of the calls and of the faults. Contracts see
/// these three. The counters stay at their last value.
#[derive(Debug, Drop)]
pub(crate) struct Script {
    failing: Vec<u64>,
    calls: u64,
    faults: u64,
}

impl Model for Script {
    ghost use Rattle.hv_types.specs.Outside.{Rises};
    ghost use Rattle.hv_types.specs.Memory.{Script as Calls};

    ghost Value = { Calls };

    ghost view = { λ s. record { failing = s.failing.items; calls = s.calls; faults = s.faults } };
}

impl Script {
    /// No calls so far; those whose numbers, from 0, are in `failing` will fail.
    pub(crate) fn new(failing: Vec<u64>) -> Self
        ensures { result ≡ uncalled_script failing.items }
    {
        Script {
            failing,
            calls: 0,
            faults: 0,
        }
    }

    /// Whether the next call is one of those that fail.
    pub(crate) fn is_failing(&self) -> bool
        ensures { result ≡ is_failing self.now }
    {
        self.failing.contains(&self.calls)
    }

    /// Counts a call that doesn't fail.
    pub(crate) fn count(&mut self)
        ensures { self.new ≡ after_ok self.old }
    {
        self.calls = self.calls.saturating_add(1);
    }

    /// Counts a call that fails.
    pub(crate) fn count_fault(&mut self)
        ensures after { self.new ≡ after_fault self.old }
        ensures rises { Rises self.old.faults self.new.faults }
    {
        self.calls = self.calls.saturating_add(1);
        self.faults = self.faults.saturating_add(1);
    }
}
