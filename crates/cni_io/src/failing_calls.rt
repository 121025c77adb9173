//! Which calls fail, by their numbers: what files and sinks in memory share.

ghost use Rattle.std.specs.Prelude.{◌≡◌};
ghost use Rattle.cni_io.specs.FailingCalls.{CallsState, fails_next, with_next_call};

use std::marker::Model;

/// Calls that are numbered from 1, some of which fail.
#[derive(Drop)]
pub(crate) struct FailingCalls {
    failing: Vec<u64>,
    calls: u64,
}

impl Model for FailingCalls {
    ghost use Rattle.cni_io.specs.FailingCalls.{CallsState};

    ghost Value = { CallsState };

    ghost view = { λ s. record { failing = s.failing.items; calls = s.calls } };
}

impl FailingCalls {
    pub(crate) fn new(failing: Vec<u64>) -> FailingCalls
        ensures { result ≡ record { failing = failing.items; calls = 0 } }
    {
        FailingCalls { failing, calls: 0 }
    }

    /// Counts a call, and says whether it fails.
    pub(crate) fn next_fails(&mut self) -> bool
        ensures fails { result ≡ fails_next self.old }
        ensures counts { self.new ≡ with_next_call self.old }
    {
        if self.calls == u64::MAX {
            return false;
        }
        self.calls += 1;
        self.failing.contains(&self.calls)
    }
}
