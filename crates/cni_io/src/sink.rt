//! What it is to take output: the trait, and why a piece was not written.

ghost use Rattle.std.specs.Prelude.{◌≡◌};
ghost use Rattle.cni_io.specs.Sink.{failures_counted};

use thiserror::Error;

/// Why a piece was not written.
#[derive(Clone, Copy, Debug, PartialEq, Eq, Error)]
pub enum SinkFault {
    #[error("the write failed")]
    Failed,
}

/// What takes bytes, a piece at a time.
pub trait Sink {
    ghost use Rattle.std.specs.Prelude.{◌≡◌, ℕ, ◌≤◌, List, Option, Result, IfOk, length, take};
    ghost use Rattle.std.specs.Io.KnownBytes.{append_known};
    ghost use Rattle.cni_io.specs.Failures.{CountsFailure};
    ghost use Rattle.cni_io.specs.Sink.{taken_of, IsFailure};
    ghost use Rattle.cni_io.specs.declared.sink.SinkFault.{SinkFault};

    // the bytes written so far, where they are told
    ghost written: { Self → Option (List ℕ) };

    // a count of failures, which each write raises that fails, or takes nothing of a piece that is
    // not empty
    ghost failure_count: { Self → ℕ };

    // what a write of these bytes may answer, and the sink that it may leave
    ghost write_gives: { Self → List ℕ → Result ℕ SinkFault → Self → Type 0 };

    /// Writes some of the bytes, from the first on, and says how many. It takes no memory.
    fn write(&mut self, bytes: &[u8]) -> Result<usize, SinkFault>
        ensures bound { IfOk result (λ taken. taken ≤ length bytes.now) }
        ensures appended { written self.new
            ≡ append_known (written self.old) (take (taken_of result) bytes.now) }
        ensures cause { CountsFailure (failure_count self.old) (failure_count self.new)
            (IsFailure result (length bytes.now)) }
        ensures gives { write_gives self.old bytes.now result self.new };
}

/// The count of failures after a write of a piece of this length.
pub(crate) fn count_failure(failures: u64, outcome: &Result<usize, SinkFault>, len: usize) -> u64
    ensures { result ≡ failures_counted failures outcome.now len }
{
    match outcome {
        Ok(taken) if *taken > 0 || len == 0 => failures,
        Ok(_) | Err(SinkFault::Failed) => failures.saturating_add(1),
    }
}
