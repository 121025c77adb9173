//! The sink over a writer of the system, as standard output.

ghost use Rattle.std.specs.Prelude.{◌≡◌};

use crate::sink::{Sink, SinkFault, count_failure};
use std::io::Write;
use std::marker::Model;

/// A writer of the system, as standard output. Nothing is told of its bytes.
///
/// A contract sees the count of failures, which each error raises, and so does a write that takes
/// nothing of a piece that is not empty. The writer is to keep no bytes back, since a failure that it
/// meets later is counted nowhere.
#[derive(Drop)]
pub struct RealSink<W> {
    writer: W,
    failures: u64,
}

impl<W> Model for RealSink<W> {
    ghost use Rattle.std.specs.Prelude.{ℕ};

    ghost Value = { ℕ };

    ghost view = { λ s. s.failures };
}

impl<W: Write + Drop> RealSink<W> {
    /// A sink over this writer, with no failure so far.
    pub fn new(writer: W) -> RealSink<W>
        ensures { result ≡ 0 }
    {
        RealSink {
            writer,
            failures: 0,
        }
    }
}

impl<W: Write> Sink for RealSink<W> {
    ghost use Rattle.std.specs.Prelude.{◌≡◌, None, length};
    ghost use Rattle.cni_io.specs.Sink.{failures_counted};

    ghost written = { λ _. None };

    ghost failure_count = { λ count. count };

    // a write leaves this count
    ghost write_gives = { λ before bytes answer now.
        now ≡ failures_counted before answer (length bytes) };

    fn write(&mut self, bytes: &[u8]) -> Result<usize, SinkFault> {
        let outcome = match self.writer.write(bytes) {
            Ok(taken) => Ok(taken),
            Err(_) => Err(SinkFault::Failed),
        };
        self.failures = count_failure(self.failures, &outcome, bytes.len());
        outcome
    }
}
