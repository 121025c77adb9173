//! Writing all of some bytes to a sink, in as many writes as that takes.

ghost use Rattle.std.specs.Prelude.{◌≡◌, ◌≤◌, ◌<◌, ◌^◌, OnErr, length, take};
ghost use Rattle.std.specs.Io.KnownBytes.{append_known};
ghost use Rattle.cni_io.specs.Failures.{Rose};
ghost use Rattle.cni_io.specs.Whole.{written_of, IsRunOfWrites};

use crate::sink::{Sink, SinkFault};
use thiserror::Error;

/// How a write of the whole ended early, after so many bytes.
#[derive(Clone, Copy, Debug, PartialEq, Eq, Error)]
pub enum WriteEnd {
    /// A write failed.
    #[error("a write failed after {written} bytes")]
    Failed { written: u64 },
    /// A write took nothing of what was left.
    #[error("nothing was taken after {written} bytes")]
    TookNothing { written: u64 },
}

/// Writes all the bytes, each time what is left of them, and stops at the first write that fails or
/// takes nothing. It takes no memory.
pub fn write_whole<S: Sink>(sink: &mut S, bytes: &[u8]) -> Result<(), WriteEnd>
    ensures appended { let written = written_of (length bytes.now) result in
        S.written sink.new ≡ append_known (S.written sink.old) (take written bytes.now) }
    ensures writes { IsRunOfWrites S.write_gives bytes.now sink.old sink.new result }
    ensures cause { OnErr result (Rose (S.failure_count sink.old) (S.failure_count sink.new)) }
    ensures later { S.failure_count sink.old ≤ S.failure_count sink.new }
    ensures bounded { S.failure_count sink.old < 2 ^ 64 → S.failure_count sink.new < 2 ^ 64 }
{
    let mut done = 0;
    while done < bytes.len() {
        match sink.write(&bytes[done..]) {
            Ok(0) => {
                return Err(WriteEnd::TookNothing {
                    written: done as u64,
                });
            }
            Ok(taken) => done += taken,
            Err(SinkFault::Failed) => {
                return Err(WriteEnd::Failed {
                    written: done as u64,
                });
            }
        }
    }
    Ok(())
}
