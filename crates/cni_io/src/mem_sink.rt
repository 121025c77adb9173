//! A sink in memory: it tells what it was given, and some of its writes fail, as a test wants it.

ghost use Rattle.std.specs.Prelude.{◌≡◌, IfOk, []};

use crate::failing_calls::FailingCalls;
use crate::sink::{Sink, SinkFault, count_failure};
use cni_addr::NoMemory;
use std::alloc::Global;
use std::marker::Model;

/// A sink in memory, which tells its bytes, and some of whose writes fail.
///
/// Writes are numbered from 1 up to `u64::MAX`. A write whose number is among the failing ones
/// answers `Failed` and appends nothing, and later writes do not fail. Each other write takes as
/// much of its piece as `most` and the room that is left allow, which may be nothing.
#[derive(Drop)]
pub struct MemSink {
    written: Vec<u8>,
    most: usize,
    room: usize,
    writes: FailingCalls,
    failures: u64,
}

impl Model for MemSink {
    ghost use Rattle.std.specs.Prelude.{◌≤◌, ◌+◌, vec_len};
    ghost use Rattle.std.specs.Vec.{vec_capacity};
    ghost use Rattle.cni_io.specs.Memory.{SinkState};

    ghost Value = { SinkState };

    ghost view = { λ s. record {
      written = s.written.items;
      most = s.most;
      room = s.room;
      writes = s.writes;
      failures = s.failures;
    } };

    // the room that is left was reserved
    ghost invariant = { λ s. vec_len s.written + s.room ≤ vec_capacity s.written };
}

impl MemSink {
    /// An empty sink with room for `room` bytes, of which each write takes `most` at most.
    pub fn new(
        alloc: Global,
        failing: Vec<u64>,
        most: usize,
        room: usize,
    ) -> Result<MemSink, NoMemory>
        ensures { IfOk result (λ sink. sink ≡ record {
          written = [];
          most = most;
          room = room;
          writes = record { failing = failing.items; calls = 0 };
          failures = 0;
        }) }
    {
        Ok(MemSink {
            written: Vec::with_capacity(alloc, room)?,
            most,
            room,
            writes: FailingCalls::new(failing),
            failures: 0,
        })
    }

    /// The bytes written so far.
    pub fn written(&self) -> &[u8]
        ensures { result.now ≡ self.now.written }
    {
        self.written.as_slice()
    }
}

impl Sink for MemSink {
    ghost use Rattle.std.specs.Prelude.{◌≡◌, Some, length};
    ghost use Rattle.cni_io.specs.Memory.{next_write, sink_after};

    ghost written = { λ s. Some s.written };

    ghost failure_count = { λ s. s.failures };

    // a write answers so, and leaves this sink
    ghost write_gives = { λ s bytes answer t.
        (answer ≡ next_write s (length bytes)) × (t ≡ sink_after s bytes) };

    fn write(&mut self, bytes: &[u8]) -> Result<usize, SinkFault> {
        let outcome = if self.writes.next_fails() {
            Err(SinkFault::Failed)
        } else {
            Ok(bytes.len().min(self.most.min(self.room)))
        };
        self.failures = count_failure(self.failures, &outcome, bytes.len());
        let taken = outcome?;
        self.written.extend_from_slice(&bytes[..taken]).unwrap();
        self.room -= taken;
        Ok(taken)
    }
}
