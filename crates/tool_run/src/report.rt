//! What a run writes, and the status that it ends with.

ghost use Rattle.tool_run.specs.Reports.{Reported, Reports, ReportsNoPlan};
ghost use Rattle.tool_run.specs.Seen.{sink_seen};

use crate::carry::CarriedOut;
use crate::session::RanSession;
use crate::settle::Settled;
use crate::top::Ended;
use cni_io::{Sink, write_whole};
use kernel_model::Kernel;
use pod_text::{MEMORY_STATUS, READ_STATUS, REFUSED_STATUS, USAGE_STATUS, WRITE_STATUS, status};
use session_text::session_status;
use tool_plan::{NoPlan, USAGE};

/// Writes the text of the book or of the session, or why there is neither.
pub(crate) fn report<K: Kernel + Drop, S: Sink>(
    sink: &mut S,
    settled: Result<Settled<K>, NoPlan>,
) -> Ended<K>
    ensures { Reported (sink_seen S.written S.failure_count sink.old sink.new) settled result }
{
    match settled {
        Ok(Settled::Plan(CarriedOut { book, text })) => Ended {
            status: write(sink, text.as_slice(), status(&book)),
            book: Some(book),
            session: None,
        },
        Ok(Settled::Session(RanSession { session, text })) => Ended {
            status: write(sink, text.as_slice(), session_status(&session)),
            book: None,
            session: Some(session),
        },
        Err(none) => Ended {
            status: report_no_plan(sink, none),
            book: None,
            session: None,
        },
    }
}

/// Writes why there is no plan, and returns the status.
fn report_no_plan<S: Sink>(sink: &mut S, none: NoPlan) -> u8
    ensures { ReportsNoPlan (sink_seen S.written S.failure_count sink.old sink.new) none result }
{
    match none {
        NoPlan::Usage => write(sink, USAGE, USAGE_STATUS),
        NoPlan::Line(line) => write(sink, line.as_slice(), REFUSED_STATUS),
        NoPlan::Unread(line) => write(sink, line.as_slice(), READ_STATUS),
        NoPlan::NoMemory => MEMORY_STATUS,
    }
}

/// Writes the bytes, and returns the status, or [`WRITE_STATUS`] where the sink gave up.
fn write<S: Sink>(sink: &mut S, bytes: &[u8], status: u8) -> u8
    ensures { Reports (sink_seen S.written S.failure_count sink.old sink.new) bytes.now status result }
{
    match write_whole(sink, bytes) {
        Ok(()) => status,
        Err(_) => WRITE_STATUS,
    }
}
