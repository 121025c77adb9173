//! How far a run has come.

ghost use Rattle.std.specs.Prelude.{◌≡◌};

use cni_addr::{Items, RefCounted};
use cni_errors::{Cause, Ending, Question};
use cni_result::Cached;
use kernel_types::Call;

/// What a run does next. The numbers say how much of a list that is made ahead is behind it.
#[derive(Drop)]
pub(crate) enum Phase {
    /// Nothing was called.
    AtBegin,
    /// Begin was done, and the calls before the leases aren't made ahead yet.
    Begun,
    /// So many calls of the first plugin were made, and some are left before the leases.
    BeforeLeases {
        calls: Items<RefCounted<Call>>,
        passed: usize,
    },
    /// Sets are left to lease from.
    Leasing,
    /// No set is left to lease from, and the calls after the leases aren't made ahead yet.
    Leased,
    /// So many of the calls after the leases are behind it, and this is the cached result that the last of them puts:
    /// its result is the ADD's.
    AfterLeases {
        calls: Items<RefCounted<Call>>,
        passed: usize,
        cached: RefCounted<Cached>,
    },
    /// The cached result is read ahead of the deletions.
    ReadingCache(Ending),
    /// The cached result was read ahead of the deletions, which aren't made ahead yet.
    CacheRead(Ending),
    /// Nothing is left of so many kinds. There is a deletion of each kind, which is made until nothing is left of it.
    Deleting {
        deletions: Items<RefCounted<Call>>,
        passed: usize,
        ending: Ending,
    },
    /// The cached result is read ahead of the questions of a check.
    FindingEntry,
    /// A CHECK asks about this cached result, and its questions aren't made ahead yet.
    Found(RefCounted<Cached>),
    /// So many questions were answered with yes.
    Asking {
        questions: Items<Question>,
        passed: usize,
    },
    /// A change from outside is made by this call.
    Changing(RefCounted<Call>),
    Over(Ending),
}

impl Phase {
    /// The end of a run that is refused for this cause.
    pub(crate) fn refused(cause: Cause) -> Phase
        ensures { result ≡ Phase.Over (Ending.Refused cause) }
    {
        Phase::Over(Ending::Refused(cause))
    }
}
