//! Whether a run is over. Nothing here takes memory.

ghost use Rattle.std.specs.Prelude.{◌≡◌, ◌≤◌, ◌<◌, ℕ, length, MatchBool};
ghost use Rattle.std.specs.Bool.{FalseIff};
ghost use Rattle.net_conf.specs.declared.list.NetList.{NetList};
ghost use Rattle.pod_file.specs.declared.command.Command.{Command};
ghost use Rattle.kernel_types.specs.declared.call.Call.{Call};
ghost use Rattle.kernel_types.specs.declared.call.Reply.{Reply};
ghost use Rattle.cni_verbs.specs.Script.{IsOpen, outside_advance};
ghost use Rattle.cni_verbs.specs.Phases.{KeepsOfList, state_in, state_outside};

use crate::phase::Phase;
use cni_addr::Addr;

fn passed_all<T>(items: &[T], passed: usize) -> bool
    ensures { MatchBool result (length items.now ≤ passed) (passed < length items.now) }
{
    passed >= items.len()
}

/// Whether the run of a list is over. One whose calls before or after the leases or whose questions aren't made ahead
/// yet isn't: an ADD makes a link and ends with its cached result, and a CHECK asks for a link at least. Nor is one
/// whose deletions aren't, of which that of the cached result is the last.
pub(crate) fn is_over(given: &[Addr], phase: &Phase) -> bool
    ensures { (list : NetList) (c : Command) (room made : ℕ)
        → KeepsOfList list c room made given.now phase.now
        → FalseIff result (IsOpen (state_in list c given.now phase.now)) }
{
    match phase {
        Phase::AtBegin
        | Phase::Begun
        | Phase::BeforeLeases { .. }
        | Phase::Leasing
        | Phase::Leased
        | Phase::ReadingCache(_)
        | Phase::CacheRead(_)
        | Phase::FindingEntry
        | Phase::Found(_)
        | Phase::Changing(_) => false,
        Phase::AfterLeases { calls, passed, .. } => passed_all(calls.as_slice(), *passed),
        Phase::Deleting {
            deletions,
            passed,
            ..
        } => passed_all(deletions.as_slice(), *passed),
        Phase::Asking { questions, passed } => passed_all(questions.as_slice(), *passed),
        Phase::Over(_) => true,
    }
}

/// Whether the run of no network has its change still to make.
pub(crate) fn is_changing(phase: &Phase) -> bool
    ensures { MatchBool result
        ((change : Call) × (phase.now ≡ Phase.Changing change))
        (((number : ℕ) (reply : Reply)
        → outside_advance number (state_outside phase.now) reply ≡ state_outside phase.now)
        × (IsOpen (state_outside phase.now) → ⊥)) }
{
    match phase {
        Phase::Changing(_) => true,
        _ => false,
    }
}

/// Whether the run of no network is over.
pub(crate) fn is_over_outside(phase: &Phase) -> bool
    ensures { FalseIff result (IsOpen (state_outside phase.now)) }
{
    !is_changing(phase)
}
