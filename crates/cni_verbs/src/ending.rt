//! What a run answers at its end.

ghost use Rattle.std.specs.Prelude.{◌≡◌, ℕ, Some, None, IfOk};
ghost use Rattle.cni_verbs.specs.Script.{IsOpen};
ghost use Rattle.cni_verbs.specs.Endings.{answer_of_ending};
ghost use Rattle.cni_verbs.specs.Progress.{answer_in};
ghost use Rattle.cni_verbs.specs.Phases.{KeepsOfList, state_in, state_outside};

use crate::over::{is_over, is_over_outside};
use crate::phase::Phase;
use cni_addr::{Addr, Duplicate, NoMemory, RefCounted};
use cni_errors::fields::named_att_of;
use cni_errors::{Answer, Ending, plain_answer};
use cni_result::Version;
use net_conf::NetList;
use plugin_chain::wanted::result_of_add;
use pod_file::Command;
use std::alloc::Global;

// ---- a verb of a network

fn added(
    alloc: Global,
    list: &NetList,
    command: &Command,
    given: &[Addr],
) -> Result<Answer, NoMemory>
    ensures { IfOk result (λ answer. answer ≡ answer_of_ending list.now command.now Ending.Added given.now) }
{
    let att = named_att_of(alloc, command)?;
    let added = result_of_add(alloc, list, &att, &command.netns, given)?;
    Ok(Answer::Added(RefCounted::of(alloc, added)?))
}

fn ended(
    alloc: Global,
    list: &NetList,
    command: &Command,
    ending: &Ending,
    given: &[Addr],
) -> Result<Answer, NoMemory>
    ensures { IfOk result (λ answer. answer ≡ answer_of_ending list.now command.now ending.now given.now) }
{
    match ending {
        Ending::Added => added(alloc, list, command, given),
        Ending::Yes | Ending::Skipped(_) | Ending::Versions | Ending::Refused(_) => {
            plain_answer(alloc, list.version, command, ending)
        }
    }
}

fn answer_at_end(
    alloc: Global,
    list: &NetList,
    command: &Command,
    given: &[Addr],
    phase: &Phase,
) -> Result<Answer, NoMemory>
    requires kept { (room : ℕ) × (made : ℕ)
        × KeepsOfList list.now command.now room made given.now phase.now }
    requires over { IsOpen (state_in list.now command.now given.now phase.now) → ⊥ }
    ensures { IfOk result (λ answer.
        Some answer ≡ answer_in (Some list.now) command.now (state_in list.now command.now given.now phase.now)) }
{
    match phase {
        Phase::AfterLeases { cached, .. } => {
            let added = cached.get().result.copy()?;
            Ok(Answer::Added(RefCounted::of(alloc, added)?))
        }
        Phase::Deleting { ending, .. } => ended(alloc, list, command, ending, &[]),
        Phase::Asking { .. } => ended(alloc, list, command, &Ending::Yes, &[]),
        Phase::Over(ending) => ended(alloc, list, command, ending, &[]),
        Phase::AtBegin
        | Phase::Begun
        | Phase::BeforeLeases { .. }
        | Phase::Leasing
        | Phase::Leased
        | Phase::ReadingCache(_)
        | Phase::CacheRead(_)
        | Phase::FindingEntry
        | Phase::Found(_)
        | Phase::Changing(_) => unreachable!(),
    }
}

/// What the run of this list answers, where it is over.
pub(crate) fn answer_in(
    alloc: Global,
    list: &NetList,
    command: &Command,
    given: &[Addr],
    phase: &Phase,
) -> Result<Option<Answer>, NoMemory>
    requires { (room : ℕ) × (made : ℕ)
        × KeepsOfList list.now command.now room made given.now phase.now }
    ensures { IfOk result (λ answer.
        answer ≡ answer_in (Some list.now) command.now (state_in list.now command.now given.now phase.now)) }
{
    if is_over(given, phase) {
        Ok(Some(answer_at_end(alloc, list, command, given, phase)?))
    } else {
        Ok(None)
    }
}

// ---- a change from outside

/// What the run of no network answers, where it is over.
#[tactic(auto, unfolding(crate::specs::Endings::answer_outside, crate::specs::Script::finish_of))]
pub(crate) fn answer_outside(
    alloc: Global,
    command: &Command,
    phase: &Phase,
) -> Result<Option<Answer>, NoMemory>
    ensures { IfOk result (λ answer. answer ≡ answer_in None command.now (state_outside phase.now)) }
{
    if !is_over_outside(phase) {
        return Ok(None);
    }
    match phase {
        Phase::Over(ending) => Ok(Some(plain_answer(alloc, Version::V1_1, command, ending)?)),
        _ => Ok(Some(Answer::Yes)),
    }
}
