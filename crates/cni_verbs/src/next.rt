//! The call that a run makes next.

ghost use Rattle.std.specs.Prelude.{◌≡◌, ℕ, ◌<◌, true, Some, length, slice_get, option_map, IfOk};
ghost use Rattle.kernel_types.specs.declared.call.Call.TheVariants as call;
ghost use Rattle.cni_errors.specs.CommandFields.{att_of};
ghost use Rattle.plugin_chain.specs.Wanted.{result_of_add, sets_of};
ghost use Rattle.cni_verbs.specs.Script.{before_of, back_of, next_call};
ghost use Rattle.cni_verbs.specs.Phases.{KeepsOfList, deletions_of, is_prepared, state_in, state_outside};

use crate::mappings::mappings_of;
use crate::phase::Phase;
use cni_addr::{Addr, Duplicate, Items, NoMemory, RefCounted};
use cni_errors::Question;
use cni_errors::fields::att_of;
use host_local::lease_at;
use kernel_types::{Call, NamedAtt};
use net_conf::NetList;
use plugin_chain::plugins::calls_before;
use plugin_chain::wanted::{Back, back_calls, deletion, kinds_of, sets_of};
use pod_file::Command;
use std::alloc::Global;

// ---- the calls that are made ahead

/// The calls of an ADD between Begin and its first lease.
pub(crate) fn before_of(
    alloc: Global,
    list: &NetList,
    command: &Command,
    names: &NamedAtt,
) -> Result<Items<Call>, NoMemory>
    requires { names.now ≡ att_of command.now }
    ensures calls { IfOk result (λ calls. calls ≡ before_of list.now command.now) }
    ensures some { IfOk result (λ calls. 0 < length calls) }
{
    calls_before(alloc, &list.first, names, &command.netns)
}

/// The calls of an ADD after its last lease, and its result.
pub(crate) fn back_of(
    alloc: Global,
    list: &NetList,
    command: &Command,
    names: &NamedAtt,
    given: &[Addr],
) -> Result<Back, NoMemory>
    requires { names.now ≡ att_of command.now }
    ensures calls { IfOk result (λ back. back.calls ≡ back_of list.now command.now given.now) }
    ensures added { IfOk result (λ back.
        back.cached.result ≡ result_of_add list.now (att_of command.now) command.now.netns given.now) }
{
    let mappings = mappings_of(alloc, list, command)?;
    back_calls(alloc, list, names, &command.netns, mappings, given)
}

/// The deletion of each kind of the list. A run makes one until nothing is left of its kind, and the history shares it.
pub(crate) fn deletions_of(
    alloc: Global,
    list: &NetList,
    command: &Command,
) -> Result<Items<RefCounted<Call>>, NoMemory>
    ensures { IfOk result (λ calls. calls ≡ deletions_of list.now command.now) }
{
    let kinds = kinds_of(alloc, list)?;
    let mut calls = Vec::with_capacity(alloc, kinds.as_slice().len())?;
    for kind in kinds.as_slice() {
        calls.push(RefCounted::of(alloc, deletion(att_of(command)?, *kind))?)?;
    }
    Ok(Items::of_vec(calls))
}

// ---- the next call
//
// Each call is built in a function of its own, so that a step doesn't clear a stack for all of them.

#[inline(never)]
fn begin(alloc: Global, command: &Command) -> Result<Option<RefCounted<Call>>, NoMemory>
    ensures { IfOk result (λ next. next ≡ Some (call.Begin (att_of command.now) command.now.netns)) }
{
    let att = att_of(command)?;
    let netns = command.netns.copy()?;
    Ok(Some(RefCounted::of(alloc, Call::Begin { att, netns })?))
}

#[inline(never)]
fn call_at(calls: &[RefCounted<Call>], place: usize) -> Result<Option<RefCounted<Call>>, NoMemory>
    ensures { IfOk result (λ next. next ≡ slice_get calls.now place) }
{
    match calls.get(place) {
        Some(call) => Ok(Some(call.copy()?)),
        None => Ok(None),
    }
}

#[inline(never)]
fn lease_next(
    alloc: Global,
    list: &NetList,
    command: &Command,
    place: usize,
) -> Result<Option<RefCounted<Call>>, NoMemory>
    requires { place < length (sets_of list.now) }
    ensures { IfOk result (λ next.
        next ≡ option_map (call.LeaseNext (att_of command.now) place) (slice_get (sets_of list.now) place)) }
{
    let sets = sets_of(list);
    match lease_at(sets, att_of(command)?, place as u32)? {
        Some(call) => Ok(Some(RefCounted::of(alloc, call)?)),
        None => Ok(None),
    }
}

#[inline(never)]
fn call_asked(questions: &[Question], place: usize) -> Result<Option<RefCounted<Call>>, NoMemory>
    ensures { IfOk result (λ next. next ≡ option_map (λ question. question.call) (slice_get questions.now place)) }
{
    match questions.get(place) {
        Some(question) => Ok(Some(question.call.copy()?)),
        None => Ok(None),
    }
}

#[inline(never)]
fn cache_get(alloc: Global, command: &Command) -> Result<Option<RefCounted<Call>>, NoMemory>
    ensures { IfOk result (λ next. next ≡ Some (call.CacheGet (att_of command.now))) }
{
    let att = att_of(command)?;
    Ok(Some(RefCounted::of(alloc, Call::CacheGet { att })?))
}

#[inline(never)]
fn change_of(change: &RefCounted<Call>) -> Result<Option<RefCounted<Call>>, NoMemory>
    ensures { IfOk result (λ next. next ≡ Some change.now) }
{
    Ok(Some(change.copy()?))
}

/// The call that the run of this list makes next.
pub(crate) fn next_of(
    alloc: Global,
    list: &NetList,
    command: &Command,
    given: &[Addr],
    phase: &Phase,
) -> Result<Option<RefCounted<Call>>, NoMemory>
    requires kept { (room : ℕ) × (made : ℕ)
        × KeepsOfList list.now command.now room made given.now phase.now }
    requires prepared { is_prepared phase.now ≡ true }
    ensures { IfOk result (λ next. next ≡ next_call command.now (state_in list.now command.now given.now phase.now)) }
{
    match phase {
        Phase::AtBegin => begin(alloc, command),
        Phase::BeforeLeases { calls, passed } => call_at(calls.as_slice(), *passed),
        Phase::Leasing => lease_next(alloc, list, command, given.len()),
        Phase::AfterLeases { calls, passed, .. } => call_at(calls.as_slice(), *passed),
        Phase::ReadingCache(_) | Phase::FindingEntry => cache_get(alloc, command),
        Phase::Deleting {
            deletions,
            passed,
            ..
        } => call_at(deletions.as_slice(), *passed),
        Phase::Asking { questions, passed } => call_asked(questions.as_slice(), *passed),
        Phase::Changing(change) => change_of(change),
        Phase::Over(_) => Ok(None),
        Phase::Begun | Phase::Leased | Phase::CacheRead(_) | Phase::Found(_) => unreachable!(),
    }
}

/// The call that the run of no network makes next.
#[tactic(auto, unfolding(crate::specs::Script::next_call))]
pub(crate) fn next_outside(
    command: &Command,
    phase: &Phase,
) -> Result<Option<RefCounted<Call>>, NoMemory>
    ensures { IfOk result (λ next. next ≡ next_call command.now (state_outside phase.now)) }
{
    match phase {
        Phase::Changing(change) => change_of(change),
        _ => Ok(None),
    }
}
