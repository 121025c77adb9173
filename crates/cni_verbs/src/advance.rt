//! The phase after a reply. Where the reply grants what was asked in the midst of a list, the phase stays in its place
//! and a number in it goes up. Memory is taken for copies alone: of the tag in the way, which the error names, and of
//! the cached result that a CHECK asks about.

ghost use Rattle.std.specs.Prelude.{◌≡◌, ℕ, ◌+◌, ◌<◌, ◌≤◌, ◌^◌, [], ◌∷◌, List, length, drop, slice_get, Some};
ghost use Rattle.std.specs.Prelude.{vec_capacity, false, IfOk, IsOk, OnErr, OnOk};
ghost use Rattle.std.specs.Option.{unwrap_or};
ghost use Rattle.cni_addr.specs.declared.address.Addr.{Addr};
ghost use Rattle.cni_result.specs.declared.cached.Cached.{Cached};
ghost use Rattle.net_conf.specs.declared.list.NetList.{NetList};
ghost use Rattle.pod_file.specs.declared.command.Command.{Command};
ghost use Rattle.kernel_types.specs.Replies.{holds_text_or_list};
ghost use Rattle.kernel_types.specs.declared.call.Call.{Call};
ghost use Rattle.kernel_types.specs.declared.call.Kind.{Kind};
ghost use Rattle.cni_errors.specs.CommandFields.{att_of};
ghost use Rattle.plugin_chain.specs.Wanted.{sets_of, kinds_of, result_of_add};
ghost use Rattle.cni_verbs.specs.Script.{IsOpen};
ghost use Rattle.cni_verbs.specs.Script as script;
ghost use Rattle.cni_errors.specs.declared.answer.Question.{Question};
ghost use Rattle.cni_verbs.specs.Phases.{Awaits, KeepsAhead, Stands, IsPhaseOf, deletions_of, state_in, state_outside};

use crate::over::is_changing;
use crate::phase::Phase;
use cni_addr::{Addr, Duplicate, Items, NoMemory, RefCounted};
use cni_errors::{Cause, Ending, Question};
use kernel_types::{Call, Reply};
use std::alloc::Global;
use std::mem::replace;

// ---- refusals

fn cause_of(set: u32, number: u64, reply: &Reply) -> Result<Cause, NoMemory>
    ensures ok { IfOk result (λ cause. cause ≡ script.cause_of set number reply.now) }
    ensures frees { holds_text_or_list reply.now ≡ false → IsOk result }
{
    match reply {
        Reply::NoNs => Ok(Cause::NoNamespace),
        Reply::NoLink => Ok(Cause::NoMaster),
        Reply::Taken(tag) => Ok(Cause::NameTaken(tag.copy()?)),
        Reply::Empty => Ok(Cause::PoolEmpty(set)),
        Reply::Done
        | Reply::Leased(_)
        | Reply::Gone(_)
        | Reply::Has(_)
        | Reply::Owners(_)
        | Reply::Entry(_)
        | Reply::Fault => Ok(Cause::Fault(number)),
    }
}

/// Reads the cached result ahead of the deletions, of a run that this reply refuses.
fn undoing(set: u32, number: u64, refusal: &Reply) -> Result<Phase, NoMemory>
    ensures ok { IfOk result (λ next. next
        ≡ Phase.ReadingCache (Ending.Refused (script.cause_of set number refusal.now))) }
    ensures frees { holds_text_or_list refusal.now ≡ false → IsOk result }
{
    let cause = cause_of(set, number, refusal)?;
    Ok(Phase::ReadingCache(Ending::Refused(cause)))
}

fn faulted(number: u64, ending: Ending) -> Ending
    ensures { result ≡ script.faulted number ending }
{
    match ending {
        Ending::Added | Ending::Yes | Ending::Skipped(_) | Ending::Versions => {
            Ending::Refused(Cause::Fault(number))
        }
        Ending::Refused(cause) => Ending::Refused(cause),
    }
}

/// The ending that a phase holds, taken out ahead of the phase that comes in its place.
pub(crate) fn taken_out(ending: &mut Ending) -> Ending
    ensures { result ≡ ending.old }
{
    replace(ending, Ending::Yes)
}

// ---- where work is left

fn leasing(given: usize, sets: usize) -> Phase
    ensures { (list : NetList) (c : Command) (made : ℕ) (addrs : List Addr)
        → length (sets_of list) ≡ sets → length addrs ≡ given
        → IsPhaseOf list c made addrs result (script.leasing list c (drop given (sets_of list)) addrs) }
{
    if given < sets {
        Phase::Leasing
    } else {
        Phase::Leased
    }
}

/// Passes a call before the leases. Where it was the last, the leases are next.
fn pass_before(calls: &Items<RefCounted<Call>>, passed: &mut usize, sets: usize) -> Option<Phase>
    requires { passed.old < length calls.now }
    ensures { (list : NetList) (c : Command) (made : ℕ) → length (sets_of list) ≡ sets
        → IsPhaseOf list c made [] (unwrap_or result (Phase.BeforeLeases calls.now passed.new))
        (script.before_leases list c (drop (passed.old + 1) calls.now)) }
{
    let count = calls.as_slice().len();
    *passed += 1;
    if *passed < count {
        None
    } else {
        Some(leasing(0, sets))
    }
}

// ---- one reply: the next phase, or none where the one at hand goes on
//
// Each is a function of its own, so that a step doesn't clear a stack for all of them.

#[inline(never)]
fn after_begin(number: u64, reply: &Reply) -> Result<Phase, NoMemory>
    ensures ok { (list : NetList) (c : Command)
        → IfOk result (λ next. IsPhaseOf list c number [] next (script.at_begin list c number reply.now)) }
    ensures frees { holds_text_or_list reply.now ≡ false → IsOk result }
{
    match reply {
        Reply::Done => Ok(Phase::Begun),
        refusal => Ok(Phase::refused(cause_of(0, number, refusal)?)),
    }
}

#[inline(never)]
fn after_call_before(
    calls: &Items<RefCounted<Call>>,
    passed: &mut usize,
    sets: usize,
    number: u64,
    reply: &Reply,
) -> Result<Option<Phase>, NoMemory>
    requires { passed.old < length calls.now }
    ensures ok { (list : NetList) (c : Command) → length (sets_of list) ≡ sets
        → IfOk result (λ next. IsPhaseOf list c number []
        (unwrap_or next (Phase.BeforeLeases calls.now passed.new))
        (script.at_call_before list c number (drop (passed.old + 1) calls.now) reply.now)) }
    ensures err { OnErr result (passed.new ≡ passed.old) }
    ensures frees { holds_text_or_list reply.now ≡ false → IsOk result }
{
    match reply {
        Reply::Done => Ok(pass_before(calls, passed, sets)),
        refusal => Ok(Some(undoing(0, number, refusal)?)),
    }
}

#[inline(never)]
fn after_lease(
    given: &mut Vec<Addr>,
    sets: usize,
    number: u64,
    reply: &Reply,
) -> Result<Phase, NoMemory>
    requires left { length given.old.items < sets }
    requires few { sets < 2 ^ 32 }
    requires room { sets ≤ vec_capacity given.old }
    ensures ok { (list : NetList) (c : Command) → length (sets_of list) ≡ sets
        → IfOk result (λ next. IsPhaseOf list c number given.new.items next
        (script.at_lease list c number (drop (length given.old.items + 1) (sets_of list))
        given.old.items reply.now)) }
    ensures err { OnErr result (given.new ≡ given.old) }
    ensures frees { holds_text_or_list reply.now ≡ false → IsOk result }
    ensures room { sets ≤ vec_capacity given.new }
{
    match reply {
        Reply::Leased(addr) => {
            given.push_reserved(*addr);
            Ok(leasing(given.len(), sets))
        }
        refusal => {
            let set = given.len() as u32;
            undoing(set, number, refusal)
        }
    }
}

#[inline(never)]
fn after_call_after(
    passed: &mut usize,
    number: u64,
    reply: &Reply,
) -> Result<Option<Phase>, NoMemory>
    requires { passed.old < number }
    ensures ok { (list : NetList) (c : Command) (addrs : List Addr) (calls : List Call) (cached : Cached)
        → cached.result ≡ result_of_add list (att_of c) c.netns addrs
        → IfOk result (λ next. IsPhaseOf list c number addrs
        (unwrap_or next (Phase.AfterLeases calls passed.new cached))
        (script.at_call_after number (drop (passed.old + 1) calls) addrs reply.now)) }
    ensures err { OnErr result (passed.new ≡ passed.old) }
    ensures frees { holds_text_or_list reply.now ≡ false → IsOk result }
{
    match reply {
        Reply::Done => {
            *passed += 1;
            Ok(None)
        }
        refusal => Ok(Some(undoing(0, number, refusal)?)),
    }
}

#[inline(never)]
fn after_cache(number: u64, ending: &mut Ending, reply: &Reply) -> Phase
    ensures { (list : NetList) (c : Command) (addrs : List Addr)
        → IsPhaseOf list c number addrs result (script.at_cache list number ending.old reply.now) }
{
    let ending = taken_out(ending);
    match reply {
        Reply::Fault => Phase::Over(faulted(number, ending)),
        _ => Phase::CacheRead(ending),
    }
}

#[inline(never)]
fn after_deletion(
    passed: &mut usize,
    number: u64,
    ending: &mut Ending,
    reply: &Reply,
) -> Option<Phase>
    requires { passed.old < number }
    ensures { (list : NetList) (c : Command) (addrs : List Addr) (kind : Kind) (deletions : List Call)
        → deletions ≡ deletions_of list c
        → drop passed.old (kinds_of list) ≡ kind ∷ drop (passed.old + 1) (kinds_of list)
        → IsPhaseOf list c number addrs (unwrap_or result (Phase.Deleting deletions passed.new ending.new))
        (script.at_deletion number kind (drop (passed.old + 1) (kinds_of list)) ending.old reply.now) }
{
    match reply {
        Reply::Gone(false) => {
            *passed += 1;
            None
        }
        Reply::Fault => Some(Phase::Over(faulted(number, taken_out(ending)))),
        _ => None,
    }
}

#[inline(never)]
fn after_entry(number: u64, reply: &Reply) -> Result<Phase, NoMemory>
    ensures ok { (list : NetList) (c : Command) (addrs : List Addr)
        → IfOk result (λ next. IsPhaseOf list c number addrs next (script.at_entry list c number reply.now)) }
    ensures frees { holds_text_or_list reply.now ≡ false → IsOk result }
{
    match reply {
        Reply::Entry(Some(cached)) => Ok(Phase::Found(cached.copy()?)),
        Reply::Entry(None) => Ok(Phase::refused(Cause::Unknown)),
        _ => Ok(Phase::refused(Cause::Fault(number))),
    }
}

/// The end of a run whose question at this place was answered with no. The questions are taken out ahead of it.
fn denied(alloc: Global, questions: &mut Items<Question>, place: usize) -> Phase
    requires { place < length questions.old }
    ensures { (question : Question) → slice_get questions.old place ≡ Some question
        → result ≡ Phase.Over (Ending.Refused question.lack) }
{
    let taken = replace(questions, Items::new(alloc));
    let mut questions = taken.into_vec();
    let Question { call, lack } = questions.swap_remove(place);
    drop(call);
    drop(questions);
    Phase::refused(lack)
}

#[inline(never)]
fn after_question(
    alloc: Global,
    questions: &mut Items<Question>,
    passed: &mut usize,
    number: u64,
    reply: &Reply,
) -> Option<Phase>
    requires passed { passed.old < number }
    requires left { passed.old < length questions.old }
    ensures { (list : NetList) (c : Command) (addrs : List Addr) (question : Question)
        → slice_get questions.old passed.old ≡ Some question
        → IsPhaseOf list c number addrs (unwrap_or result (Phase.Asking questions.new passed.new))
        (script.at_question number question (drop (passed.old + 1) questions.old) reply.now) }
{
    match reply {
        Reply::Has(true) => {
            *passed += 1;
            None
        }
        Reply::Has(false) => Some(denied(alloc, questions, *passed)),
        _ => Some(Phase::refused(Cause::Fault(number))),
    }
}

// ---- a change from outside

fn changed(number: u64, reply: &Reply) -> Result<Ending, NoMemory>
    ensures ok { IfOk result (λ ending. ending ≡ script.changed number reply.now) }
    ensures frees { holds_text_or_list reply.now ≡ false → IsOk result }
{
    match reply {
        Reply::NoNs => Ok(Ending::Refused(Cause::NoNamespace)),
        Reply::Taken(tag) => Ok(Ending::Refused(Cause::NameTaken(tag.copy()?))),
        Reply::Gone(false) => Ok(Ending::Refused(Cause::NothingThere)),
        Reply::Fault => Ok(Ending::Refused(Cause::Fault(number))),
        _ => Ok(Ending::Yes),
    }
}

/// What a reply, the one of this number, makes of the phase of a run of no network.
pub(crate) fn after_outside(phase: &mut Phase, number: u64, reply: &Reply) -> Result<(), NoMemory>
    ensures ok { OnOk result (state_outside phase.new
        ≡ script.outside_advance number (state_outside phase.old) reply.now) }
    ensures err { OnErr result (phase.new ≡ phase.old) }
    ensures frees { holds_text_or_list reply.now ≡ false → IsOk result }
{
    if is_changing(phase) {
        let ending = changed(number, reply)?;
        let old = replace(phase, Phase::Over(ending));
        drop(old);
        Ok(())
    } else {
        Ok(())
    }
}

// ---- every phase

/// What a reply makes of the phase at hand: the next one, or none where this one goes on.
fn next_phase(
    phase: &mut Phase,
    given: &mut Vec<Addr>,
    sets: usize,
    made: u64,
    reply: &Reply,
) -> Result<Option<Phase>, NoMemory>
    requires numbered { made + 1 < 2 ^ 64 }
    requires stands { Stands sets made given.old.items phase.old }
    requires awaits { Awaits phase.old }
    requires few { sets < 2 ^ 32 }
    requires room { sets ≤ vec_capacity given.old }
    ensures ok { (list : NetList) (c : Command) → length (sets_of list) ≡ sets
        → KeepsAhead list c given.old.items phase.old
        → IsOpen (state_in list c given.old.items phase.old)
        → IfOk result (λ next. IsPhaseOf list c (made + 1) given.new.items (unwrap_or next phase.new)
        (script.advance list c (made + 1) (state_in list c given.old.items phase.old) reply.now)) }
    ensures err { OnErr result ((phase.new ≡ phase.old) × (given.new ≡ given.old)) }
    ensures frees { holds_text_or_list reply.now ≡ false → IsOk result }
    ensures room { sets ≤ vec_capacity given.new }
{
    let number = made + 1;
    match phase {
        Phase::AtBegin => Ok(Some(after_begin(number, reply)?)),
        Phase::BeforeLeases { calls, passed } => {
            after_call_before(calls, passed, sets, number, reply)
        }
        Phase::Leasing => Ok(Some(after_lease(given, sets, number, reply)?)),
        Phase::AfterLeases { passed, .. } => after_call_after(passed, number, reply),
        Phase::ReadingCache(ending) => Ok(Some(after_cache(number, ending, reply))),
        Phase::Deleting { passed, ending, .. } => {
            Ok(after_deletion(passed, number, ending, reply))
        }
        Phase::FindingEntry => Ok(Some(after_entry(number, reply)?)),
        Phase::Asking { questions, passed } => {
            let alloc = *given.allocator();
            Ok(after_question(alloc, questions, passed, number, reply))
        }
        Phase::Changing(_) => Ok(Some(Phase::Over(changed(number, reply)?))),
        Phase::Begun | Phase::Leased | Phase::CacheRead(_) | Phase::Found(_) | Phase::Over(_) =>
            unreachable!(),
    }
}

/// Goes on to the phase after a reply, where so many calls were made before it. A leased address is put to the given
/// ones. Out of memory, the phase stays.
pub(crate) fn after(
    phase: &mut Phase,
    given: &mut Vec<Addr>,
    sets: usize,
    made: u64,
    reply: &Reply,
) -> Result<(), NoMemory>
    requires numbered { made + 1 < 2 ^ 64 }
    requires stands { Stands sets made given.old.items phase.old }
    requires awaits { Awaits phase.old }
    requires few { sets < 2 ^ 32 }
    requires room { sets ≤ vec_capacity given.old }
    ensures ok { (list : NetList) (c : Command) → length (sets_of list) ≡ sets
        → KeepsAhead list c given.old.items phase.old
        → IsOpen (state_in list c given.old.items phase.old)
        → OnOk result (IsPhaseOf list c (made + 1) given.new.items phase.new
        (script.advance list c (made + 1) (state_in list c given.old.items phase.old) reply.now)) }
    ensures err { OnErr result ((phase.new ≡ phase.old) × (given.new ≡ given.old)) }
    ensures frees { holds_text_or_list reply.now ≡ false → IsOk result }
    ensures room { sets ≤ vec_capacity given.new }
{
    match next_phase(phase, given, sets, made, reply)? {
        Some(next) => {
            let old = replace(phase, next);
            drop(old);
            Ok(())
        }
        None => Ok(()),
    }
}
