//! How a run begins.

ghost use Rattle.std.specs.Prelude.{◌≡◌, false, [], IfOk};
ghost use Rattle.net_conf.specs.declared.list.NetList.{NetList};
ghost use Rattle.kernel_types.specs.declared.call.Call.TheVariants as call;
ghost use Rattle.kernel_types.specs.declared.call.Change.TheVariants as change;
ghost use Rattle.cni_errors.specs.CommandFields.{add_refusal, del_refusal, netns_refusal, drop_refusal};
ghost use Rattle.verb_questions.specs.Questions.{status_questions};
ghost use Rattle.cni_verbs.specs.Script.{AtBegin, ReadingCache, Changing, start_of, start_state, outside_start};
ghost use Rattle.cni_verbs.specs.Script.{flush_by, unless_refused, unless_ended, asking};
ghost use Rattle.cni_verbs.specs.Script as script;
ghost use Rattle.cni_verbs.specs.Progress.{is_gc};
ghost use Rattle.cni_errors.specs.declared.answer.Ending.TheVariants as ending;
ghost use Rattle.cni_verbs.specs.Phases.{IsPhaseOf, state_outside};

use crate::phase::Phase;
use cni_addr::{Duplicate, NoMemory, RefCounted};
use cni_errors::fields::{add_refusal, del_refusal, drop_refusal, netns_refusal};
use cni_errors::{Cause, Ending, Skip};
use cni_result::Version;
use kernel_types::{Call, Change, LinkKey, Table};
use net_conf::NetList;
use pod_file::{Command, Verb};
use std::alloc::Global;
use verb_questions::status_questions;

// ---- verbs of a network

fn first_of_add(alloc: Global, command: &Command) -> Result<Phase, NoMemory>
    ensures { IfOk result (λ phase. (list : NetList)
        → IsPhaseOf list command.now 0 [] phase (unless_refused (add_refusal command.now) AtBegin)) }
{
    match add_refusal(alloc, command)? {
        Some(cause) => Ok(Phase::refused(cause)),
        None => Ok(Phase::AtBegin),
    }
}

fn first_of_del(command: &Command) -> Phase
    ensures { (list : NetList)
        → IsPhaseOf list command.now 0 [] result
        (unless_refused (del_refusal command.now) (ReadingCache ending.Yes)) }
{
    match del_refusal(command) {
        Some(cause) => Phase::refused(cause),
        None => Phase::ReadingCache(Ending::Yes),
    }
}

fn first_of_check(list: &NetList, command: &Command) -> Phase
    ensures { IsPhaseOf list.now command.now 0 [] result (start_of list.now Verb.Check command.now) }
{
    match del_refusal(command) {
        Some(cause) => Phase::refused(cause),
        None => {
            if list.disable_check {
                Phase::Over(Ending::Skipped(Skip::Check))
            } else {
                Phase::FindingEntry
            }
        }
    }
}

/// How a list of this version ends a verb that came with version 1.1.0, if it does.
fn old_ending(version: Version) -> Option<Ending>
    ensures { result ≡ script.old_ending version }
{
    version
        .is_before_1_1()
        .then_some(Ending::Refused(Cause::TooOld(version)))
}

/// How the list ends a GC before its first call, if it does: it is older than the verb, or disables it.
/// Takes no memory.
pub fn early_ending(list: &NetList) -> Option<Ending>
    ensures { result ≡ script.early_ending list.now.version list.now.disable_gc }
{
    old_ending(list.version).or(list.disable_gc.then_some(Ending::Skipped(Skip::Gc)))
}

fn first_of_status(alloc: Global, list: &NetList, command: &Command) -> Result<Phase, NoMemory>
    ensures { IfOk result (λ phase. IsPhaseOf list.now command.now 0 [] phase
        (unless_ended (script.old_ending list.now.version) (asking (status_questions list.now command.now)))) }
{
    match old_ending(list.version) {
        Some(ending) => Ok(Phase::Over(ending)),
        None => Ok(Phase::Asking {
            questions: status_questions(alloc, list, command)?,
            passed: 0,
        }),
    }
}

/// The phase of a run of this list that was given no reply. Fields outside their grammar end an ADD, a CHECK or a DEL
/// before its first call, an `IP` argument or a mapping that can't be taken ends an ADD, and a list that is older than
/// STATUS or disables CHECK ends these.
pub(crate) fn first_phase(
    alloc: Global,
    list: &NetList,
    command: &Command,
) -> Result<Phase, NoMemory>
    requires { is_gc command.now.verb ≡ false }
    ensures { IfOk result (λ phase. IsPhaseOf list.now command.now 0 [] phase (start_state list.now command.now)) }
{
    match command.verb {
        Verb::Add => first_of_add(alloc, command),
        Verb::Check => Ok(first_of_check(list, command)),
        Verb::Del => Ok(first_of_del(command)),
        Verb::Gc => unreachable!(),
        Verb::Status => first_of_status(alloc, list, command),
        Verb::Version => Ok(Phase::Over(Ending::Versions)),
        Verb::NsAdd | Verb::NsDel | Verb::Drop | Verb::Flush => Ok(Phase::Over(Ending::Yes)),
    }
}

// ---- changes from outside

fn changing(alloc: Global, change: Call) -> Result<Phase, NoMemory>
    ensures { IfOk result (λ phase. state_outside phase ≡ Changing change) }
{
    Ok(Phase::Changing(RefCounted::of(alloc, change)?))
}

fn change_of_namespace(alloc: Global, command: &Command, add: bool) -> Result<Phase, NoMemory>
    ensures { IfOk result (λ phase. state_outside phase
        ≡ unless_refused (netns_refusal command.now) (Changing (call.NsChange command.now.netns add))) }
{
    match netns_refusal(command) {
        Some(cause) => Ok(Phase::refused(cause)),
        None => {
            let name = command.netns.copy()?;
            changing(alloc, Call::NsChange { name, add })
        }
    }
}

fn loss_of_link(alloc: Global, command: &Command) -> Result<Phase, NoMemory>
    ensures { IfOk result (λ phase. state_outside phase
        ≡ unless_refused (drop_refusal command.now)
        (Changing (call.Outside
        (change.DropLink (record { ns = command.now.netns; name = command.now.ifname }))))) }
{
    match drop_refusal(command) {
        Some(cause) => Ok(Phase::refused(cause)),
        None => {
            let key = LinkKey {
                ns: command.netns.copy()?,
                name: command.ifname.copy()?,
            };
            let change = Change::DropLink(key);
            changing(alloc, Call::Outside { change })
        }
    }
}

fn flush_of(alloc: Global, table: Option<Table>) -> Result<Phase, NoMemory>
    ensures { IfOk result (λ phase. state_outside phase ≡ flush_by table) }
{
    match table {
        Some(table) => {
            let change = Change::Flush(table);
            changing(alloc, Call::Outside { change })
        }
        None => Ok(Phase::Over(Ending::Yes)),
    }
}

/// The phase of a run of no network before its call. Fields outside their grammar end it there.
pub(crate) fn first_outside(alloc: Global, command: &Command) -> Result<Phase, NoMemory>
    ensures { IfOk result (λ phase. state_outside phase ≡ outside_start command.now) }
{
    match command.verb {
        Verb::NsAdd => change_of_namespace(alloc, command, true),
        Verb::NsDel => change_of_namespace(alloc, command, false),
        Verb::Drop => loss_of_link(alloc, command),
        Verb::Flush => flush_of(alloc, command.table),
        Verb::Add | Verb::Check | Verb::Del | Verb::Gc | Verb::Status | Verb::Version => {
            Ok(Phase::Over(Ending::Yes))
        }
    }
}
