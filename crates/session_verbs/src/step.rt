//! A step of an ADD: one call that is to be done, or several.

ghost use Rattle.std.specs.Prelude.{◌≡◌, ◌++◌, List, true, false, Some, IfOk, OnErr};
ghost use Rattle.std.specs.List.{list_all};
ghost use Rattle.cni_addr.specs.declared.address.Addr.{Addr};
ghost use Rattle.kernel_types.specs.Allowed.{IsAllowed};
ghost use Rattle.kernel_types.specs.Sound.{IsSound};
ghost use Rattle.kernel_types.specs.declared.call.Call.{Call};
ghost use Rattle.pod_file.specs.declared.command.Command.{Command};
ghost use Rattle.plugin_registry.specs.Own.{is_own_call};
ghost use Rattle.cni_errors.specs.declared.answer.Ending.TheVariants.{Added};
ghost use Rattle.cni_verbs.specs.Script.{Over, after_leases};
ghost use Rattle.cni_verbs.specs.Script as script;
ghost use Rattle.session_verbs.specs.Adds.{GoesStep, Steps};
ghost use Rattle.session_verbs.specs.Adds as adds;
ghost use Rattle.session_laws.specs.Course.{Course};
ghost use Rattle.session_laws.specs.Pools.{IsReady, Pools};
ghost use Rattle.session_laws.specs.Tasks.{forward_of};

use crate::journal::Journal;
use cni_addr::{Duplicate, NoMemory, RefCounted};
use cni_errors::Cause;
use kernel_model::Kernel;
use kernel_types::{Call, Reply};
use session_laws::Row;

/// How a step of an ADD ends.
#[derive(Drop)]
pub(crate) enum StepEnd {
    /// Each of its calls is granted.
    Granted,
    /// The last reply refuses the ADD.
    Refused(Cause),
    /// A call is left, and the task is stopped before it.
    Stopped,
}

/// Why a reply refuses an ADD, whichever call it answers.
pub(crate) fn cause_of(set: u32, number: u64, reply: &Reply) -> Result<Cause, NoMemory>
    ensures { IfOk result (λ cause. cause ≡ script.cause_of set number reply.now) }
{
    match reply {
        Reply::NoNs => Ok(Cause::NoNamespace),
        Reply::NoLink => Ok(Cause::NoMaster),
        Reply::Taken(tag) => Ok(Cause::NameTaken(tag.copy()?)),
        Reply::Empty => Ok(Cause::PoolEmpty(set)),
        Reply::Done
        | Reply::Leased(_)
        | Reply::Gone(_)
        | Reply::Has(_)
        | Reply::Owners(_)
        | Reply::Entry(_)
        | Reply::Fault => Ok(Cause::Fault(number)),
    }
}

/// How a call ends that is to be done, by its number and its reply.
fn end_by(number: u64, reply: &Reply) -> Result<StepEnd, NoMemory>
    ensures ok { IfOk result (λ end. end ≡ adds.end_by number reply.now) }
    ensures err { OnErr result (adds.is_done reply.now ≡ false) }
{
    match reply {
        Reply::Done => Ok(StepEnd::Granted),
        refusal => Ok(StepEnd::Refused(cause_of(0, number, refusal)?)),
    }
}

/// Makes a call that is to be done.
pub(crate) fn make_call<K: Kernel + Drop>(
    journal: &mut Journal<K>,
    call: Call,
) -> Result<StepEnd, NoMemory>
    requires allowed { IsAllowed journal.old.host call }
    requires sound { IsSound journal.old.host }
    ensures ends { adds.CallEndsAs call journal.old journal.new result }
    ensures sound { IsSound journal.new.host }
{
    if !journal.may_go() {
        return Ok(StepEnd::Stopped);
    }
    journal.make(RefCounted::of(journal.alloc(), call)?)?;
    match journal.reply() {
        Some(reply) => end_by(journal.made(), reply),
        None => unreachable!(),
    }
}

/// Makes the calls that the plugin gave.
fn make_calls<K: Kernel + Drop>(journal: &mut Journal<K>, row: &Row) -> Result<StepEnd, NoMemory>
    requires sound { IsSound journal.old.host }
    requires own { list_all (is_own_call row.now.att row.now.kinds) row.now.calls ≡ true }
    ensures ends { (co : Course) (c : Command) (given : List Addr) (left : List Call) → GoesStep co c journal.old
        journal.new (after_leases (row.now.calls ++ left) given) (after_leases left given) result }
    ensures ready { (pools : Pools) → IsReady pools journal.old.host → IsReady pools journal.new.host }
    ensures sound { IsSound journal.new.host }
{
    for call in row.calls.as_slice() {
        match make_call(journal, call.copy()?)? {
            StepEnd::Granted => {}
            end => return Ok(end),
        }
    }
    Ok(StepEnd::Granted)
}

/// Makes the calls of the row, and caches its result. A row that isn't filled has no call.
pub(crate) fn make_row<K: Kernel + Drop>(
    journal: &mut Journal<K>,
    row: &Row,
) -> Result<StepEnd, NoMemory>
    requires sound { IsSound journal.old.host }
    requires own { list_all (is_own_call row.now.att row.now.kinds) row.now.calls ≡ true }
    ensures ends { (co : Course) (c : Command) (given : List Addr) → Steps co c journal.old journal.new
        (after_leases (forward_of (Some row.now)) given) (Over Added given) given given result }
    ensures ready { (pools : Pools) → IsReady pools journal.old.host → IsReady pools journal.new.host }
    ensures sound { IsSound journal.new.host }
{
    let Some(cached) = &row.cached else {
        return Ok(StepEnd::Granted);
    };
    match make_calls(journal, row)? {
        StepEnd::Granted => {
            let call = Call::CachePut {
                att: row.att.copy()?,
                cached: cached.copy()?,
            };
            make_call(journal, call)
        }
        end => Ok(end),
    }
}
