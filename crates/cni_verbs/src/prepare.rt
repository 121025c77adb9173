//! What the next call is looked up in, made ahead.

ghost use Rattle.std.specs.Prelude.{◌≡◌, true, false, List, IfOk, OnErr, OnOk};
ghost use Rattle.std.specs.Option.{ForSome};
ghost use Rattle.cni_addr.specs.declared.address.Addr.{Addr};
ghost use Rattle.cni_errors.specs.CommandFields.{att_of};
ghost use Rattle.cni_verbs.specs.Phases.{IsMadeAhead, IsSameButPrepared, is_prepared};

use crate::advance::taken_out;
use crate::next::{back_of, before_of, deletions_of};
use crate::phase::Phase;
use cni_addr::{Addr, Items, NoMemory, RefCounted};
use cni_errors::Ending;
use cni_errors::fields::named_att_of;
use cni_result::Cached;
use kernel_types::{Call, NamedAtt};
use net_conf::NetList;
use plugin_chain::wanted::Back;
use pod_file::Command;
use std::alloc::Global;
use std::mem::replace;
use verb_questions::check_questions;

/// Whether the next call or question is made ahead already.
pub(crate) fn is_prepared(phase: &Phase) -> bool
    ensures { result ≡ is_prepared phase.now }
{
    !matches!(
        phase,
        Phase::Begun | Phase::Leased | Phase::CacheRead(_) | Phase::Found(_)
    )
}

/// The names of the command's attachment, those that are kept if there are any: a digest takes long.
fn names_of(alloc: Global, kept: Option<NamedAtt>, command: &Command) -> Result<NamedAtt, NoMemory>
    requires { ForSome kept (λ names. names ≡ att_of command.now) }
    ensures { IfOk result (λ names. names ≡ att_of command.now) }
{
    match kept {
        Some(names) => Ok(names),
        None => named_att_of(alloc, command),
    }
}

/// The calls, each where the history can share it. Linear in the calls.
fn shared_calls(alloc: Global, calls: Items<Call>) -> Result<Items<RefCounted<Call>>, NoMemory>
    ensures { IfOk result (λ shared. shared ≡ calls) }
{
    let calls = calls.into_vec();
    let mut shared = Vec::with_capacity(alloc, calls.len())?;
    for call in calls {
        shared.push(RefCounted::of(alloc, call)?)?;
    }
    Ok(Items::of_vec(shared))
}

// ---- the phase that means the same, with its list made ahead

/// The names that the calls are made with are kept for those after the leases.
fn before_leases(
    alloc: Global,
    list: &NetList,
    command: &Command,
    kept: &mut Option<NamedAtt>,
) -> Result<Phase, NoMemory>
    requires { ForSome kept.old (λ names. names ≡ att_of command.now) }
    ensures next { (given : List Addr) → IfOk result (IsMadeAhead list.now command.now given Phase.Begun) }
    ensures names { ForSome kept.new (λ names. names ≡ att_of command.now) }
{
    let names = named_att_of(alloc, command)?;
    let calls = before_of(alloc, list, command, &names)?;
    *kept = Some(names);
    let calls = shared_calls(alloc, calls)?;
    Ok(Phase::BeforeLeases { calls, passed: 0 })
}

fn after_leases(
    alloc: Global,
    list: &NetList,
    command: &Command,
    kept: &mut Option<NamedAtt>,
    given: &[Addr],
) -> Result<Phase, NoMemory>
    requires { ForSome kept.old (λ names. names ≡ att_of command.now) }
    ensures next { IfOk result (IsMadeAhead list.now command.now given.now Phase.Leased) }
    ensures names { ForSome kept.new (λ names. names ≡ att_of command.now) }
{
    let names = names_of(alloc, kept.take(), command)?;
    let Back { calls, cached } = back_of(alloc, list, command, &names, given)?;
    let calls = shared_calls(alloc, calls)?;
    Ok(Phase::AfterLeases {
        calls,
        passed: 0,
        cached,
    })
}

fn deleting(
    alloc: Global,
    list: &NetList,
    command: &Command,
    ending: &mut Ending,
) -> Result<Phase, NoMemory>
    ensures next { (given : List Addr)
        → IfOk result (IsMadeAhead list.now command.now given (Phase.CacheRead ending.old)) }
    ensures left { OnErr result (ending.new ≡ ending.old) }
{
    let deletions = deletions_of(alloc, list, command)?;
    Ok(Phase::Deleting {
        deletions,
        passed: 0,
        ending: taken_out(ending),
    })
}

fn asking(
    alloc: Global,
    list: &NetList,
    command: &Command,
    cached: &Cached,
) -> Result<Phase, NoMemory>
    ensures { (given : List Addr)
        → IfOk result (IsMadeAhead list.now command.now given (Phase.Found cached.now)) }
{
    Ok(Phase::Asking {
        questions: check_questions(alloc, list, command, cached)?,
        passed: 0,
    })
}

/// The phase with its list made ahead, of one whose list isn't.
fn made_ahead(
    alloc: Global,
    list: &NetList,
    command: &Command,
    kept: &mut Option<NamedAtt>,
    given: &[Addr],
    phase: &mut Phase,
) -> Result<Phase, NoMemory>
    requires names { ForSome kept.old (λ names. names ≡ att_of command.now) }
    requires next { is_prepared phase.old ≡ false }
    ensures next { IfOk result (IsMadeAhead list.now command.now given.now phase.old) }
    ensures names { ForSome kept.new (λ names. names ≡ att_of command.now) }
    ensures left { OnErr result (phase.new ≡ phase.old) }
{
    match phase {
        Phase::Begun => before_leases(alloc, list, command, kept),
        Phase::Leased => after_leases(alloc, list, command, kept, given),
        Phase::CacheRead(ending) => deleting(alloc, list, command, ending),
        Phase::Found(cached) => asking(alloc, list, command, cached.get()),
        _ => unreachable!(),
    }
}

/// Makes the calls before or after the leases, the deletions or the questions of a CHECK ahead, where they are next and
/// aren't made yet. The phase means the same, and out of memory it stays as it is.
pub(crate) fn prepare_phase(
    alloc: Global,
    list: &NetList,
    command: &Command,
    kept: &mut Option<NamedAtt>,
    given: &[Addr],
    phase: &mut Phase,
) -> Result<(), NoMemory>
    requires names { ForSome kept.old (λ names. names ≡ att_of command.now) }
    requires next { is_prepared phase.old ≡ false }
    ensures same { IsSameButPrepared list.now command.now given.now phase.old phase.new }
    ensures names { ForSome kept.new (λ names. names ≡ att_of command.now) }
    ensures ready { OnOk result (is_prepared phase.new ≡ true) }
    ensures left { OnErr result (phase.new ≡ phase.old) }
{
    let next = made_ahead(alloc, list, command, kept, given, phase)?;
    let old = replace(phase, next);
    drop(old);
    Ok(())
}
