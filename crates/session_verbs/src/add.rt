//! An ADD of a registered plugin, after its words, its `type` and its options were tested.

ghost use Rattle.std.specs.Prelude.{◌≡◌, ◌≤◌, [], length, true, false, None, Some, Ok, is_some, vec_capacity};
ghost use Rattle.std.specs.Option.{option_copied};
ghost use Rattle.std.specs.Result.{ForOk};
ghost use Rattle.kernel_types.specs.Sound.{IsSound};
ghost use Rattle.kernel_types.specs.Terms.{is_host_ns};
ghost use Rattle.pod_file.specs.declared.command.Command.{Command};
ghost use Rattle.plugin_registry.specs.Needs.{first_unmet};
ghost use Rattle.plugin_registry.specs.Promised.{Keeps};
ghost use Rattle.cni_errors.specs.CommandFields.{att_of};
ghost use Rattle.cni_errors.specs.declared.answer.Ending.TheVariants.{Added};
ghost use Rattle.cni_verbs.specs.Script.{Over, ReadingCache};
ghost use Rattle.session_verbs.specs.Adds.{Adds, Fills, GoesOn, IsCourseOf, IsFor, IsUnbegun, Steps, ask_for};
ghost use Rattle.session_laws.specs.Kept.{pools_of};
ghost use Rattle.session_laws.specs.Course.{Course, leasing};
ghost use Rattle.session_verbs.specs.Journal.{EndsAs};
ghost use Rattle.session_laws.specs.Pools.{IsReady, Pools, sets_by};
ghost use Rattle.session_laws.specs.Tasks as tasks;

use crate::ask::fill;
use crate::begun::Begun;
use crate::delete::{kinds_back, take_back};
use crate::journal::Journal;
use crate::lease::lease_by;
use crate::part::PartEnd;
use crate::step::{StepEnd, make_call, make_row};
use cni_addr::{Addr, Duplicate, Items, NoMemory};
use cni_errors::{Cause, Ending};
use cni_result::AddResult;
use kernel_model::Kernel;
use kernel_types::Call;
use net_conf::HostLocalConf;
use plugin_registry::{Ask, Calls, Plugin, Promise, Results};
use session_file::{SessionConf, Task};
use session_laws::Row;
use std::alloc::Global;

/// Leases, asks the plugin, and makes its calls. The row is filled once the plugin has answered.
fn make_all<K: Kernel + Drop, P: Promise>(
    journal: &mut Journal<K>,
    plugin: &Plugin<P>,
    conf: &SessionConf,
    task: &Task,
    row: &mut Row,
    given: &mut Vec<Addr>,
) -> Result<StepEnd, NoMemory>
    requires ready { IsReady (pools_of conf.now) journal.old.host }
    requires network { row.old.att.network ≡ conf.now.network }
    requires unfilled { (row.old.calls ≡ []) × (row.old.cached ≡ None) }
    requires kinds { row.old.kinds ≡ plugin.now.kinds }
    requires none { given.old.items ≡ [] }
    requires room { length (sets_by conf.now.ipam) ≤ vec_capacity given.old }
    requires container { is_host_ns task.now.netns ≡ false }
    requires options { first_unmet plugin.now.needs task.now.options ≡ None }
    requires calls { Keeps (λ ask. ask.now) (λ r f. ForOk r f) plugin.now.needs
        (⟦<Calls as Fn(Global, &Ask) -> Result<Items<Call>, NoMemory>>⟧.post plugin.now.calls)
        (P.may_call plugin.now.name) }
    requires result { Keeps (λ ask. ask.now) (λ r f. ForOk r f) plugin.now.needs
        (⟦<Results as Fn(Global, &Ask) -> Result<AddResult, NoMemory>>⟧.post plugin.now.result)
        (P.may_result plugin.now.name) }
    ensures ends { (co : Course) (c : Command) → att_of c ≡ row.old.att
        → co.forward ≡ tasks.forward_of (Some row.new)
        → Steps co c journal.old journal.new (leasing co (sets_by conf.now.ipam) []) (Over Added given.new.items)
        [] given.new.items result }
    ensures row { Fills (P.may_call plugin.now.name) (P.may_result plugin.now.name)
        (ask_for conf.now task.now row.old.att given.new.items) row.old row.new }
    ensures asked { is_some row.new.cached ≡ true → length given.new.items ≡ length (sets_by conf.now.ipam) }
    ensures filled { result ≡ Ok StepEnd.Granted → is_some row.new.cached ≡ true }
    ensures ready { IsReady (pools_of conf.now) journal.new.host }
{
    match lease_by(journal, &row.att, conf.ipam.as_ref(), given)? {
        StepEnd::Granted => {}
        end => return Ok(end),
    }
    fill(journal.alloc(), plugin, conf, task, given.as_slice(), row)?;
    make_row(journal, row)
}

/// Takes back what a refused ADD has made.
fn undo<K: Kernel + Drop>(
    journal: &mut Journal<K>,
    ipam: Option<&HostLocalConf>,
    row: &Row,
    cause: Cause,
) -> Result<PartEnd, NoMemory>
    requires { IsSound journal.old.host }
    ensures ends { (co : Course) (c : Command) → att_of c ≡ row.now.att
        → co.kinds ≡ tasks.kinds_back (option_copied ipam.entry) (Some row.now)
        → EndsAs co c journal.old journal.new (ReadingCache (Ending.Refused cause)) result }
    ensures refused { (ending : _) → result ≡ Ok (PartEnd.Over ending) → ending ≡ Ending.Refused cause }
    ensures ready { (pools : Pools) → IsReady pools journal.old.host → IsReady pools journal.new.host }
{
    let kinds = kinds_back(journal.alloc(), ipam, Some(row))?;
    take_back(journal, &row.att, kinds.as_slice(), Ending::Refused(cause))
}

/// Does what an ADD does behind Begin. What it made is taken back where it is refused.
fn add_begun<K: Kernel + Drop, P: Promise>(
    journal: &mut Journal<K>,
    plugin: &Plugin<P>,
    conf: &SessionConf,
    task: &Task,
    row: &mut Row,
    given: &mut Vec<Addr>,
) -> Result<PartEnd, NoMemory>
    requires ready { IsReady (pools_of conf.now) journal.old.host }
    requires network { row.old.att.network ≡ conf.now.network }
    requires unfilled { (row.old.calls ≡ []) × (row.old.cached ≡ None) }
    requires kinds { row.old.kinds ≡ plugin.now.kinds }
    requires none { given.old.items ≡ [] }
    requires room { length (sets_by conf.now.ipam) ≤ vec_capacity given.old }
    requires container { is_host_ns task.now.netns ≡ false }
    requires options { first_unmet plugin.now.needs task.now.options ≡ None }
    requires calls { Keeps (λ ask. ask.now) (λ r f. ForOk r f) plugin.now.needs
        (⟦<Calls as Fn(Global, &Ask) -> Result<Items<Call>, NoMemory>>⟧.post plugin.now.calls)
        (P.may_call plugin.now.name) }
    requires result { Keeps (λ ask. ask.now) (λ r f. ForOk r f) plugin.now.needs
        (⟦<Results as Fn(Global, &Ask) -> Result<AddResult, NoMemory>>⟧.post plugin.now.result)
        (P.may_result plugin.now.name) }
    ensures ends { (co : Course) (c : Command) → att_of c ≡ row.old.att
        → co.forward ≡ tasks.forward_of (Some row.new)
        → co.kinds ≡ tasks.kinds_back conf.now.ipam (Some row.new)
        → GoesOn co c journal.old journal.new (leasing co (sets_by conf.now.ipam) []) given.new.items result }
    ensures row { Fills (P.may_call plugin.now.name) (P.may_result plugin.now.name)
        (ask_for conf.now task.now row.old.att given.new.items) row.old row.new }
    ensures asked { is_some row.new.cached ≡ true → length given.new.items ≡ length (sets_by conf.now.ipam) }
    ensures filled { result ≡ Ok (PartEnd.Over Ending.Added) → is_some row.new.cached ≡ true }
    ensures ready { IsReady (pools_of conf.now) journal.new.host }
{
    match make_all(journal, plugin, conf, task, row, given)? {
        StepEnd::Granted => Ok(PartEnd::Over(Ending::Added)),
        StepEnd::Refused(cause) => undo(journal, conf.ipam.as_ref(), row, cause),
        StepEnd::Stopped => Ok(PartEnd::Stopped),
    }
}

/// The ADD of a registered plugin, after its words, its `type` and its options were tested. What it made is in `begun`,
/// however it ends, also where memory is refused.
pub fn add<K: Kernel + Drop, P: Promise>(
    journal: &mut Journal<K>,
    plugin: &Plugin<P>,
    conf: &SessionConf,
    task: &Task,
    begun: &mut Begun,
) -> Result<PartEnd, NoMemory>
    requires ready { IsReady (pools_of conf.now) journal.old.host }
    requires network { begun.old.row.att.network ≡ conf.now.network }
    requires unbegun { IsUnbegun begun.old.row.task begun.old.row.att plugin.now.kinds
        (length (sets_by conf.now.ipam)) begun.old }
    requires container { is_host_ns task.now.netns ≡ false }
    requires options { first_unmet plugin.now.needs task.now.options ≡ None }
    requires calls { Keeps (λ ask. ask.now) (λ r f. ForOk r f) plugin.now.needs
        (⟦<Calls as Fn(Global, &Ask) -> Result<Items<Call>, NoMemory>>⟧.post plugin.now.calls)
        (P.may_call plugin.now.name) }
    requires result { Keeps (λ ask. ask.now) (λ r f. ForOk r f) plugin.now.needs
        (⟦<Results as Fn(Global, &Ask) -> Result<AddResult, NoMemory>>⟧.post plugin.now.result)
        (P.may_result plugin.now.name) }
    ensures ends { (co : Course) (c : Command) → IsCourseOf conf.now.ipam begun.new co
        → IsFor begun.old.row.att task.now.netns c → Adds co c journal.old journal.new begun.new result }
    ensures row { Fills (P.may_call plugin.now.name) (P.may_result plugin.now.name)
        (ask_for conf.now task.now begun.old.row.att begun.new.given.items) begun.old.row begun.new.row }
    ensures unbegun { begun.new.begun ≡ false → begun.new ≡ begun.old }
    ensures asked { is_some begun.new.row.cached ≡ true
        → length begun.new.given.items ≡ length (sets_by conf.now.ipam) }
    ensures filled { result ≡ Ok (PartEnd.Over Ending.Added) → is_some begun.new.row.cached ≡ true }
    ensures ready { IsReady (pools_of conf.now) journal.new.host }
{
    let call = Call::Begin {
        att: begun.row.att.copy()?,
        netns: task.netns.copy()?,
    };
    match make_call(journal, call)? {
        StepEnd::Granted => {}
        StepEnd::Refused(cause) => return Ok(PartEnd::Over(Ending::Refused(cause))),
        StepEnd::Stopped => return Ok(PartEnd::Stopped),
    }
    begun.begun = true;
    add_begun(
        journal,
        plugin,
        conf,
        task,
        &mut begun.row,
        &mut begun.given,
    )
}
