//! An ADD, from its words to its answer.

ghost use Rattle.std.specs.Prelude.{◌≡◌, List, false, true, length, map, None, Some, IfOk, is_some, Contains};
ghost use Rattle.std.specs.Result.{ForOk};
ghost use Rattle.pod_file.specs.declared.command.Verb.TheVariants as verbs;
ghost use Rattle.cni_errors.specs.declared.answer.Ending.TheVariants as endings;
ghost use Rattle.kernel_types.specs.Terms.{is_host_ns};
ghost use Rattle.cni_errors.specs.CommandFields.{add_refusal, att_of};
ghost use Rattle.plugin_registry.specs.Needs.{first_unmet};
ghost use Rattle.plugin_registry.specs.Promised.{Keeps};
ghost use Rattle.session_verbs.specs.Adds.{IsUnbegun};
ghost use Rattle.session_verbs.specs.Journal.{may_go};
ghost use Rattle.session_laws.specs.Kept.{pools_of};
ghost use Rattle.session_laws.specs.Pools.{IsReady, sets_by};
ghost use Rattle.session_laws.specs.Ran.{command_for};
ghost use Rattle.plugin_session.specs.Runs.{IsAnswerToAdd, IsResultOf, IsTurnedTo, RanTask, RunsAdd, handed_of, ran_or};
ghost use Rattle.plugin_session.specs.Runs as runs;
ghost use Rattle.session_laws.specs.Views.{PluginView, plugin_named};
ghost use Rattle.session_verbs.specs.declared.begun.Begun.{Begun};
ghost use Rattle.std.specs.Bool.{then_some};

use crate::answer::{answer_to, wrong_error};
use crate::run::{Hand, TaskRun, answer_end, answered, without_row};
use cni_addr::{Duplicate, Items, NoMemory, RefCounted};
use cni_errors::Ending;
use cni_errors::fields::{add_refusal, att_of};
use cni_result::{AddResult, CniError};
use kernel_model::Kernel;
use kernel_types::Call;
use plugin_registry::{Ask, Calls, Plugin, Promise, Registry, Results, first_unmet};
use pod_file::Command;
use session_file::SessionConf;
use session_laws::{Row, TaskAnswer};
use session_verbs::add::add;
use session_verbs::{Begun, Journal, PartEnd};
use std::alloc::Global;

/// The answer to an ADD that made its attachment: a copy of the result that its plugin gave.
fn added(alloc: Global, row: &Row) -> Result<TaskAnswer, NoMemory>
    requires { is_some row.now.cached ≡ true }
    ensures { IfOk result (IsResultOf row.now) }
{
    match &row.cached {
        Some(cached) => {
            let result = cached.get().result.copy()?;
            Ok(TaskAnswer::Added(RefCounted::of(alloc, result)?))
        }
        None => unreachable!(),
    }
}

/// The answer to an ADD that left this row.
fn answer_add<K: Kernel + Drop>(
    alloc: Global,
    journal: &Journal<K>,
    command: &Command,
    end: &PartEnd,
    row: &Row,
) -> Result<TaskAnswer, NoMemory>
    requires stopped { end.now ≡ PartEnd.Stopped → may_go journal.now ≡ false }
    requires added { end.now ≡ PartEnd.Over endings.Added → is_some row.now.cached ≡ true }
    ensures { IfOk result (IsAnswerToAdd command.now journal.now row.now end.now) }
{
    match end {
        PartEnd::Over(Ending::Added) => added(alloc, row),
        _ => answer_end(alloc, journal, command, end),
    }
}

/// Runs an ADD whose words, `type` and options are right, and answers it.
fn add_answer<K: Kernel + Drop, P: Promise>(
    journal: &mut Journal<K>,
    hand: &Hand<'_>,
    command: &Command,
    plugin: &Plugin<P>,
    begun: &mut Begun,
) -> Result<TaskAnswer, NoMemory>
    requires verb { hand.now.task.now.verb ≡ verbs.Add }
    requires command { command.now ≡ command_for (handed_of hand.now) }
    requires turned { IsTurnedTo (handed_of hand.now) journal.old }
    requires ready { IsReady (pools_of hand.now.conf.now) journal.old.host }
    requires container { is_host_ns hand.now.task.now.netns ≡ false }
    requires name { plugin.now.name ≡ hand.now.task.now.kind_name }
    requires options { first_unmet plugin.now.needs hand.now.task.now.options ≡ None }
    requires unbegun { IsUnbegun hand.now.number (att_of command.now) plugin.now.kinds
        (length (sets_by hand.now.conf.now.ipam)) begun.old }
    requires calls { Keeps (λ ask. ask.now) (λ r f. ForOk r f) plugin.now.needs
        (⟦<Calls as Fn(Global, &Ask) -> Result<Items<Call>, NoMemory>>⟧.post plugin.now.calls)
        (P.may_call plugin.now.name) }
    requires result { Keeps (λ ask. ask.now) (λ r f. ForOk r f) plugin.now.needs
        (⟦<Results as Fn(Global, &Ask) -> Result<AddResult, NoMemory>>⟧.post plugin.now.result)
        (P.may_result plugin.now.name) }
    ensures ran { (plugins : List PluginView)
        → plugin_named plugins hand.now.task.now.kind_name
        ≡ Some (record { name = plugin.now.name; needs = plugin.now.needs; kinds = plugin.now.kinds })
        → RunsAdd (record { plugins = plugins; may_call = P.may_call; may_result = P.may_result })
        (handed_of hand.now) journal.old journal.new begun.new (runs.answered result) }
    ensures ready { IsReady (pools_of hand.now.conf.now) journal.new.host }
{
    let end = add(journal, plugin, hand.conf, hand.task, begun)?;
    answer_add(hand.alloc, journal, command, &end, &begun.row)
}

/// What an ADD made, where its Begin was granted.
fn if_begun(begun: Begun) -> Option<Begun>
    ensures { result ≡ then_some begun.begun begun }
{
    if begun.begun { Some(begun) } else { None }
}

/// Runs an ADD whose words, `type` and options are right, and keeps what it made however it ends.
fn run_begun<K: Kernel + Drop, P: Promise>(
    journal: &mut Journal<K>,
    hand: &Hand<'_>,
    command: &Command,
    plugin: &Plugin<P>,
    mut begun: Begun,
) -> TaskRun
    requires verb { hand.now.task.now.verb ≡ verbs.Add }
    requires command { command.now ≡ command_for (handed_of hand.now) }
    requires turned { IsTurnedTo (handed_of hand.now) journal.old }
    requires ready { IsReady (pools_of hand.now.conf.now) journal.old.host }
    requires container { is_host_ns hand.now.task.now.netns ≡ false }
    requires name { plugin.now.name ≡ hand.now.task.now.kind_name }
    requires options { first_unmet plugin.now.needs hand.now.task.now.options ≡ None }
    requires unbegun { IsUnbegun hand.now.number (att_of command.now) plugin.now.kinds
        (length (sets_by hand.now.conf.now.ipam)) begun }
    requires calls { Keeps (λ ask. ask.now) (λ r f. ForOk r f) plugin.now.needs
        (⟦<Calls as Fn(Global, &Ask) -> Result<Items<Call>, NoMemory>>⟧.post plugin.now.calls)
        (P.may_call plugin.now.name) }
    requires result { Keeps (λ ask. ask.now) (λ r f. ForOk r f) plugin.now.needs
        (⟦<Results as Fn(Global, &Ask) -> Result<AddResult, NoMemory>>⟧.post plugin.now.result)
        (P.may_result plugin.now.name) }
    ensures ran { (plugins : List PluginView)
        → plugin_named plugins hand.now.task.now.kind_name
        ≡ Some (record { name = plugin.now.name; needs = plugin.now.needs; kinds = plugin.now.kinds })
        → (b : Begun) × RunsAdd (record { plugins = plugins; may_call = P.may_call; may_result = P.may_result })
        (handed_of hand.now) journal.old journal.new b result.answer × (result.begun ≡ then_some b.begun b) }
    ensures ready { IsReady (pools_of hand.now.conf.now) journal.new.host }
{
    let answer = answered(add_answer(journal, hand, command, plugin, &mut begun));
    TaskRun {
        answer,
        begun: if_begun(begun),
    }
}

/// Runs an ADD of this plugin whose words are right, or tells which option is wrong.
fn run_named<K: Kernel + Drop, P: Promise>(
    journal: &mut Journal<K>,
    hand: &Hand<'_>,
    command: &Command,
    plugin: &Plugin<P>,
) -> Result<TaskRun, NoMemory>
    requires verb { hand.now.task.now.verb ≡ verbs.Add }
    requires command { command.now ≡ command_for (handed_of hand.now) }
    requires turned { IsTurnedTo (handed_of hand.now) journal.old }
    requires ready { IsReady (pools_of hand.now.conf.now) journal.old.host }
    requires words { add_refusal command.now ≡ None }
    requires name { plugin.now.name ≡ hand.now.task.now.kind_name }
    requires calls { Keeps (λ ask. ask.now) (λ r f. ForOk r f) plugin.now.needs
        (⟦<Calls as Fn(Global, &Ask) -> Result<Items<Call>, NoMemory>>⟧.post plugin.now.calls)
        (P.may_call plugin.now.name) }
    requires result { Keeps (λ ask. ask.now) (λ r f. ForOk r f) plugin.now.needs
        (⟦<Results as Fn(Global, &Ask) -> Result<AddResult, NoMemory>>⟧.post plugin.now.result)
        (P.may_result plugin.now.name) }
    ensures ran { (plugins : List PluginView)
        → plugin_named plugins hand.now.task.now.kind_name
        ≡ Some (record { name = plugin.now.name; needs = plugin.now.needs; kinds = plugin.now.kinds })
        → RanTask (record { plugins = plugins; may_call = P.may_call; may_result = P.may_result })
        (handed_of hand.now) journal.old journal.new (ran_or result) }
    ensures ready { IsReady (pools_of hand.now.conf.now) journal.new.host }
{
    let alloc = hand.alloc;
    if let Some(need) = first_unmet(plugin.needs.as_slice(), hand.task.options.as_slice()) {
        return Ok(refused(wrong_error(alloc, need.key.as_str())?));
    }
    let kinds = Items::of_vec(plugin.kinds.as_slice().to_vec(alloc)?);
    let begun = Begun::of(
        alloc,
        hand.number,
        att_of(command)?,
        kinds,
        count_of_sets(hand.conf),
    )?;
    let run = run_begun(journal, hand, command, plugin, begun);
    let _made = journal.made();
    Ok(run)
}

/// The number of addresses that an ADD leases.
fn count_of_sets(conf: &SessionConf) -> usize
    ensures { result ≡ length (sets_by conf.now.ipam) }
{
    match &conf.ipam {
        Some(ipam) => ipam.sets.as_slice().len(),
        None => 0,
    }
}

/// What a task comes to that is refused before its first call.
fn refused(error: CniError) -> TaskRun
    ensures { result ≡ record { answer = TaskAnswer.Refused error; begun = None } }
{
    TaskRun {
        answer: TaskAnswer::Refused(error),
        begun: None,
    }
}

/// An ADD: its words are tested, then its `type`, then its options, and then it is run.
pub(crate) fn run_add<K: Kernel + Drop, P: Promise>(
    journal: &mut Journal<K>,
    hand: &Hand<'_>,
    command: &Command,
    registry: &Registry<P>,
) -> Result<TaskRun, NoMemory>
    requires verb { hand.now.task.now.verb ≡ verbs.Add }
    requires command { command.now ≡ command_for (handed_of hand.now) }
    requires turned { IsTurnedTo (handed_of hand.now) journal.old }
    requires ready { IsReady (pools_of hand.now.conf.now) journal.old.host }
    requires promised { (plugin : _) → Contains registry.now.plugins.items plugin
        → Keeps (λ ask. ask.now) (λ r f. ForOk r f) plugin.needs
        (⟦<Calls as Fn(Global, &Ask) -> Result<Items<Call>, NoMemory>>⟧.post plugin.calls)
        (P.may_call plugin.name)
        × Keeps (λ ask. ask.now) (λ r f. ForOk r f) plugin.needs
        (⟦<Results as Fn(Global, &Ask) -> Result<AddResult, NoMemory>>⟧.post plugin.result)
        (P.may_result plugin.name) }
    ensures ran { RanTask (record {
      plugins = map (λ p. record { name = p.name; needs = p.needs; kinds = p.kinds }) registry.now.plugins.items;
      may_call = P.may_call;
      may_result = P.may_result;
    }) (handed_of hand.now) journal.old journal.new (ran_or result) }
    ensures ready { IsReady (pools_of hand.now.conf.now) journal.new.host }
{
    let alloc = hand.alloc;
    if let Some(cause) = add_refusal(alloc, command)? {
        let answer = answer_to(alloc, command, &Ending::Refused(cause));
        return Ok(without_row(answer));
    }
    match registry.find(hand.task.kind_name.as_str()) {
        Some(plugin) => run_named(journal, hand, command, plugin),
        None => Ok(refused(wrong_error(alloc, "type")?)),
    }
}
