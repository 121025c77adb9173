//! One task, from its words to its answer.

ghost use Rattle.std.specs.Prelude.{◌≡◌, None, false, [], map, Contains, IfOk, OnOk};
ghost use Rattle.std.specs.Result.{ForOk};
ghost use Rattle.plugin_registry.specs.Promised.{Keeps};
ghost use Rattle.pod_file.specs.declared.command.Verb.TheVariants as verbs;
ghost use Rattle.cni_errors.specs.CommandFields.{del_refusal};
ghost use Rattle.cni_verbs.specs.Script.{Collecting};
ghost use Rattle.session_laws.specs.Course.{begins, start_work};
ghost use Rattle.session_verbs.specs.Journal.{may_go};
ghost use Rattle.session_laws.specs.Kept.{pools_of};
ghost use Rattle.session_laws.specs.Pools.{IsReady};
ghost use Rattle.session_laws.specs.Ran.{command_for};
ghost use Rattle.plugin_session.specs.Runs.{IsAnswerToEnd, IsTurnedTo, RanTask, RunsWithoutRow, handed_of, ran_or};
ghost use Rattle.plugin_session.specs.Runs as runs;

use crate::answer::answer_to;
use crate::run_add::run_add;
use crate::words::command_of;
use cni_addr::{Addr, Items, NoMemory};
use cni_errors::Ending;
use cni_errors::fields::{att_of, del_refusal};
use cni_result::AddResult;
use kernel_model::Kernel;
use kernel_types::Call;
use plugin_registry::{Ask, Calls, Promise, Registry, Results};
use pod_file::{Command, Verb};
use session_file::{SessionConf, Task};
use session_laws::{Row, TaskAnswer};
use session_verbs::check::check;
use session_verbs::collect::collect;
use session_verbs::delete::{kinds_back, take_back};
use session_verbs::{Begun, Journal, PartEnd};
use std::alloc::Global;

/// What a task goes by besides its host: its session's network and pools, and the row of its attachment with what that
/// row's task was leased.
#[derive(Drop)]
pub(crate) struct Hand<'a> {
    pub alloc: Global,
    pub conf: &'a SessionConf,
    /// The task's number, from 1.
    pub number: u32,
    pub task: &'a Task,
    pub row: Option<&'a Row>,
    pub leased: &'a [Addr],
}

/// What a task came to: its answer, and the row that it made.
#[derive(Drop)]
pub(crate) struct TaskRun {
    pub answer: TaskAnswer,
    pub begun: Option<Begun>,
}

/// The answer, or that memory was refused.
pub(crate) fn answered(answer: Result<TaskAnswer, NoMemory>) -> TaskAnswer
    ensures { result ≡ runs.answered answer }
{
    match answer {
        Ok(answer) => answer,
        Err(NoMemory) => TaskAnswer::OutOfMemory,
    }
}

/// What a task comes to that makes no row.
pub(crate) fn without_row(answer: Result<TaskAnswer, NoMemory>) -> TaskRun
    ensures { result ≡ record { answer = runs.answered answer; begun = None } }
{
    TaskRun {
        answer: answered(answer),
        begun: None,
    }
}

/// What a task came to, or that memory was refused before its first call.
fn ran_or(run: Result<TaskRun, NoMemory>) -> TaskRun
    ensures { result ≡ runs.ran_or run }
{
    match run {
        Ok(run) => run,
        Err(NoMemory) => without_row(Err(NoMemory)),
    }
}

/// The answer to a part that ends a task; an ADD's result is no part of it.
pub(crate) fn answer_end<K: Kernel + Drop>(
    alloc: Global,
    journal: &Journal<K>,
    command: &Command,
    end: &PartEnd,
) -> Result<TaskAnswer, NoMemory>
    requires { end.now ≡ PartEnd.Stopped → may_go journal.now ≡ false }
    ensures { IfOk result (IsAnswerToEnd command.now journal.now end.now) }
{
    match end {
        PartEnd::Over(ending) => answer_to(alloc, command, ending),
        PartEnd::Stopped => Ok(TaskAnswer::Stopped {
            calls: journal.stopped_after(),
        }),
    }
}

/// A DEL, by the row of its attachment.
fn run_del<K: Kernel + Drop>(
    journal: &mut Journal<K>,
    hand: &Hand<'_>,
    command: &Command,
) -> Result<TaskAnswer, NoMemory>
    requires verb { hand.now.task.now.verb ≡ verbs.Del }
    requires command { command.now ≡ command_for (handed_of hand.now) }
    requires turned { IsTurnedTo (handed_of hand.now) journal.old }
    requires ready { IsReady (pools_of hand.now.conf.now) journal.old.host }
    ensures ran { RunsWithoutRow (handed_of hand.now) (del_refusal command.now) journal.old journal.new
        (runs.answered result) }
    ensures ready { IsReady (pools_of hand.now.conf.now) journal.new.host }
{
    let alloc = hand.alloc;
    if let Some(cause) = del_refusal(command) {
        return answer_to(alloc, command, &Ending::Refused(cause));
    }
    let att = att_of(command)?;
    let kinds = kinds_back(alloc, hand.conf.ipam.as_ref(), hand.row)?;
    let end = take_back(journal, &att, kinds.as_slice(), Ending::Yes)?;
    answer_end(alloc, journal, command, &end)
}

/// A CHECK, by the row of its attachment and what that was leased.
fn run_check<K: Kernel + Drop>(
    journal: &mut Journal<K>,
    hand: &Hand<'_>,
    command: &Command,
) -> Result<TaskAnswer, NoMemory>
    requires verb { hand.now.task.now.verb ≡ verbs.Check }
    requires command { command.now ≡ command_for (handed_of hand.now) }
    requires turned { IsTurnedTo (handed_of hand.now) journal.old }
    requires ready { IsReady (pools_of hand.now.conf.now) journal.old.host }
    ensures ran { RunsWithoutRow (handed_of hand.now) (del_refusal command.now) journal.old journal.new
        (runs.answered result) }
    ensures ready { IsReady (pools_of hand.now.conf.now) journal.new.host }
{
    let alloc = hand.alloc;
    if let Some(cause) = del_refusal(command) {
        return answer_to(alloc, command, &Ending::Refused(cause));
    }
    let att = att_of(command)?;
    let end = check(journal, &att, hand.row, hand.leased)?;
    answer_end(alloc, journal, command, &end)
}

/// A GC, which keeps the attachments that its task names.
fn run_gc<K: Kernel + Drop>(
    journal: &mut Journal<K>,
    hand: &Hand<'_>,
    command: &Command,
) -> Result<TaskAnswer, NoMemory>
    requires verb { begins hand.now.task.now.verb ≡ Collecting start_work [] }
    requires command { command.now ≡ command_for (handed_of hand.now) }
    requires turned { IsTurnedTo (handed_of hand.now) journal.old }
    requires ready { IsReady (pools_of hand.now.conf.now) journal.old.host }
    ensures ran { RunsWithoutRow (handed_of hand.now) None journal.old journal.new (runs.answered result) }
    ensures ready { IsReady (pools_of hand.now.conf.now) journal.new.host }
{
    let end = collect(journal, &hand.conf.network, hand.task.valid.as_slice())?;
    answer_end(hand.alloc, journal, command, &end)
}

/// Runs a task that the journal is turned to.
fn run_by_verb<K: Kernel + Drop, P: Promise>(
    journal: &mut Journal<K>,
    hand: &Hand<'_>,
    command: &Command,
    registry: &Registry<P>,
) -> Result<TaskRun, NoMemory>
    requires command { command.now ≡ command_for (handed_of hand.now) }
    requires turned { IsTurnedTo (handed_of hand.now) journal.old }
    requires ready { IsReady (pools_of hand.now.conf.now) journal.old.host }
    requires promised { (plugin : _) → Contains registry.now.plugins.items plugin
        → Keeps (λ ask. ask.now) (λ r f. ForOk r f) plugin.needs
        (⟦<Calls as Fn(Global, &Ask) -> Result<Items<Call>, NoMemory>>⟧.post plugin.calls)
        (P.may_call plugin.name)
        × Keeps (λ ask. ask.now) (λ r f. ForOk r f) plugin.needs
        (⟦<Results as Fn(Global, &Ask) -> Result<AddResult, NoMemory>>⟧.post plugin.result)
        (P.may_result plugin.name) }
    ensures ran { RanTask (record {
      plugins = map (λ p. record { name = p.name; needs = p.needs; kinds = p.kinds }) registry.now.plugins.items;
      may_call = P.may_call;
      may_result = P.may_result;
    }) (handed_of hand.now) journal.old journal.new (ran_or result) }
    ensures ready { IsReady (pools_of hand.now.conf.now) journal.new.host }
{
    match hand.task.verb {
        Verb::Add => run_add(journal, hand, command, registry),
        Verb::Del => {
            let answer = run_del(journal, hand, command);
            let _made = journal.made();
            Ok(without_row(answer))
        }
        Verb::Check => {
            let answer = run_check(journal, hand, command);
            let _made = journal.made();
            Ok(without_row(answer))
        }
        // A session's configuration has no verb besides, but a GC.
        _ => {
            let answer = run_gc(journal, hand, command);
            let _made = journal.made();
            Ok(without_row(answer))
        }
    }
}

/// Turns the journal to a task, and takes the task's words for those of a command.
fn begin_task<K: Kernel + Drop>(
    journal: &mut Journal<K>,
    hand: &Hand<'_>,
) -> Result<Command, NoMemory>
    ensures turned { OnOk result (IsTurnedTo (handed_of hand.now) journal.new) }
    ensures command { IfOk result (λ command. command ≡ command_for (handed_of hand.now)) }
    ensures history { journal.new.history ≡ journal.old.history }
    ensures host { journal.new.host ≡ journal.old.host }
{
    let task = hand.task;
    journal.turn_to(hand.number, task.stop, task.faults.as_slice())?;
    command_of(hand.alloc, &hand.conf.network, hand.number, task)
}

/// Runs the task of this number, from 1, to its answer. Want of memory is an answer too, and what was made then is
/// kept.
pub(crate) fn run_task<K: Kernel + Drop, P: Promise>(
    journal: &mut Journal<K>,
    hand: &Hand<'_>,
    registry: &Registry<P>,
) -> TaskRun
    requires ready { IsReady (pools_of hand.now.conf.now) journal.old.host }
    requires promised { (plugin : _) → Contains registry.now.plugins.items plugin
        → Keeps (λ ask. ask.now) (λ r f. ForOk r f) plugin.needs
        (⟦<Calls as Fn(Global, &Ask) -> Result<Items<Call>, NoMemory>>⟧.post plugin.calls)
        (P.may_call plugin.name)
        × Keeps (λ ask. ask.now) (λ r f. ForOk r f) plugin.needs
        (⟦<Results as Fn(Global, &Ask) -> Result<AddResult, NoMemory>>⟧.post plugin.result)
        (P.may_result plugin.name) }
    ensures ran { RanTask (record {
      plugins = map (λ p. record { name = p.name; needs = p.needs; kinds = p.kinds }) registry.now.plugins.items;
      may_call = P.may_call;
      may_result = P.may_result;
    }) (handed_of hand.now) journal.old journal.new result }
    ensures ready { IsReady (pools_of hand.now.conf.now) journal.new.host }
{
    match begin_task(journal, hand) {
        Ok(command) => ran_or(run_by_verb(journal, hand, &command, registry)),
        Err(NoMemory) => without_row(Err(NoMemory)),
    }
}
