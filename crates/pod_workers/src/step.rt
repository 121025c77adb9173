//! One step of one command: its task, begun where it isn't, tells what comes next, and a call is made and entered.

ghost use Rattle.std.specs.Prelude.{◌≡◌, ◌+◌, ◌<◌, ◌≤◌, ◌^◌, [], ◌∷◌, ◌++◌, ◌||◌, IfOk, IsTrue, OnErr, OnOk, length};
ghost use Rattle.std.specs.Prelude.{true, false};
ghost use Rattle.cni_verbs.specs.Progress.{advanced};
ghost use Rattle.cni_verbs.specs.Replies.{host_after, reply_to};
ghost use Rattle.cni_verbs.specs.Script.{IsOpen};
ghost use Rattle.kernel_types.specs.Allowed.{IsAllowed};
ghost use Rattle.pod_workers.specs.Slots.{IsCountable, MayStepTask, StepsTask, begun_by, next_in};
ghost use Rattle.pod_workers.specs.Tasks.{IsListed};
ghost use Rattle.pod_workers.specs.World.{IsUpToStop, after_entry, entry_by, is_stop};

use crate::join::list_in;
use crate::plan::{Entry, Next};
use crate::task::Task;
use cni_addr::{NoMemory, RefCounted};
use cni_errors::Answer;
use kernel_model::Kernel;
use kernel_types::{Call, Reply};
use net_conf::NetList;
use pod_file::Command;
use std::alloc::Global;

/// What a step came to: a call was made and the task goes on, or the command is answered.
#[derive(Drop)]
pub(crate) enum Stepped {
    Called(Task),
    Answered(Answer),
}

/// One step of one command, by its task where it is begun. Its memory is taken before host and history change.
pub(crate) fn step_command<K: Kernel>(
    kernel: &mut K,
    history: &mut Vec<Entry>,
    lists: &[RefCounted<NetList>],
    command: &Command,
    cut: bool,
    task: Option<Task>,
) -> Result<Stepped, NoMemory>
    requires may { MayStepTask (K.host kernel.old) history.old.items command.now cut
        (begun_by lists.now command.now task) }
    requires listed { IsListed lists.now command.now }
    ensures ok { IfOk result (StepsTask (K.host kernel.old) (K.host kernel.new) history.old.items history.new.items
        command.now cut (begun_by lists.now command.now task)) }
    ensures err { OnErr result ((K.host kernel.new ≡ K.host kernel.old) × (history.new.items ≡ history.old.items)) }
{
    let task = begin_task(*history.allocator(), lists, command, task)?;
    step_task(kernel, history, command, cut, task)
}

/// The task of a command, begun where it isn't.
#[tactic(auto, unfolding(crate::specs::Slots::begun_by))]
fn begin_task(
    alloc: Global,
    lists: &[RefCounted<NetList>],
    command: &Command,
    task: Option<Task>,
) -> Result<Task, NoMemory>
    requires { IsListed lists.now command.now }
    ensures { IfOk result (λ begun. begun.progress ≡ begun_by lists.now command.now task) }
{
    match task {
        Some(task) => Ok(task),
        None => Task::start(alloc, list_in(lists, command), command),
    }
}

// A task, a call and a reply are let go by `drop`, which keeps the code that takes them apart in one place.
/// One step of a task that is begun.
fn step_task<K: Kernel>(
    kernel: &mut K,
    history: &mut Vec<Entry>,
    command: &Command,
    cut: bool,
    mut task: Task,
) -> Result<Stepped, NoMemory>
    requires { MayStepTask (K.host kernel.old) history.old.items command.now cut task.progress }
    ensures ok { IfOk result (StepsTask (K.host kernel.old) (K.host kernel.new) history.old.items history.new.items
        command.now cut task.progress) }
    ensures err { OnErr result ((K.host kernel.new ≡ K.host kernel.old) × (history.new.items ≡ history.old.items)) }
{
    match next_step(&mut task, command, cut) {
        Err(NoMemory) => {
            drop(task);
            Err(NoMemory)
        }
        Ok(Next::Answer(answer)) => {
            drop(task);
            Ok(Stepped::Answered(answer))
        }
        Ok(Next::Call { call, faulty }) => {
            match make_call(kernel, history, &mut task, command.number, call, faulty) {
                Err(NoMemory) => {
                    drop(task);
                    Err(NoMemory)
                }
                Ok(()) => Ok(Stepped::Called(task)),
            }
        }
    }
}

/// What a task does next: its script's answer, else a stop, else a call. The task is prepared for it.
fn next_step(task: &mut Task, command: &Command, cut: bool) -> Result<Next, NoMemory>
    requires of_command { task.old.progress.command ≡ command.now }
    requires countable { IsCountable command.now cut task.old.progress.made }
    ensures next { IfOk result (λ next. next ≡ next_in command.now cut task.old.progress) }
    ensures same { task.new.progress ≡ task.old.progress }
    ensures prepared { OnOk result (task.new.prepared ≡ true) }
{
    let made = task.made();
    task.prepare()?;
    if task.over() {
        match task.answer()? {
            Some(answer) => Ok(Next::Answer(answer)),
            None => unreachable!(),
        }
    } else if is_stopped(command.stop, cut, made) {
        Ok(Next::Answer(Answer::Stopped { calls: made as u32 }))
    } else {
        match task.next()? {
            Some(call) => Ok(Next::Call {
                call,
                faulty: task.fails_next(),
            }),
            None => unreachable!(),
        }
    }
}

fn is_stopped(stop: Option<u32>, cut: bool, made: u64) -> bool
    requires within { IsUpToStop stop made }
    requires cut { cut ≡ true → made < 2 ^ 32 }
    ensures stop { result ≡ (is_stop stop made || cut) }
    ensures small { IsTrue result → made < 2 ^ 32 }
{
    match stop {
        None => cut,
        Some(most) => most as u64 <= made || cut,
    }
}

/// Makes a call, or meets a fault. The task takes the reply, and call and reply are entered.
fn make_call<K: Kernel>(
    kernel: &mut K,
    history: &mut Vec<Entry>,
    task: &mut Task,
    command: u32,
    call: RefCounted<Call>,
    faulty: bool,
) -> Result<(), NoMemory>
    requires allowed { faulty ≡ false → IsAllowed (K.host kernel.old) call }
    requires prepared { task.old.prepared ≡ true }
    requires unfinished { IsOpen task.old.progress.state }
    requires few { task.old.progress.made ≤ length history.old.items }
    ensures task { OnOk result (task.new.progress
        ≡ advanced task.old.progress (reply_to (K.host kernel.old) call faulty)) }
    ensures host { OnOk result (K.host kernel.new
        ≡ after_entry (K.host kernel.old) (entry_by (K.host kernel.old) command call faulty)) }
    ensures history { OnOk result (history.new.items
        ≡ history.old.items ++ entry_by (K.host kernel.old) command call faulty ∷ []) }
    ensures err { OnErr result ((K.host kernel.new ≡ K.host kernel.old) × (history.new.items ≡ history.old.items)) }
{
    let alloc = *history.allocator();
    if history.reserve(1).is_err() {
        drop(call);
        return Err(NoMemory);
    }
    let _room = history.capacity();
    match reply_to(alloc, kernel, call.get(), faulty) {
        Err(NoMemory) => {
            drop(call);
            Err(NoMemory)
        }
        Ok(reply) => match task.take(&reply) {
            Err(NoMemory) => {
                drop(call);
                drop(reply);
                Err(NoMemory)
            }
            Ok(()) => {
                history.push_reserved(Entry {
                    command,
                    call,
                    reply,
                });
                Ok(())
            }
        },
    }
}

/// What the kernel replies to a call, or `Fault`.
fn reply_to<K: Kernel>(
    alloc: Global,
    kernel: &mut K,
    call: &Call,
    faulty: bool,
) -> Result<Reply, NoMemory>
    requires { faulty ≡ false → IsAllowed (K.host kernel.old) call.now }
    ensures reply { IfOk result (λ reply. reply ≡ reply_to (K.host kernel.old) call.now faulty) }
    ensures host { IfOk result (λ reply. K.host kernel.new ≡ host_after (K.host kernel.old) call.now reply) }
    ensures err { OnErr result (K.host kernel.new ≡ K.host kernel.old) }
{
    if faulty {
        Ok(Reply::Fault)
    } else {
        kernel.call(alloc, call)
    }
}
