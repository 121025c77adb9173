//! What carries a command on: the run of a verb, or of a GC.

ghost use Rattle.std.specs.Prelude.{◌≡◌, ◌+◌, ◌<◌, ◌^◌, [], false, true, IfOk, IsOk, OnErr, OnOk, is_some};
ghost use Rattle.std.specs.Bool.{FalseIff};
ghost use Rattle.std.specs.Option.{option_copied};
ghost use Rattle.cni_verbs.specs.Progress.{advanced, answer_at, is_gc, progress};
ghost use Rattle.cni_verbs.specs.Script.{IsOpen, next_call};
ghost use Rattle.kernel_types.specs.Replies.{holds_text_or_list, is_fault};
ghost use Rattle.pod_workers.specs.Tasks.{AreFaultsOf, view_of};
ghost use Rattle.pod_workers.specs.World.{is_faulty};

use cni_addr::{NoMemory, RefCounted};
use cni_errors::Answer;
use cni_verbs::Run;
use gc_sweep::GcRun;
use kernel_types::{Call, Reply};
use net_conf::NetList;
use pod_file::{Command, Faults, Verb};
use std::alloc::Global;
use std::marker::Model;

/// A GC has a run of its own: it keeps owners, and no leases. Each other command is a `Run`.
#[derive(Drop)]
enum Carried {
    Verb(Run),
    Collection(GcRun),
}

/// A run, and which of its calls are to fail.
#[derive(Drop)]
struct Begun {
    run: Carried,
    faults: Faults,
}

/// The run of a command, of whichever verb: how far its script has come, and whether it is prepared for what is next.
#[derive(Drop)]
pub(crate) struct Task {
    // Boxed, since a book has a place for the task of each command and a step hands it from one function to the next.
    begun: Box<Begun>,
}

impl Model for Task {
    ghost use Rattle.cni_verbs.specs.Progress.{RunView};
    ghost use Rattle.pod_workers.specs.Tasks.{AreFaultsOf, view_of};

    ghost Value = { RunView };

    ghost view = { λ t. view_of t.begun.value.run };

    ghost invariant = { λ t. AreFaultsOf t.begun.value.faults (view_of t.begun.value.run).progress.command };
}

impl Task {
    // `start` and `answer` are called once a run. Inlined, they would have each step clear their stack.

    /// The run of a command before its first call. A GC has a list.
    #[inline(never)]
    pub fn start(
        alloc: Global,
        list: Option<&RefCounted<NetList>>,
        command: &Command,
    ) -> Result<Task, NoMemory>
        requires { is_gc command.now.verb ≡ true → is_some list ≡ true }
        ensures { IfOk result (λ task. task.progress ≡ progress (option_copied list.entry) command.now []) }
    {
        let faults = Faults::of(alloc, command.faults.as_slice())?;
        if is_gc(command.verb) {
            match list {
                Some(list) => Task::of_collection(alloc, list, command, faults),
                None => unreachable!(),
            }
        } else {
            let run = Run::start(alloc, list, command)?;
            Task::of(alloc, Carried::Verb(run), faults)
        }
    }

    fn of(alloc: Global, run: Carried, faults: Faults) -> Result<Task, NoMemory>
        requires { AreFaultsOf faults (view_of run).progress.command }
        ensures { IfOk result (λ task. task ≡ view_of run) }
    {
        Ok(Task {
            begun: Box::new(alloc, Begun { run, faults })?,
        })
    }

    fn of_collection(
        alloc: Global,
        list: &RefCounted<NetList>,
        command: &Command,
        faults: Faults,
    ) -> Result<Task, NoMemory>
        requires verb { is_gc command.now.verb ≡ true }
        requires faults { AreFaultsOf faults command.now }
        ensures { IfOk result (λ task. task.progress ≡ progress (Some list.now) command.now []) }
    {
        let run = GcRun::start(alloc, list, command)?;
        Task::of(alloc, Carried::Collection(run), faults)
    }

    /// Makes what the next call is looked up in. How far the run has come stays the same, also out of memory.
    pub fn prepare(&mut self) -> Result<(), NoMemory>
        ensures same { self.new.progress ≡ self.old.progress }
        ensures ready { OnOk result (self.new.prepared ≡ true) }
        ensures left { OnErr result (self.new.prepared ≡ self.old.prepared) }
    {
        match &mut self.begun.run {
            Carried::Verb(run) => run.prepare(),
            Carried::Collection(_) => Ok(()),
        }
    }

    /// How many calls it has made.
    pub fn made(&self) -> u64
        ensures { result ≡ self.now.progress.made }
    {
        match &self.begun.run {
            Carried::Verb(run) => run.made(),
            Carried::Collection(run) => run.made(),
        }
    }

    /// Whether the next call is to fail.
    pub fn fails_next(&self) -> bool
        ensures { result ≡ is_faulty self.now.progress.command self.now.progress.made }
    {
        self.begun.faults.are_after(self.made())
    }

    /// Whether no call is left to make. Takes no memory.
    pub fn over(&self) -> bool
        ensures { FalseIff result (IsOpen self.now.progress.state) }
    {
        match &self.begun.run {
            Carried::Verb(run) => run.over(),
            Carried::Collection(run) => run.over(),
        }
    }

    /// The call to make next, or none where the run is over.
    pub fn next(&self) -> Result<Option<RefCounted<Call>>, NoMemory>
        requires prepared { self.now.prepared ≡ true }
        ensures { IfOk result (λ call. call ≡ next_call self.now.progress.command self.now.progress.state) }
    {
        match &self.begun.run {
            Carried::Verb(run) => run.next(),
            Carried::Collection(run) => run.next(),
        }
    }

    /// Takes the reply to the call that [`Task::next`] gave. It can run out of memory only where the reply is a fault
    /// or holds a text or a list, and then the run is as it was.
    pub fn take(&mut self, reply: &Reply) -> Result<(), NoMemory>
        requires prepared { self.old.prepared ≡ true }
        requires open { IsOpen self.old.progress.state }
        requires numbered { self.old.progress.made + 1 < 2 ^ 64 }
        ensures ok { OnOk result (self.new.progress ≡ advanced self.old.progress reply.now) }
        ensures err { OnErr result (self.new ≡ self.old) }
        ensures frees { is_fault reply.now ≡ false → holds_text_or_list reply.now ≡ false → IsOk result }
    {
        match &mut self.begun.run {
            Carried::Verb(run) => run.take(reply),
            Carried::Collection(run) => run.take(reply),
        }
    }

    /// What the command is answered, where the run is over.
    #[inline(never)]
    pub fn answer(&self) -> Result<Option<Answer>, NoMemory>
        ensures { IfOk result (λ answer. answer ≡ answer_at self.now.progress) }
    {
        match &self.begun.run {
            Carried::Verb(run) => run.answer(),
            Carried::Collection(run) => run.answer(),
        }
    }
}

fn is_gc(verb: Verb) -> bool
    ensures { result ≡ is_gc verb }
{
    matches!(verb, Verb::Gc)
}
