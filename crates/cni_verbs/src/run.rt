//! One command's run, a call at a time.

ghost use Rattle.std.specs.Prelude.{◌≡◌, ◌+◌, ◌<◌, ◌≤◌, ◌^◌, is_some, false, true, [], None, Some, IfOk, OnErr, OnOk};
ghost use Rattle.std.specs.Prelude.{length, vec_capacity, IsOk};
ghost use Rattle.std.specs.Bool.{FalseIff};
ghost use Rattle.std.specs.Option.{option_copied};
ghost use Rattle.kernel_types.specs.Replies.{holds_text_or_list};
ghost use Rattle.cni_verbs.specs.Progress.{is_gc, progress, advanced, answer_at};
ghost use Rattle.cni_verbs.specs.Phases.{IsPhaseOf, state_outside};
ghost use Rattle.cni_verbs.specs.Script.{IsOpen, start_state, outside_start, next_call};
ghost use Rattle.plugin_chain.specs.Wanted.{sets_of};

use crate::advance::{after, after_outside};
use crate::ending::{answer_in, answer_outside};
use crate::next::{next_of, next_outside};
use crate::over::{is_over, is_over_outside};
use crate::phase::Phase;
use crate::prepare::{is_prepared, prepare_phase};
use crate::start::{first_outside, first_phase};
use cni_addr::{Addr, Duplicate, NoMemory, RefCounted};
use cni_errors::Answer;
use kernel_types::{Call, NamedAtt, Reply};
use net_conf::NetList;
use plugin_chain::wanted::sets_of;
use pod_file::Command;
use std::alloc::Global;
use std::marker::Model;

/// The run of one command. It keeps how far it has come and what it was leased, and no replies.
#[derive(Drop)]
pub struct Run {
    list: Option<RefCounted<NetList>>,
    command: Command,
    // Of an ADD, the names of its attachment, from the calls before the leases to those after them.
    names: Option<NamedAtt>,
    made: u64,
    phase: Phase,
    // With room for one address of each set, so that a lease takes no memory.
    given: Vec<Addr>,
}

impl Model for Run {
    ghost use Rattle.std.specs.Prelude.{◌≡◌, vec_capacity};
    ghost use Rattle.std.specs.Option.{ForSome};
    ghost use Rattle.cni_errors.specs.CommandFields.{att_of};
    ghost use Rattle.cni_verbs.specs.Phases.{KeepsOfListBy, is_prepared_by, state_by_phase};
    ghost use Rattle.cni_verbs.specs.Progress.{RunView};

    ghost Value = { RunView };

    ghost view = { λ r. record {
      progress = record {
        list = r.list;
        command = r.command;
        made = r.made;
        state = state_by_phase r.list r.command r.given.items r.phase;
      };
      prepared = is_prepared_by r.list r.phase;
    } };

    ghost invariant = { λ r.
        KeepsOfListBy r.list r.command (vec_capacity r.given) r.made r.given.items r.phase
        × ForSome r.names (λ names. names ≡ att_of r.command) };
}

impl Run {
    /// The run of a command of this list, or of a command of no network, before its first call. A GC's run is another
    /// type (`gc_sweep::GcRun`), which keeps owners and sweeps.
    ///
    /// It shares the list, copies the command, and keeps both until it is dropped. Texts are shared too, so that takes
    /// time and memory in proportion to the mappings and valid attachments of the command. Whatever the verb, it makes
    /// besides room for an address of each range set.
    pub fn start(
        alloc: Global,
        list: Option<&RefCounted<NetList>>,
        command: &Command,
    ) -> Result<Run, NoMemory>
        requires { is_gc command.now.verb ≡ false }
        ensures { IfOk result (λ run. run.progress ≡ progress (option_copied list.entry) command.now []) }
    {
        match list {
            Some(list) => Run::of_list(alloc, list, command),
            None => Run::of_no_list(alloc, command),
        }
    }

    fn of_list(
        alloc: Global,
        list: &RefCounted<NetList>,
        command: &Command,
    ) -> Result<Run, NoMemory>
        requires { is_gc command.now.verb ≡ false }
        ensures { IfOk result (λ run. run.progress ≡ progress (Some list.now) command.now []) }
    {
        let conf = list.get();
        let given = Vec::with_capacity(alloc, sets_of(conf).len())?;
        let list_copy = list.copy()?;
        let command_copy = command.copy()?;
        let phase = first_phase(alloc, conf, command)?;
        Ok(Run::begun(list_copy, command_copy, phase, given))
    }

    fn begun(list: RefCounted<NetList>, command: Command, phase: Phase, given: Vec<Addr>) -> Run
        requires phase { IsPhaseOf list command 0 [] phase (start_state list command) }
        requires room { length (sets_of list) ≤ vec_capacity given }
        requires empty { given.items ≡ [] }
        ensures { result.progress ≡ progress (Some list) command [] }
    {
        let run = Run {
            list: Some(list),
            command,
            names: None,
            made: 0,
            phase,
            given,
        };
        run
    }

    fn of_no_list(alloc: Global, command: &Command) -> Result<Run, NoMemory>
        ensures { IfOk result (λ run. run.progress ≡ progress None command.now []) }
    {
        let twin = command.copy()?;
        let phase = first_outside(alloc, command)?;
        Ok(Run::begun_outside(alloc, twin, phase))
    }

    fn begun_outside(alloc: Global, command: Command, phase: Phase) -> Run
        requires { state_outside phase ≡ outside_start command }
        ensures { result.progress ≡ progress None command [] }
    {
        let run = Run {
            list: None,
            command,
            names: None,
            made: 0,
            phase,
            given: Vec::new(alloc),
        };
        run
    }

    /// Makes ahead what the next call is looked up in, where it isn't yet: [`Run::next`] and [`Run::take`] ask for it
    /// after each reply. How far the run has come stays the same, and out of memory the run is as it was: it may be
    /// prepared again. Linear in the list, the mappings and the leased addresses, at most three times a run: before and
    /// after the leases of an ADD, and before its deletions where it is refused.
    pub fn prepare(&mut self) -> Result<(), NoMemory>
        ensures same { self.new.progress ≡ self.old.progress }
        ensures ready { OnOk result (self.new.prepared ≡ true) }
        ensures left { OnErr result (self.new.prepared ≡ self.old.prepared) }
    {
        if self.is_prepared() {
            return Ok(());
        }
        self.make_ahead()
    }

    fn is_prepared(&self) -> bool
        ensures { result ≡ self.now.prepared }
    {
        match &self.list {
            Some(_) => is_prepared(&self.phase),
            None => true,
        }
    }

    // Apart from `prepare`, so that a step doesn't clear a stack for what is made ahead.
    #[inline(never)]
    fn make_ahead(&mut self) -> Result<(), NoMemory>
        requires { self.old.prepared ≡ false }
        ensures same { self.new.progress ≡ self.old.progress }
        ensures ready { OnOk result (self.new.prepared ≡ true) }
        ensures left { OnErr result (self.new.prepared ≡ self.old.prepared) }
    {
        let alloc = *self.given.allocator();
        match &self.list {
            Some(list) => prepare_phase(
                alloc,
                list.get(),
                &self.command,
                &mut self.names,
                self.given.as_slice(),
                &mut self.phase,
            ),
            None => unreachable!(),
        }
    }

    /// The call to make next, or none where the run is over. A call that is made ahead is shared, and each other is
    /// built here, linear in that call alone.
    pub fn next(&self) -> Result<Option<RefCounted<Call>>, NoMemory>
        requires prepared { self.now.prepared ≡ true }
        ensures { IfOk result (λ call. call ≡ next_call self.now.progress.command self.now.progress.state) }
    {
        match &self.list {
            Some(list) => next_of(
                *self.given.allocator(),
                list.get(),
                &self.command,
                self.given.as_slice(),
                &self.phase,
            ),
            None => next_outside(&self.command, &self.phase),
        }
    }

    /// Takes the reply to the call that [`Run::next`] gave. It can run out of memory only where the reply holds a text
    /// or a list, for a copy of what the run keeps of it, and then the run is as it was.
    pub fn take(&mut self, reply: &Reply) -> Result<(), NoMemory>
        requires prepared { self.old.prepared ≡ true }
        requires open { IsOpen self.old.progress.state }
        requires numbered { self.old.progress.made + 1 < 2 ^ 64 }
        ensures ok { OnOk result (self.new.progress ≡ advanced self.old.progress reply.now) }
        ensures err { OnErr result (self.new ≡ self.old) }
        ensures frees { holds_text_or_list reply.now ≡ false → IsOk result }
    {
        if self.list.is_some() {
            self.take_by_list(reply)
        } else {
            self.take_outside(reply)
        }
    }

    fn take_by_list(&mut self, reply: &Reply) -> Result<(), NoMemory>
        requires listed { is_some self.old.progress.list ≡ true }
        requires prepared { self.old.prepared ≡ true }
        requires open { IsOpen self.old.progress.state }
        requires numbered { self.old.progress.made + 1 < 2 ^ 64 }
        ensures ok { OnOk result (self.new.progress ≡ advanced self.old.progress reply.now) }
        ensures err { OnErr result (self.new ≡ self.old) }
        ensures frees { holds_text_or_list reply.now ≡ false → IsOk result }
    {
        let sets = match &self.list {
            Some(list) => sets_of(list.get()).len(),
            None => unreachable!(),
        };
        after(&mut self.phase, &mut self.given, sets, self.made, reply)?;
        self.made += 1;
        Ok(())
    }

    fn take_outside(&mut self, reply: &Reply) -> Result<(), NoMemory>
        requires alone { self.old.progress.list ≡ None }
        requires numbered { self.old.progress.made + 1 < 2 ^ 64 }
        ensures ok { OnOk result (self.new.progress ≡ advanced self.old.progress reply.now) }
        ensures err { OnErr result (self.new ≡ self.old) }
        ensures frees { holds_text_or_list reply.now ≡ false → IsOk result }
    {
        after_outside(&mut self.phase, self.made + 1, reply)?;
        self.made += 1;
        Ok(())
    }

    /// How many calls it has made.
    pub fn made(&self) -> u64
        ensures { result ≡ self.now.progress.made }
    {
        self.made
    }

    /// Whether the run has no call left to make. Takes no memory.
    pub fn over(&self) -> bool
        ensures { FalseIff result (IsOpen self.now.progress.state) }
    {
        match &self.list {
            Some(_) => {
                let given = self.given.as_slice();
                is_over(given, &self.phase)
            }
            None => is_over_outside(&self.phase),
        }
    }

    /// What the command is answered, where the run is over. Linear in the answer: the result of an ADD is kept.
    pub fn answer(&self) -> Result<Option<Answer>, NoMemory>
        ensures { IfOk result (λ answer. answer ≡ answer_at self.now.progress) }
    {
        let alloc = *self.given.allocator();
        match &self.list {
            Some(list) => answer_in(
                alloc,
                list.get(),
                &self.command,
                self.given.as_slice(),
                &self.phase,
            ),
            None => answer_outside(alloc, &self.command, &self.phase),
        }
    }
}
