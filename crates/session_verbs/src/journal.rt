//! The journal: the kernel, the history, and the task at hand.

ghost use Rattle.std.specs.Prelude.{◌≡◌, ◌≤◌, ◌+◌, ◌∷◌, [], true, IfOk, IfSome, OnOk, OnErr};
ghost use Rattle.std.specs.List.{list_any};
ghost use Rattle.std.specs.Prelude.{ℕ, ◌==◌, Some, false};
ghost use Rattle.std.specs.Option.{option_copied};
ghost use Rattle.kernel_types.specs.Allowed.{IsAllowed};
ghost use Rattle.kernel_types.specs.Replies.{is_fault};
ghost use Rattle.kernel_types.specs.Sound.{IsSound};
ghost use Rattle.pod_file.specs.Faults.{are_after};
ghost use Rattle.session_verbs.specs.Journal.{IsIdle, IsLastReply, after_entries, made_next, may_go};

use cni_addr::{NoMemory, RefCounted};
use kernel_model::Kernel;
use kernel_types::{Call, Host, Reply};
use pod_file::Faults;
use session_laws::Entry;
use std::alloc::Global;
use std::marker::Model;

/// The kernel that a session works on, what was done, and where the task at hand is.
#[derive(Drop)]
pub struct Journal<K: Kernel> {
    kernel: K,
    history: Vec<Entry>,
    task: u32,
    made: u64,
    stop: Option<u32>,
    faults: Faults,
}

impl<K: Kernel> Model for Journal<K> {
    ghost use Rattle.session_verbs.specs.Journal.{JournalView, IsKeptBy};

    ghost Value = { JournalView };

    ghost view = { λ j. record {
      host = K.host j.kernel;
      history = j.history.items;
      task = j.task;
      made = j.made;
      stop = j.stop;
      faults = j.faults;
    } };

    ghost invariant = { λ j. IsKeptBy j.history.items j.made j.stop };
}

impl<K: Kernel + Drop> Journal<K> {
    /// A journal in which nothing is done yet, and that is turned to no task.
    pub fn new(alloc: Global, kernel: K) -> Result<Journal<K>, NoMemory>
        ensures host { IfOk result (λ j. j.host ≡ K.host kernel) }
        ensures history { IfOk result (λ j. j.history ≡ []) }
        ensures idle { IfOk result IsIdle }
    {
        Ok(Journal {
            kernel,
            history: Vec::new(alloc),
            task: 0,
            made: 0,
            stop: None,
            faults: Faults::of(alloc, &[])?,
        })
    }

    /// Turns to a task, none of whose calls is made yet. Out of memory it leaves the journal as it was.
    pub fn turn_to(&mut self, task: u32, stop: Option<u32>, faults: &[u32]) -> Result<(), NoMemory>
        ensures ok { OnOk result (self.new ≡ record self.old {
          task = task;
          made = 0;
          stop = stop;
          faults = self.new.faults;
        }) }
        ensures faults { OnOk result ((made : ℕ) → are_after made self.new.faults
            ≡ list_any (λ k. k == made + 1) faults.now) }
        ensures err { OnErr result (self.new ≡ self.old) }
    {
        self.faults = Faults::of(*self.history.allocator(), faults)?;
        self.task = task;
        self.made = 0;
        self.stop = stop;
        Ok(())
    }

    /// Whether the task at hand isn't to be stopped here.
    pub(crate) fn may_go(&self) -> bool
        ensures { result ≡ may_go self.now }
    {
        match self.stop {
            None => true,
            Some(most) => self.made < most as u64,
        }
    }

    /// Makes a call of the task at hand, or meets a fault, and enters it with its reply. The memory for the entry is
    /// taken before the host changes.
    pub(crate) fn make(&mut self, call: RefCounted<Call>) -> Result<(), NoMemory>
        requires allowed { IsAllowed self.old.host call }
        requires sound { IsSound self.old.host }
        requires before_stop { may_go self.old ≡ true }
        ensures ok { OnOk result (self.new ≡ after_entries self.old (made_next self.old call ∷ [])) }
        ensures reply { OnOk result (IsLastReply self.new (made_next self.old call).reply) }
        ensures err { OnErr result (self.new ≡ self.old) }
        ensures sound { IsSound self.new.host }
    {
        let alloc = *self.history.allocator();
        self.history.reserve(1)?;
        let reply = if self.faults.are_after(self.made) {
            Reply::Fault
        } else {
            self.kernel.call(alloc, call.get())?
        };
        self.history.push_reserved(Entry {
            task: self.task,
            call,
            reply,
        });
        self.made += 1;
        Ok(())
    }

    /// The reply to the last call.
    pub(crate) fn reply(&self) -> Option<&Reply>
        ensures { (reply : _) → IsLastReply self.now reply → option_copied result ≡ Some reply }
    {
        self.history.last().map(|entry| &entry.reply)
    }

    /// Whether the last call was a fault.
    pub(crate) fn met_fault(&self) -> bool
        ensures { (reply : _) → IsLastReply self.now reply → result ≡ is_fault reply }
    {
        match self.reply() {
            Some(reply) => is_fault(reply),
            None => false,
        }
    }

    /// How many calls of the task at hand were made.
    pub fn made(&self) -> u64
        ensures made { result ≡ self.now.made }
        ensures stopped { IfSome self.now.stop (λ most. result ≤ most) }
    {
        self.made
    }

    /// How many calls the task at hand made where it is stopped.
    pub fn stopped_after(&self) -> u32
        requires { may_go self.now ≡ false }
        ensures stop { self.now.stop ≡ Some result }
        ensures made { self.now.made ≡ result }
    {
        match self.stop {
            Some(most) => most,
            None => unreachable!(),
        }
    }

    /// The calls that were made and their replies, oldest first.
    pub fn history(&self) -> &[Entry]
        ensures { result.now ≡ self.now.history }
    {
        self.history.as_slice()
    }

    /// The allocator of the history.
    pub(crate) fn alloc(&self) -> Global {
        *self.history.allocator()
    }

    /// A copy of the host.
    pub fn host(&self) -> Result<Host, NoMemory>
        ensures { IfOk result (λ host. host ≡ self.now.host) }
    {
        self.kernel.host(*self.history.allocator())
    }
}

fn is_fault(reply: &Reply) -> bool
    ensures { result ≡ is_fault reply.now }
{
    matches!(reply, Reply::Fault)
}
