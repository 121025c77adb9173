//! The run of a GC, a call at a time.

ghost use Rattle.std.specs.Prelude.{◌≡◌, ◌+◌, ◌<◌, ◌^◌, IfOk, OnOk, OnErr, IsOk, Some, None, [], false, true};
ghost use Rattle.std.specs.Bool.{FalseIff};
ghost use Rattle.kernel_types.specs.Replies.{holds_text_or_list, is_fault};
ghost use Rattle.cni_verbs.specs.Progress.{is_gc, progress, advanced, answer_at};
ghost use Rattle.cni_verbs.specs.Script.{IsOpen, next_call, faults_after, swept};
ghost use Rattle.gc_sweep.specs.Sweep.{is_early};
ghost use Rattle.gc_sweep.specs.View.{ending_in};

use crate::place::SweepPlace;
use crate::valid::ValidIndex;
use cni_addr::{Duplicate, Items, NoMemory, RefCounted};
use cni_errors::{Answer, Cause, Ending, plain_answer};
use cni_verbs::early_ending;
use kernel_types::{Call, Kind, Reply};
use net_conf::NetList;
use plugin_chain::wanted::kinds_of;
use pod_file::Command;
use std::alloc::Global;
use std::marker::Model;

/// The run of one GC. It keeps the owners of the sweep at hand and the numbers of its faults, and no replies.
#[derive(Drop)]
pub struct GcRun {
    list: RefCounted<NetList>,
    command: Command,
    made: u64,
    kinds: Items<Kind>,
    valid: ValidIndex,
    place: SweepPlace,
    faults: Items<u64>,
}

impl Model for GcRun {
    ghost use Rattle.cni_verbs.specs.Progress.{Progress};
    ghost use Rattle.gc_sweep.specs.Valid.{IsIndexOf};
    ghost use Rattle.gc_sweep.specs.View.{progress_of, IsInRange};

    ghost Value = { Progress };

    ghost view = { λ r. progress_of r.list r.command r.made r.place r.faults };

    ghost invariant = { λ r. IsInRange r.list r.kinds r.place × IsIndexOf r.command.valid r.valid };
}

impl GcRun {
    /// The run of a GC of this list's network, before its first call.
    ///
    /// It shares the list, copies the command, and keeps both until it is dropped. Texts are shared too, so that takes
    /// time and memory in proportion to the valid attachments, port mappings and faults of the command. Besides it
    /// indexes the valid ones ([`ValidIndex::of`]), and makes the kinds of a DEL, of which each plugin of the list has
    /// three at most.
    pub fn start(
        alloc: Global,
        list: &RefCounted<NetList>,
        command: &Command,
    ) -> Result<GcRun, NoMemory>
        requires { is_gc command.now.verb ≡ true }
        ensures { IfOk result (λ run. run ≡ progress (Some list.now) command.now []) }
    {
        let list_copy = list.copy()?;
        let command_copy = command.copy()?;
        let kinds = kinds_of(alloc, list.get())?;
        let valid = ValidIndex::of(alloc, command.valid.as_slice())?;
        Ok(GcRun {
            list: list_copy,
            command: command_copy,
            made: 0,
            kinds,
            valid,
            place: SweepPlace::start(alloc),
            faults: Items::new(alloc),
        })
    }

    /// The call to make next, or none where the run is over.
    pub fn next(&self) -> Result<Option<RefCounted<Call>>, NoMemory>
        ensures { IfOk result (λ call. call ≡ next_call self.now.command self.now.state) }
    {
        if is_early(self.list.get()) {
            Ok(None)
        } else {
            let alloc = *self.place.owners.allocator();
            self.place
                .next_call(alloc, &self.command.network, self.kinds.as_slice())
        }
    }

    /// Takes the reply to the call that [`GcRun::next`] gave. It can run out of memory only for a fault's number
    /// and for a copy of the owners that a reply tells, and then the run is as it was.
    pub fn take(&mut self, reply: &Reply) -> Result<(), NoMemory>
        requires open { IsOpen self.old.state }
        requires numbered { self.old.made + 1 < 2 ^ 64 }
        ensures ok { OnOk result (self.new ≡ advanced self.old reply.now) }
        ensures err { OnErr result (self.new ≡ self.old) }
        ensures frees { is_fault reply.now ≡ false → holds_text_or_list reply.now ≡ false → IsOk result }
    {
        let faulty = is_fault(reply);
        note_fault(&mut self.faults, self.made + 1, faulty)?;
        self.place.take(self.kinds.as_slice(), &self.valid, reply)?;
        self.made += 1;
        Ok(())
    }

    /// How many calls it has made.
    pub fn made(&self) -> u64
        ensures { result ≡ self.now.made }
    {
        self.made
    }

    /// Whether no call is left to make.
    pub fn over(&self) -> bool
        ensures { FalseIff result (IsOpen self.now.state) }
    {
        is_early(self.list.get()) || self.place.is_done()
    }

    /// What the command is answered, where the run is over. A fault doesn't end a GC: the error names each call
    /// that was one.
    pub fn answer(&self) -> Result<Option<Answer>, NoMemory>
        ensures { IfOk result (λ answer. answer ≡ answer_at self.now) }
    {
        let alloc = *self.place.owners.allocator();
        match self.ending()? {
            Some(ending) => Ok(Some(plain_answer(
                alloc,
                self.list.get().version,
                &self.command,
                &ending,
            )?)),
            None => Ok(None),
        }
    }

    /// How the GC ends, where it is over.
    fn ending(&self) -> Result<Option<Ending>, NoMemory>
        ensures { IfOk result (λ ending. ending ≡ ending_in self.now.state) }
    {
        match early_ending(self.list.get()) {
            Some(ending) => Ok(Some(ending)),
            None => {
                if self.place.is_done() {
                    Ok(Some(swept(&self.faults)?))
                } else {
                    Ok(None)
                }
            }
        }
    }
}

/// Whether the list gives its answer before any call.
fn is_early(list: &NetList) -> bool
    ensures { result ≡ is_early list.now.version list.now.disable_gc }
{
    early_ending(list).is_some()
}

/// How a GC with these faults ends, where no work is left.
fn swept(faults: &Items<u64>) -> Result<Ending, NoMemory>
    ensures { IfOk result (λ ending. ending ≡ swept faults.now) }
{
    if faults.as_slice().is_empty() {
        Ok(Ending::Yes)
    } else {
        Ok(Ending::Refused(Cause::Faults(faults.copy()?)))
    }
}

fn is_fault(reply: &Reply) -> bool
    ensures { result ≡ is_fault reply.now }
{
    match reply {
        Reply::Fault => true,
        _ => false,
    }
}

/// Adds the number of a call, if it was faulty.
fn note_fault(faults: &mut Items<u64>, number: u64, faulty: bool) -> Result<(), NoMemory>
    ensures ok { OnOk result (faults.new ≡ faults_after number faults.old faulty) }
    ensures err { OnErr result (faults.new ≡ faults.old) }
    ensures frees { faulty ≡ false → IsOk result }
{
    if faulty {
        faults.push(number)?;
    }
    Ok(())
}
