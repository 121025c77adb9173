//! A GC: what the network's attachments still have, but for those that stay, is deleted kind by kind.

ghost use Rattle.std.specs.Prelude.{◌≡◌, ◌∷◌, [], List, OnOk, OnErr, true};
ghost use Rattle.kernel_types.specs.Replies.{is_fault};
ghost use Rattle.kernel_types.specs.Sound.{IsSound};
ghost use Rattle.pod_file.specs.declared.command.Command.{Command};
ghost use Rattle.pod_file.specs.declared.command.ValidAtt.{ValidAtt};
ghost use Rattle.cni_verbs.specs.Script as script;
ghost use Rattle.gc_sweep.specs.Valid.{IsIndexOf};
ghost use Rattle.gc_sweep.specs.View.{HasTaken, IsPlace};
ghost use Rattle.session_laws.specs.Course.{Course, start_work};
ghost use Rattle.session_verbs.specs.Journal.{EndsAs, after_entries, made_next, may_go};
ghost use Rattle.session_laws.specs.Pools.{IsReady, Pools};
ghost use Rattle.session_verbs.specs.Sweeping.{IsNextOf, MayHaveMade};

use crate::journal::Journal;
use crate::part::PartEnd;
use cni_addr::{Items, NoMemory, RefCounted, Text};
use cni_errors::{Cause, Ending};
use gc_sweep::{SweepPlace, ValidIndex};
use kernel_model::Kernel;
use kernel_types::{Call, Reply};
use pod_file::ValidAtt;

/// How a GC ends that met these faults.
fn swept(faults: Vec<u64>) -> Ending
    ensures { result ≡ script.swept faults.items }
{
    if faults.is_empty() {
        Ending::Yes
    } else {
        Ending::Refused(Cause::Faults(Items::of_vec(faults)))
    }
}

/// Goes on as the reply to a call of this number says. A fault is noted, and ends no GC.
fn take_reply(
    reply: &Reply,
    number: u64,
    valid: &ValidIndex,
    place: &mut SweepPlace,
    faults: &mut Vec<u64>,
) -> Result<(), NoMemory>
    requires { IsPlace [] place.old }
    ensures work { OnOk result ((list : List ValidAtt) → IsIndexOf list valid.now
        → HasTaken [] list reply.now place.old place.new) }
    ensures place { IsPlace [] place.new }
    ensures faults { OnOk result
        (faults.new.items ≡ script.faults_after number faults.old.items (is_fault reply.now)) }
{
    if let Reply::Fault = reply {
        faults.push(number)?;
    }
    place.take(&[], valid, reply)
}

/// Makes the next call of a sweep, and goes on as its reply says.
fn make_call<K: Kernel + Drop>(
    journal: &mut Journal<K>,
    call: RefCounted<Call>,
    valid: &ValidIndex,
    place: &mut SweepPlace,
    faults: &mut Vec<u64>,
) -> Result<(), NoMemory>
    requires sound { IsSound journal.old.host }
    requires before_stop { may_go journal.old ≡ true }
    requires place { IsPlace [] place.old }
    requires next { IsNextOf place.old call }
    ensures made { OnOk result (journal.new ≡ after_entries journal.old (made_next journal.old call ∷ [])) }
    ensures work { OnOk result ((list : List ValidAtt) → IsIndexOf list valid.now
        → HasTaken [] list (made_next journal.old call).reply place.old place.new) }
    ensures faults { OnOk result (faults.new.items
        ≡ script.faults_after journal.new.made faults.old.items (is_fault (made_next journal.old call).reply)) }
    ensures err { OnErr result (MayHaveMade call journal.old journal.new) }
    ensures place { IsPlace [] place.new }
    ensures ready { (pools : Pools) → IsReady pools journal.old.host → IsReady pools journal.new.host }
    ensures sound { IsSound journal.new.host }
{
    journal.make(call)?;
    let number = journal.made();
    match journal.reply() {
        Some(reply) => take_reply(reply, number, valid, place, faults),
        None => unreachable!(),
    }
}

/// Asks for the owners of each kind of objects, and deletes what the attachments that don't stay have of it. A fault
/// ends what it stands in, and the answer names its number.
pub fn collect<K: Kernel + Drop>(
    journal: &mut Journal<K>,
    network: &Text,
    valid: &[ValidAtt],
) -> Result<PartEnd, NoMemory>
    requires { IsSound journal.old.host }
    ensures ends { (co : Course) (c : Command) → c.network ≡ network.now
        → co.gc ≡ record { network = network.now; valid = valid.now; kinds = [] }
        → EndsAs co c journal.old journal.new (script.Collecting start_work []) result }
    ensures ready { (pools : Pools) → IsReady pools journal.old.host → IsReady pools journal.new.host }
{
    let alloc = journal.alloc();
    let index = ValidIndex::of(alloc, valid)?;
    let mut place = SweepPlace::by_kinds(alloc);
    let mut faults = Vec::new(alloc);
    while let Some(call) = place.next_call(alloc, network, &[])? {
        if !journal.may_go() {
            return Ok(PartEnd::Stopped);
        }
        make_call(journal, call, &index, &mut place, &mut faults)?;
    }
    Ok(PartEnd::Over(swept(faults)))
}
