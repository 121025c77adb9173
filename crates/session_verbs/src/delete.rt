//! A deletion: a DEL, and how an ADD takes back what it made.

ghost use Rattle.std.specs.Prelude.{◌≡◌, ◌∷◌, [], List, true, IfOk, OnErr, OnOk};
ghost use Rattle.std.specs.Option.{option_copied};
ghost use Rattle.kernel_types.specs.Replies.{is_fault};
ghost use Rattle.kernel_types.specs.Sound.{IsSound};
ghost use Rattle.kernel_types.specs.declared.call.Call.{TheVariants.{CacheGet}};
ghost use Rattle.kernel_types.specs.declared.call.Kind.{Kind};
ghost use Rattle.pod_file.specs.declared.command.Command.{Command};
ghost use Rattle.cni_errors.specs.CommandFields.{att_of};
ghost use Rattle.cni_verbs.specs.Script as script;
ghost use Rattle.plugin_chain.specs.Wanted as wanted;
ghost use Rattle.session_laws.specs.Course.{Course};
ghost use Rattle.session_verbs.specs.Journal.{EndsAs, KindEndsAs, KindsEndAs};
ghost use Rattle.session_verbs.specs.Journal.{after_entries, kind_end_by, made_next, may_go};
ghost use Rattle.session_laws.specs.Pools.{IsReady, Pools};
ghost use Rattle.session_laws.specs.Tasks as tasks;

use crate::journal::Journal;
use crate::part::PartEnd;
use cni_addr::{Duplicate, Items, NoMemory, RefCounted};
use cni_errors::{Cause, Ending};
use kernel_model::Kernel;
use kernel_types::{Att, Call, Kind, Reply};
use net_conf::HostLocalConf;
use plugin_chain::wanted::deletion;
use session_laws::Row;
use std::alloc::Global;

/// How the deletions of one kind end.
#[derive(Clone, Copy, Drop)]
pub(crate) enum KindEnd {
    /// Nothing of it is left.
    Gone,
    /// The last call was a fault.
    Fault,
    Stopped,
}

/// The kinds that a deletion deletes, in order, by the row of its attachment.
pub fn kinds_back(
    alloc: Global,
    ipam: Option<&HostLocalConf>,
    row: Option<&Row>,
) -> Result<Items<Kind>, NoMemory>
    ensures { IfOk result (λ kinds. kinds ≡ tasks.kinds_back (option_copied ipam.entry) (option_copied row.entry)) }
{
    let mut kinds = Items::new(alloc);
    if let Some(row) = row {
        for kind in row.kinds.as_slice() {
            kinds.push(*kind)?;
        }
        if ipam.is_some() {
            kinds.push(Kind::Leases)?;
        }
    }
    kinds.push(Kind::Cached)?;
    Ok(kinds)
}

/// Makes one deletion of a kind, and says how it ends the kind's deletions, if it does.
fn delete_one<K: Kernel + Drop>(
    journal: &mut Journal<K>,
    att: &Att,
    kind: Kind,
) -> Result<Option<KindEnd>, NoMemory>
    requires before_stop { may_go journal.old ≡ true }
    requires sound { IsSound journal.old.host }
    ensures ok { OnOk result (journal.new
        ≡ after_entries journal.old (made_next journal.old (wanted.deletion att.now kind) ∷ [])) }
    ensures end { IfOk result (λ end. end
        ≡ kind_end_by (made_next journal.old (wanted.deletion att.now kind)).reply) }
    ensures err { OnErr result (journal.new ≡ journal.old) }
    ensures sound { IsSound journal.new.host }
{
    let call = deletion(att.copy()?, kind);
    journal.make(RefCounted::of(journal.alloc(), call)?)?;
    Ok(match journal.reply() {
        Some(Reply::Gone(false)) => Some(KindEnd::Gone),
        Some(Reply::Fault) => Some(KindEnd::Fault),
        _ => None,
    })
}

/// Deletes a kind of the attachment's objects, one a call, until nothing of it is left. A fault ends it.
fn delete_kind<K: Kernel + Drop>(
    journal: &mut Journal<K>,
    att: &Att,
    kind: Kind,
) -> Result<KindEnd, NoMemory>
    requires { IsSound journal.old.host }
    ensures ends { (co : Course) (c : Command) (left : List Kind) (ending : _) → att_of c ≡ att.now
        → KindEndsAs co c journal.old journal.new kind left ending result }
    ensures ready { (pools : Pools) → IsReady pools journal.old.host → IsReady pools journal.new.host }
    ensures sound { IsSound journal.new.host }
{
    loop {
        if !journal.may_go() {
            return Ok(KindEnd::Stopped);
        }
        if let Some(end) = delete_one(journal, att, kind)? {
            return Ok(end);
        }
    }
}

/// How a deletion ends that met a fault: for it, where nothing was refused before.
fn faulted(number: u64, ending: Ending) -> Ending
    ensures { result ≡ script.faulted number ending }
{
    match ending {
        Ending::Refused(cause) => Ending::Refused(cause),
        _ => Ending::Refused(Cause::Fault(number)),
    }
}

/// Deletes kind by kind, up to the first fault.
fn delete_each<K: Kernel + Drop>(
    journal: &mut Journal<K>,
    att: &Att,
    kinds: &[Kind],
) -> Result<KindEnd, NoMemory>
    requires { IsSound journal.old.host }
    ensures ends { (co : Course) (c : Command) (ending : _) → att_of c ≡ att.now
        → KindsEndAs co c journal.old journal.new kinds.now ending result }
    ensures ready { (pools : Pools) → IsReady pools journal.old.host → IsReady pools journal.new.host }
    ensures sound { IsSound journal.new.host }
{
    for kind in kinds {
        match delete_kind(journal, att, *kind)? {
            KindEnd::Gone => {}
            KindEnd::Fault => return Ok(KindEnd::Fault),
            KindEnd::Stopped => return Ok(KindEnd::Stopped),
        }
    }
    Ok(KindEnd::Gone)
}

/// Deletes kind by kind, and ends so where no call is a fault.
fn delete_kinds<K: Kernel + Drop>(
    journal: &mut Journal<K>,
    att: &Att,
    kinds: &[Kind],
    ending: Ending,
) -> Result<PartEnd, NoMemory>
    requires { IsSound journal.old.host }
    ensures ends { (co : Course) (c : Command) → att_of c ≡ att.now
        → EndsAs co c journal.old journal.new (script.deleting kinds.now ending) result }
    ensures ready { (pools : Pools) → IsReady pools journal.old.host → IsReady pools journal.new.host }
    ensures sound { IsSound journal.new.host }
{
    match delete_each(journal, att, kinds)? {
        KindEnd::Gone => Ok(PartEnd::Over(ending)),
        KindEnd::Fault => Ok(PartEnd::Over(faulted(journal.made(), ending))),
        KindEnd::Stopped => Ok(PartEnd::Stopped),
    }
}

/// Reads the attachment's cached result, and says whether that was a fault.
fn read_cached<K: Kernel + Drop>(journal: &mut Journal<K>, att: &Att) -> Result<bool, NoMemory>
    requires before_stop { may_go journal.old ≡ true }
    requires sound { IsSound journal.old.host }
    ensures ok { OnOk result (journal.new
        ≡ after_entries journal.old (made_next journal.old (CacheGet att.now) ∷ [])) }
    ensures fault { IfOk result (λ met. met
        ≡ is_fault (made_next journal.old (CacheGet att.now)).reply) }
    ensures err { OnErr result (journal.new ≡ journal.old) }
    ensures sound { IsSound journal.new.host }
{
    let call = Call::CacheGet { att: att.copy()? };
    journal.make(RefCounted::of(journal.alloc(), call)?)?;
    Ok(journal.met_fault())
}

/// Reads the cached result, as a DEL does, and deletes kind by kind. It ends so where no call is a fault.
pub fn take_back<K: Kernel + Drop>(
    journal: &mut Journal<K>,
    att: &Att,
    kinds: &[Kind],
    ending: Ending,
) -> Result<PartEnd, NoMemory>
    requires { IsSound journal.old.host }
    ensures ends { (co : Course) (c : Command) → att_of c ≡ att.now → co.kinds ≡ kinds.now
        → EndsAs co c journal.old journal.new (script.ReadingCache ending) result }
    ensures ready { (pools : Pools) → IsReady pools journal.old.host → IsReady pools journal.new.host }
    ensures sound { IsSound journal.new.host }
{
    if !journal.may_go() {
        return Ok(PartEnd::Stopped);
    }
    let met_fault = read_cached(journal, att)?;
    if met_fault {
        return Ok(PartEnd::Over(faulted(journal.made(), ending)));
    }
    delete_kinds(journal, att, kinds, ending)
}
