//! The leases of an ADD, one of each range set.

ghost use Rattle.std.specs.Prelude.{◌≡◌, ◌<◌, ◌≤◌, ◌^◌, ◌+◌, [], ◌∷◌, ◌++◌, length, Ok, IfOk, vec_len, vec_capacity};
ghost use Rattle.std.specs.Option.{option_copied};
ghost use Rattle.kernel_types.specs.Allowed.{IsAllowed};
ghost use Rattle.kernel_types.specs.Sound.{IsSound};
ghost use Rattle.kernel_types.specs.declared.call.Call.TheVariants.{LeaseNext};
ghost use Rattle.pod_file.specs.declared.command.Command.{Command};
ghost use Rattle.cni_errors.specs.CommandFields.{att_of};
ghost use Rattle.cni_verbs.specs.Script.{leases_in};
ghost use Rattle.session_verbs.specs.Adds.{LeaseEndsAs, Steps, lease_end_by};
ghost use Rattle.session_laws.specs.Course.{Course, leasing};
ghost use Rattle.session_laws.specs.Pools.{IsReady, sets_by};

use crate::journal::Journal;
use crate::step::{StepEnd, cause_of};
use cni_addr::{Addr, Duplicate, NoMemory, RangeSet, RefCounted};
use kernel_model::Kernel;
use kernel_types::{Att, Call, Reply};
use net_conf::{HostLocalConf, RangeSets};

/// How a lease ends from the set of this number, by the number of the call and its reply. The address that it leased
/// comes behind those that are given.
fn take_lease(
    set: u32,
    number: u64,
    reply: &Reply,
    given: &mut Vec<Addr>,
) -> Result<StepEnd, NoMemory>
    requires { vec_len given.old < vec_capacity given.old }
    ensures ok { IfOk result (λ end. end ≡ lease_end_by set number reply.now) }
    ensures given { given.new.items ≡ given.old.items ++ leases_in (reply.now ∷ []) }
    ensures room { vec_capacity given.new ≡ vec_capacity given.old }
{
    match reply {
        Reply::Leased(addr) => {
            given.push_reserved(*addr);
            Ok(StepEnd::Granted)
        }
        refusal => Ok(StepEnd::Refused(cause_of(set, number, refusal)?)),
    }
}

/// Leases from the set whose number is that of the addresses that are given. The address comes behind them.
fn lease_next<K: Kernel + Drop>(
    journal: &mut Journal<K>,
    att: &Att,
    set: &RefCounted<RangeSet>,
    given: &mut Vec<Addr>,
) -> Result<StepEnd, NoMemory>
    requires allowed { IsAllowed journal.old.host (LeaseNext att.now (length given.old.items) set.now) }
    requires sound { IsSound journal.old.host }
    requires few { length given.old.items < 2 ^ 32 }
    requires room { length given.old.items < vec_capacity given.old }
    ensures ends { LeaseEndsAs att.now set.now journal.old journal.new given.old.items given.new.items result }
    ensures room { vec_capacity given.new ≡ vec_capacity given.old }
{
    if !journal.may_go() {
        return Ok(StepEnd::Stopped);
    }
    let number = given.len() as u32;
    let call = Call::LeaseNext {
        att: att.copy()?,
        number,
        set: set.copy()?,
    };
    journal.make(RefCounted::of(journal.alloc(), call)?)?;
    match journal.reply() {
        Some(reply) => take_lease(number, journal.made(), reply, given),
        None => unreachable!(),
    }
}

/// Leases from each set in order.
fn lease_all<K: Kernel + Drop>(
    journal: &mut Journal<K>,
    att: &Att,
    sets: &RangeSets,
    given: &mut Vec<Addr>,
) -> Result<StepEnd, NoMemory>
    requires ready { IsReady (record { network = att.now.network; sets = sets.now }) journal.old.host }
    requires none { given.old.items ≡ [] }
    requires room { length sets.now ≤ vec_capacity given.old }
    ensures ends { (co : Course) (c : Command) → att_of c ≡ att.now
        → Steps co c journal.old journal.new (leasing co sets.now []) (leasing co [] given.new.items)
        [] given.new.items result }
    ensures whole { result ≡ Ok StepEnd.Granted → length given.new.items ≡ length sets.now }
    ensures ready { IsReady (record { network = att.now.network; sets = sets.now }) journal.new.host }
{
    for set in sets.as_slice() {
        match lease_next(journal, att, set, given)? {
            StepEnd::Granted => {}
            end => return Ok(end),
        }
    }
    Ok(StepEnd::Granted)
}

/// Leases from each set of a network in order. A network without addresses has no set.
pub(crate) fn lease_by<K: Kernel + Drop>(
    journal: &mut Journal<K>,
    att: &Att,
    ipam: Option<&HostLocalConf>,
    given: &mut Vec<Addr>,
) -> Result<StepEnd, NoMemory>
    requires ready { IsReady (record { network = att.now.network; sets = sets_by (option_copied ipam) })
        journal.old.host }
    requires none { given.old.items ≡ [] }
    requires room { length (sets_by (option_copied ipam)) ≤ vec_capacity given.old }
    ensures ends { (co : Course) (c : Command) → att_of c ≡ att.now → Steps co c journal.old journal.new
        (leasing co (sets_by (option_copied ipam.entry)) []) (leasing co [] given.new.items) [] given.new.items result }
    ensures whole { result ≡ Ok StepEnd.Granted
        → length given.new.items ≡ length (sets_by (option_copied ipam.entry)) }
    ensures ready { IsReady (record { network = att.now.network; sets = sets_by (option_copied ipam.entry) })
        journal.new.host }
{
    match ipam {
        Some(conf) => lease_all(journal, att, &conf.sets, given),
        None => Ok(StepEnd::Granted),
    }
}
