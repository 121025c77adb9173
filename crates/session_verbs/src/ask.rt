//! What the plugin of an ADD is asked, and how a row takes its answer.

ghost use Rattle.std.specs.Prelude.{◌≡◌, [], true, false, None, IfOk, IfSome, OnOk, OnErr, is_some};
ghost use Rattle.std.specs.Option.{option_copied};
ghost use Rattle.std.specs.Result.{ForOk};
ghost use Rattle.host_local.specs.Leases as leases;
ghost use Rattle.kernel_types.specs.Terms.{is_host_ns};
ghost use Rattle.plugin_registry.specs.Needs.{first_unmet};
ghost use Rattle.plugin_registry.specs.Promised.{Keeps};
ghost use Rattle.session_verbs.specs.Adds.{IsAnswer};
ghost use Rattle.session_verbs.specs.Adds as adds;
ghost use Rattle.session_laws.specs.Pools.{sets_by};

use cni_addr::{Addr, Duplicate, Items, NoMemory, RefCounted, Text};
use cni_result::{AddResult, Cached};
use host_local::given_of;
use kernel_types::{Att, Call, Given};
use net_conf::HostLocalConf;
use plugin_registry::{Ask, Calls, Plugin, Promise, Results};
use session_file::{SessionConf, Task};
use session_laws::Row;
use std::alloc::Global;

/// What the leased addresses mean by the ranges of their sets.
fn given_by(
    alloc: Global,
    ipam: Option<&HostLocalConf>,
    addrs: &[Addr],
) -> Result<Items<Given>, NoMemory>
    ensures { IfOk result (λ given. given ≡ leases.given_of (sets_by (option_copied ipam.entry)) addrs.now) }
{
    match ipam {
        Some(conf) => Ok(Items::of_vec(given_of(alloc, conf.sets.as_slice(), addrs)?)),
        None => Ok(Items::new(alloc)),
    }
}

/// What the plugin is asked, of an attachment that was leased these addresses.
fn ask_for(
    alloc: Global,
    conf: &SessionConf,
    task: &Task,
    att: &Att,
    given: &[Addr],
) -> Result<Ask, NoMemory>
    ensures { IfOk result (λ ask. ask ≡ adds.ask_for conf.now task.now att.now given.now) }
{
    Ok(Ask {
        att: att.copy()?,
        netns: task.netns.copy()?,
        options: task.options.copy()?,
        given: given_by(alloc, conf.ipam.as_ref(), given)?,
    })
}

/// A result as it is cached. No mapping of a port is kept with it.
fn cached_as(alloc: Global, netns: &Text, given: AddResult) -> Result<RefCounted<Cached>, NoMemory>
    ensures { IfOk result (λ cached. cached ≡ record { netns = netns.now; mappings = []; result = given }) }
{
    let cached = Cached {
        netns: netns.copy()?,
        mappings: Items::new(alloc),
        result: given,
    };
    RefCounted::of(alloc, cached)
}

/// Asks the plugin, and fills the row with its answer. Out of memory the row is as it was.
pub(crate) fn fill<P: Promise>(
    alloc: Global,
    plugin: &Plugin<P>,
    conf: &SessionConf,
    task: &Task,
    given: &[Addr],
    row: &mut Row,
) -> Result<(), NoMemory>
    requires container { is_host_ns task.now.netns ≡ false }
    requires options { first_unmet plugin.now.needs task.now.options ≡ None }
    requires kinds { row.old.kinds ≡ plugin.now.kinds }
    requires calls { Keeps (λ ask. ask.now) (λ r f. ForOk r f) plugin.now.needs
        (⟦<Calls as Fn(Global, &Ask) -> Result<Items<Call>, NoMemory>>⟧.post plugin.now.calls)
        (P.may_call plugin.now.name) }
    requires result { Keeps (λ ask. ask.now) (λ r f. ForOk r f) plugin.now.needs
        (⟦<Results as Fn(Global, &Ask) -> Result<AddResult, NoMemory>>⟧.post plugin.now.result)
        (P.may_result plugin.now.name) }
    ensures same { (row.new.task ≡ row.old.task) × (row.new.att ≡ row.old.att)
        × (row.new.kinds ≡ row.old.kinds) }
    ensures ok { OnOk result (IfSome row.new.cached (IsAnswer (P.may_call plugin.now.name)
        (P.may_result plugin.now.name) (adds.ask_for conf.now task.now row.old.att given.now) row.new)) }
    ensures some { OnOk result (is_some row.new.cached ≡ true) }
    ensures err { OnErr result (row.new ≡ row.old) }
{
    let ask = ask_for(alloc, conf, task, &row.att, given)?;
    let calls = plugin.ask_calls(alloc, &ask)?;
    let result = plugin.ask_result(alloc, &ask)?;
    let cached = cached_as(alloc, &ask.netns, result)?;
    row.calls = calls;
    row.cached = Some(cached);
    Ok(())
}
