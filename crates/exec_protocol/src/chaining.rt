//! What all plugins of a list do at an ADD, one after another.

ghost use Rattle.std.specs.Prelude.{◌≡◌, ◌++◌, ◌∷◌, [], All, false, map, IfOk};
ghost use Rattle.serde_json.specs.View.{view};
ghost use Rattle.serde_json.specs.Written.{has_float};
ghost use Rattle.cni_json.specs.Json.{line_of};
ghost use Rattle.kernel_types.specs.declared.call.Call.TheVariants as call;
ghost use Rattle.cni_errors.specs.CommandFields.{att_of};
ghost use Rattle.plugin_chain.specs.Wanted as wanted;
ghost use Rattle.plugin_requests.specs.Adding.{add_requests};
ghost use Rattle.cni_verbs.specs.AddCalls.{calls_of_add};
ghost use Rattle.exec_protocol.specs.Work as defined;

use crate::types::{Chain, Work};
use crate::working::{chained_work, first_work, push_all};
use cni_addr::{Addr, Duplicate, Items, NoMemory, RefCounted, Text};
use cni_errors::fields::named_att_of;
use cni_json::{Value, line_text};
use cni_result::{AddResult, Cached, PortMapping};
use cni_verbs::mappings::mappings_of;
use kernel_types::{Att, Call, Given, NamedAtt};
use net_conf::{Chained, NetList};
use plugin_requests::{RawList, requests_of_add};
use pod_file::Command;
use std::alloc::Global;

// ---- calls and results

/// The work of the first plugin with that of the chained ones, each handed the result of the one before.
fn with_chained(
    alloc: Global,
    chained: &[Chained],
    att: &Att,
    netns: &Text,
    mappings: &[PortMapping],
    first: Work,
) -> Result<Work, NoMemory>
    ensures calls { IfOk result (λ w. w.calls
        ≡ first.calls ++ wanted.all_chained_calls chained.now att.now netns.now mappings.now first.result) }
    ensures last { IfOk result (λ w. w.result ≡ wanted.all_chained_results chained.now first.result) }
{
    let Work { calls, result } = first;
    let mut calls = calls.into_vec();
    let mut prev = result;
    for plugin in chained {
        let next = chained_work(alloc, plugin, att, netns, mappings, prev)?;
        push_all(&mut calls, next.calls)?;
        prev = next.result;
    }
    Ok(Work {
        calls: Items::of_vec(calls),
        result: prev,
    })
}

/// The work of all plugins of a list.
#[tactic(auto, unfolding(crate::specs::Work::plugins_work))]
fn work_of_plugins(
    alloc: Global,
    list: &NetList,
    att: &NamedAtt,
    netns: &Text,
    mappings: &[PortMapping],
    given: &[Given],
) -> Result<Work, NoMemory>
    ensures { IfOk result (λ w. w ≡ defined.plugins_work list.now att.now netns.now mappings.now given.now) }
{
    let first = first_work(alloc, &list.first, list.version, att, netns, given)?;
    let all = with_chained(
        alloc,
        list.chained.as_slice(),
        att.att(),
        netns,
        mappings,
        first,
    )?;
    Ok(all)
}

fn begin(att: &Att, netns: &Text) -> Result<Call, NoMemory>
    ensures { IfOk result (λ made. made ≡ call.Begin att.now netns.now) }
{
    Ok(Call::Begin {
        att: att.copy()?,
        netns: netns.copy()?,
    })
}

fn cache_put(
    alloc: Global,
    att: &Att,
    netns: &Text,
    mappings: Items<PortMapping>,
    added: &AddResult,
) -> Result<Call, NoMemory>
    ensures { IfOk result (λ made. made
        ≡ call.CachePut att.now (record { netns = netns.now; mappings = mappings; result = added.now })) }
{
    let cached = Cached {
        netns: netns.copy()?,
        mappings,
        result: added.copy()?,
    };
    Ok(Call::CachePut {
        att: att.copy()?,
        cached: RefCounted::of(alloc, cached)?,
    })
}

/// The work of all plugins between the begin of the attachment and the cached result.
#[tactic(auto, unfolding(crate::specs::Work::add_work))]
fn add_work(
    alloc: Global,
    att: &Att,
    netns: &Text,
    mappings: Items<PortMapping>,
    plugins: Work,
) -> Result<Work, NoMemory>
    ensures { IfOk result (λ w. w ≡ defined.add_work att.now netns.now mappings plugins) }
{
    let Work { calls, result } = plugins;
    let mut all = Vec::new(alloc);
    all.push(begin(att, netns)?)?;
    push_all(&mut all, calls)?;
    all.push(cache_put(alloc, att, netns, mappings, &result)?)?;
    Ok(Work {
        calls: Items::of_vec(all),
        result,
    })
}

fn work_of_add(
    alloc: Global,
    list: &NetList,
    command: &Command,
    given: &[Given],
) -> Result<Work, NoMemory>
    requires { defined.AreGivenFor list.now given.now }
    ensures calls { IfOk result (λ w. w.calls ≡ calls_of_add list.now command.now (defined.addresses given.now)) }
    ensures last { IfOk result (λ w. w.result
        ≡ wanted.result_of_add list.now (att_of command.now) command.now.netns (defined.addresses given.now)) }
{
    let att = named_att_of(alloc, command)?;
    let mappings = mappings_of(alloc, list, command)?;
    let plugins = work_of_plugins(
        alloc,
        list,
        &att,
        &command.netns,
        mappings.as_slice(),
        given,
    )?;
    let owner = att.att();
    let work = add_work(alloc, owner, &command.netns, mappings, plugins)?;
    Ok(work)
}

// ---- requests

fn addresses(alloc: Global, given: &[Given]) -> Result<Vec<Addr>, NoMemory>
    ensures { IfOk result (λ addrs. addrs.items ≡ defined.addresses given.now) }
{
    Ok(given.iter().map(|one| one.address.addr).collect(alloc)?)
}

fn lines_of(alloc: Global, values: &[Value]) -> Result<Items<Text>, NoMemory>
    requires { All (λ v. has_float (view v) ≡ false) values.now }
    ensures { IfOk result (λ lines. lines ≡ map line_of (map view values.now)) }
{
    let mut lines = Vec::with_capacity(alloc, values.len())?;
    for value in values {
        lines.push(line_text(alloc, value)?)?;
    }
    Ok(Items::of_vec(lines))
}

fn request_lines(
    alloc: Global,
    raw: &RawList,
    command: &Command,
    given: &[Given],
) -> Result<Items<Text>, NoMemory>
    ensures { IfOk result (λ lines.
        lines ≡ map line_of (add_requests raw.now command.now (defined.addresses given.now))) }
{
    let addrs = addresses(alloc, given)?;
    let requests = requests_of_add(alloc, raw, command, addrs.as_slice())?;
    let lines = lines_of(alloc, requests.as_slice())?;
    Ok(lines)
}

/// What a runtime does at an ADD of the list that is given these addresses: the request to each plugin, written on a
/// line, the calls of all plugins between the attachment's begin and the cached result, and the last plugin's result.
/// Linear in the objects and in the plugins' own calls, and for each chained plugin in the result and the mappings.
pub fn chain(
    alloc: Global,
    raw: &RawList,
    command: &Command,
    given: &[Given],
) -> Result<Chain, NoMemory>
    requires add { defined.IsAddFor raw.now.list command.now }
    requires given { defined.AreGivenFor raw.now.list given.now }
    ensures calls { IfOk result (λ c. c.calls
        ≡ calls_of_add raw.now.list command.now (defined.addresses given.now)) }
    ensures last { IfOk result (λ c. c.result ≡ wanted.result_of_add raw.now.list (att_of command.now)
        command.now.netns (defined.addresses given.now)) }
    ensures requests { IfOk result (λ c. c.requests
        ≡ map line_of (add_requests raw.now command.now (defined.addresses given.now))) }
{
    let requests = request_lines(alloc, raw, command, given)?;
    let work = work_of_add(alloc, raw.list().get(), command, given)?;
    Ok(Chain {
        requests,
        calls: work.calls,
        result: work.result,
    })
}
