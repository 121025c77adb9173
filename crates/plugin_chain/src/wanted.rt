//! The calls of an ADD, its result, and the kinds of objects that a DEL takes back, each as the plugins of a list make
//! it one after another.

ghost use Rattle.std.specs.Prelude.{◌≡◌, ◌∷◌, ◌++◌, ◌<◌, ◌≤◌, [], length, IfOk, OnOk};
ghost use Rattle.host_local.specs.Results.{ipam_result_of};
ghost use Rattle.kernel_types.specs.declared.call.Call.TheVariants as call;
ghost use Rattle.net_conf.specs.Sets.{most_sets};
ghost use Rattle.plugin_chain.specs.Wanted as wanted;

use crate::plugins::{
    calls_after, chained_calls, chained_kinds, chained_result, first_kinds, first_result, ipam_of,
};
use cni_addr::{Addr, Duplicate, Items, NoMemory, RangeSet, RefCounted, Text};
use cni_result::{AddResult, Cached, PortMapping};
use host_local::{given_of, ipam_result_of};
use kernel_types::{Att, Call, Given, Kind, NamedAtt};
use net_conf::{Chained, NetList};
use std::alloc::Global;

fn push_all<T: Drop>(list: &mut Vec<T>, more: Items<T>) -> Result<(), NoMemory>
    ensures { OnOk result (list.new.items ≡ list.old.items ++ more) }
{
    let mut more = more.into_vec();
    list.append(&mut more)?;
    Ok(())
}

// ---- addresses

/// The range sets of the list, of each of which an ADD leases one address. Takes no memory.
pub fn sets_of(list: &NetList) -> &[RefCounted<RangeSet>]
    ensures all { result.now ≡ wanted.sets_of list.now }
    ensures few { length result.now ≤ most_sets }
{
    match ipam_of(&list.first) {
        Some(ipam) => ipam.sets.as_slice(),
        None => &[],
    }
}

fn first_plugin_result(
    alloc: Global,
    list: &NetList,
    att: &NamedAtt,
    netns: &Text,
    given: &[Given],
) -> Result<AddResult, NoMemory>
    ensures { IfOk result (λ r. r ≡ wanted.first_result list.now.first att.now netns.now
        (ipam_result_of (wanted.ipam_of list.now.first) given.now list.now.version)) }
{
    let ipam = ipam_result_of(alloc, ipam_of(&list.first), given, list.version)?;
    first_result(alloc, &list.first, att, netns, &ipam)
}

// ---- the chained plugins

fn all_chained_results(
    alloc: Global,
    chained: &[Chained],
    first: AddResult,
) -> Result<AddResult, NoMemory>
    ensures { IfOk result (λ r. r ≡ wanted.all_chained_results chained.now first) }
{
    let mut prev = first;
    for plugin in chained {
        prev = chained_result(alloc, plugin, prev)?;
    }
    Ok(prev)
}

/// Puts what the chained plugins call at the end, and gives the result of the last.
fn push_chained(
    alloc: Global,
    calls: &mut Vec<Call>,
    chained: &[Chained],
    att: &Att,
    netns: &Text,
    mappings: &[PortMapping],
    first: AddResult,
) -> Result<AddResult, NoMemory>
    ensures calls { OnOk result (calls.new.items
        ≡ calls.old.items ++ wanted.all_chained_calls chained.now att.now netns.now mappings.now first) }
    ensures last { IfOk result (λ last. last ≡ wanted.all_chained_results chained.now first) }
{
    let mut last = first;
    for plugin in chained {
        push_all(
            calls,
            chained_calls(alloc, plugin, att, netns, mappings, &last)?,
        )?;
        last = chained_result(alloc, plugin, last)?;
    }
    Ok(last)
}

// ---- the result

/// The result of an ADD that was leased these addresses, the k-th of the k-th set: that of the last plugin.
#[tactic(auto, unfolding(crate::specs::Wanted::result_of_add))]
pub fn result_of_add(
    alloc: Global,
    list: &NetList,
    att: &NamedAtt,
    netns: &Text,
    addrs: &[Addr],
) -> Result<AddResult, NoMemory>
    ensures { IfOk result (λ r. r ≡ wanted.result_of_add list.now att.now netns.now addrs.now) }
{
    let given = given_of(alloc, sets_of(list), addrs)?;
    let first = first_plugin_result(alloc, list, att, netns, given.as_slice())?;
    all_chained_results(alloc, list.chained.as_slice(), first)
}

// ---- the calls

fn cached_result(
    alloc: Global,
    netns: &Text,
    mappings: Items<PortMapping>,
    last: AddResult,
) -> Result<RefCounted<Cached>, NoMemory>
    ensures { IfOk result (λ cached.
        cached ≡ record { netns = netns.now; mappings = mappings; result = last }) }
{
    let netns = netns.copy()?;
    RefCounted::of(
        alloc,
        Cached {
            netns,
            mappings,
            result: last,
        },
    )
}

/// What the plugins of an ADD make after its last lease.
#[derive(Drop)]
pub struct PluginCalls {
    /// The calls of the first plugin and those of each chained one.
    pub calls: Items<Call>,
    /// The result of the last plugin.
    pub result: AddResult,
}

/// The calls that the plugins of an ADD make after its last lease, where it was leased these addresses: all but that of
/// the cached result. Linear in the addresses, the routes, settings and plugins of the list, and the mappings.
#[tactic(auto, unfolding(crate::specs::Wanted::result_of_add))]
pub fn plugin_calls(
    alloc: Global,
    list: &NetList,
    att: &NamedAtt,
    netns: &Text,
    mappings: &[PortMapping],
    addrs: &[Addr],
) -> Result<PluginCalls, NoMemory>
    ensures calls { IfOk result (λ made.
        made.calls ++ call.CachePut att.now (wanted.cached_of list.now att.now netns.now mappings.now addrs.now) ∷ []
        ≡ wanted.back_calls list.now att.now netns.now mappings.now addrs.now) }
    ensures last { IfOk result (λ made. made.result ≡ wanted.result_of_add list.now att.now netns.now addrs.now) }
{
    let given = given_of(alloc, sets_of(list), addrs)?;
    let first = first_plugin_result(alloc, list, att, netns, given.as_slice())?;
    let after = calls_after(alloc, &list.first, att, netns, given.as_slice())?;
    let mut calls = after.into_vec();
    let result = push_chained(
        alloc,
        &mut calls,
        list.chained.as_slice(),
        att.att(),
        netns,
        mappings,
        first,
    )?;
    Ok(PluginCalls {
        calls: Items::of_vec(calls),
        result,
    })
}

/// What an ADD makes after its last lease.
#[derive(Drop)]
pub struct Back {
    /// The calls of the plugins, and the one that puts the cached result.
    pub calls: Items<Call>,
    /// The cached result, which holds the result of the last plugin.
    pub cached: RefCounted<Cached>,
}

/// The calls of an ADD after its last lease, where it was leased these addresses, and its cached result. As linear as
/// [`plugin_calls`].
pub fn back_calls(
    alloc: Global,
    list: &NetList,
    att: &NamedAtt,
    netns: &Text,
    mappings: Items<PortMapping>,
    addrs: &[Addr],
) -> Result<Back, NoMemory>
    ensures calls { IfOk result (λ back.
        back.calls ≡ wanted.back_calls list.now att.now netns.now mappings addrs.now) }
    ensures added { IfOk result (λ back.
        back.cached.result ≡ wanted.result_of_add list.now att.now netns.now addrs.now) }
{
    let made = plugin_calls(alloc, list, att, netns, mappings.as_slice(), addrs)?;
    let cached = cached_result(alloc, netns, mappings, made.result)?;
    let mut calls = made.calls.into_vec();
    calls.push(Call::CachePut {
        att: att.att().copy()?,
        cached: cached.copy()?,
    })?;
    Ok(Back {
        calls: Items::of_vec(calls),
        cached,
    })
}

// ---- deletions

fn chained_kinds_reversed(alloc: Global, chained: &[Chained]) -> Result<Vec<Kind>, NoMemory>
    ensures { IfOk result (λ kinds. kinds.items ≡ wanted.chained_kinds_reversed chained.now) }
{
    let mut kinds = Vec::with_capacity(alloc, chained.len())?;
    for place in (0..chained.len()).rev() {
        let [kind] = chained_kinds(&chained[place]);
        kinds.push(kind)?;
    }
    Ok(kinds)
}

/// The kinds of objects that are taken back, the last plugin's first, and the cached result at the end. A kind may come
/// twice. Linear in the plugins.
pub fn kinds_of(alloc: Global, list: &NetList) -> Result<Items<Kind>, NoMemory>
    ensures { IfOk result (λ kinds. kinds ≡ wanted.kinds_of list.now) }
{
    let mut kinds = chained_kinds_reversed(alloc, list.chained.as_slice())?;
    push_all(&mut kinds, first_kinds(alloc, &list.first)?)?;
    kinds.push(Kind::Cached)?;
    Ok(Items::of_vec(kinds))
}

/// The call that takes back the attachment's objects of a kind.
pub fn deletion(att: Att, kind: Kind) -> Call
    ensures { result ≡ wanted.deletion att kind }
{
    match kind {
        Kind::Links => Call::LinkDel { att },
        Kind::Rules => Call::RuleDel { att },
        Kind::Settings => Call::SettingDel { att },
        Kind::Leases => Call::LeaseDel { att },
        Kind::Cached => Call::CacheDel { att },
    }
}
