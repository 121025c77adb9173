//! What a plugin makes of its request at an ADD.

ghost use Rattle.std.specs.Prelude.{◌≡◌, ◌++◌, codes, IfOk, OnOk, Some};
ghost use Rattle.std.specs.Option.{option_copied};
ghost use Rattle.host_local.specs.Conf.{range_sets_of};
ghost use Rattle.host_local.specs.Leases.{lease_calls_of};
ghost use Rattle.exec_protocol.specs.Work as defined;

use crate::types::{Request, Work};
use cni_addr::{Duplicate, Items, NoMemory, Text};
use cni_result::{AddResult, PortMapping, Version};
use host_local::{ipam_result_of, lease_calls};
use kernel_types::{Att, Call, Given, NamedAtt};
use net_conf::{Chained, First, HostLocalConf, Plugin};
use plugin_chain::plugins::{
    calls_after, calls_before, chained_calls, chained_result, first_result, ipam_of,
};
use std::alloc::Global;

/// Puts the items at the end.
pub(crate) fn push_all<T: Drop>(list: &mut Vec<T>, more: Items<T>) -> Result<(), NoMemory>
    ensures { OnOk result (list.new.items ≡ list.old.items ++ more) }
{
    let mut more = more.into_vec();
    list.append(&mut more)?;
    Ok(())
}

// ---- the first plugin

fn leases_of(
    alloc: Global,
    ipam: Option<&HostLocalConf>,
    att: &Att,
) -> Result<Items<Call>, NoMemory>
    ensures { IfOk result (λ calls.
        calls ≡ lease_calls_of (range_sets_of (option_copied ipam.entry)) att.now) }
{
    match ipam {
        Some(conf) => lease_calls(alloc, conf, att),
        None => Ok(Items::new(alloc)),
    }
}

/// What the first plugin of a list makes where these addresses are given, one of each of its range sets: the calls that
/// lease them stand between those that make the link and those that lay the addresses on. As linear as the plugin's
/// own calls, and linear in the range sets.
pub fn first_work(
    alloc: Global,
    first: &First,
    version: Version,
    att: &NamedAtt,
    netns: &Text,
    given: &[Given],
) -> Result<Work, NoMemory>
    ensures { IfOk result (λ w. w ≡ defined.first_work first.now version att.now netns.now given.now) }
{
    let mut calls = calls_before(alloc, first, att, netns)?.into_vec();
    push_all(&mut calls, leases_of(alloc, ipam_of(first), att.att())?)?;
    push_all(&mut calls, calls_after(alloc, first, att, netns, given)?)?;
    let ipam = ipam_result_of(alloc, ipam_of(first), given, version)?;
    let result = first_result(alloc, first, att, netns, &ipam)?;
    Ok(Work {
        calls: Items::of_vec(calls),
        result,
    })
}

// ---- the chained plugins

/// What a chained plugin makes, which goes on from the result of the one before.
pub fn chained_work(
    alloc: Global,
    chained: &Chained,
    att: &Att,
    netns: &Text,
    mappings: &[PortMapping],
    prev: AddResult,
) -> Result<Work, NoMemory>
    ensures { IfOk result (λ w. w ≡ defined.chained_work chained.now att.now netns.now mappings.now prev) }
{
    let calls = chained_calls(alloc, chained, att, netns, mappings, &prev)?;
    let result = chained_result(alloc, chained, prev)?;
    Ok(Work { calls, result })
}

// ---- a request

fn att_of(request: &Request) -> Result<Att, NoMemory>
    ensures { IfOk result (λ att. att ≡ defined.att_of_request request.now) }
{
    Ok(Att {
        network: request.name.copy()?,
        container: request.env.container.copy()?,
        ifname: request.env.ifname.copy()?,
    })
}

fn work_of_first(
    alloc: Global,
    request: &Request,
    first: &First,
    given: &[Given],
) -> Result<Work, NoMemory>
    ensures { IfOk result (λ w. w ≡ defined.first_work first.now request.now.version
        (defined.att_of_request request.now) request.now.env.netns given.now) }
{
    let att = NamedAtt::of(alloc, att_of(request)?)?;
    first_work(
        alloc,
        first,
        request.version,
        &att,
        &request.env.netns,
        given,
    )
}

fn work_of_chained(
    alloc: Global,
    request: &Request,
    chained: &Chained,
    prev: &AddResult,
) -> Result<Work, NoMemory>
    ensures { IfOk result (λ w. w ≡ defined.chained_work chained.now
        (defined.att_of_request request.now) request.now.env.netns request.now.mappings prev.now) }
{
    let att = att_of(request)?;
    let netns = &request.env.netns;
    let mappings = request.mappings.as_slice();
    chained_work(alloc, chained, &att, netns, mappings, prev.copy()?)
}

/// What the plugin of the request makes of it: its calls, the leases among them, and its result, where these addresses
/// are given, one of each range set. A chained plugin has its addresses from the result before it, and asks for none.
pub fn work(alloc: Global, request: &Request, given: &[Given]) -> Result<Work, NoMemory>
    requires add { request.now.env.command ≡ codes "ADD" }
    requires prev { defined.HasItsPrev request.now.plugin request.now.prev }
    ensures { IfOk result (λ w. defined.work_of request.now given.now ≡ Some w) }
{
    match (&request.plugin, &request.prev) {
        (Plugin::First(first), _) => work_of_first(alloc, request, first, given),
        (Plugin::Chained(chained), Some(prev)) => work_of_chained(alloc, request, chained, prev),
        (Plugin::Chained(_), None) => unreachable!(),
    }
}
