//! The requests of an ADD, each with the result of the plugin before.

ghost use Rattle.std.specs.Prelude.{◌≡◌, false, map, All, IfOk};
ghost use Rattle.serde_json.specs.View.{view};
ghost use Rattle.serde_json.specs.Written.{has_float};
ghost use Rattle.plugin_chain.specs.Wanted as wanted;
ghost use Rattle.plugin_requests.specs.Adding as defined;

use crate::raw_list::RawList;
use crate::writing::request_to;
use cni_addr::{Addr, NoMemory, Text};
use cni_errors::fields::named_att_of;
use cni_json::Value;
use cni_result::{AddResult, PortMapping};
use cni_verbs::mappings::mappings_of;
use host_local::{given_of, ipam_result_of};
use kernel_types::NamedAtt;
use net_conf::NetList;
use plugin_chain::plugins::{chained_result, first_result, ipam_of};
use plugin_chain::wanted::sets_of;
use pod_file::Command;
use std::alloc::Global;

fn first_plugin_result(
    alloc: Global,
    list: &NetList,
    att: &NamedAtt,
    netns: &Text,
    addrs: &[Addr],
) -> Result<AddResult, NoMemory>
    ensures { IfOk result (λ r. r ≡ wanted.first_plugin_result list.now att.now netns.now addrs.now) }
{
    let given = given_of(alloc, sets_of(list), addrs)?;
    let ipam = ipam_result_of(alloc, ipam_of(&list.first), given.as_slice(), list.version)?;
    first_result(alloc, &list.first, att, netns, &ipam)
}

/// The requests to all plugins, where the first one has this result.
fn chain_requests(
    alloc: Global,
    raw: &RawList,
    mappings: &[PortMapping],
    first: AddResult,
) -> Result<Vec<Value>, NoMemory>
    ensures requests { IfOk result (λ made. map view made.items ≡ defined.chain_requests raw.now mappings.now first) }
    ensures numbers { IfOk result (λ made. All (λ v. has_float (view v) ≡ false) made.items) }
{
    let list = raw.list().get();
    raw.is_raw();
    let [object, others @ ..] = raw.objects() else {
        unreachable!();
    };
    let mut requests = Vec::new(alloc);
    requests.push(request_to(alloc, list, object, None, mappings, None)?)?;
    let mut prev = first;
    for (plugin, object) in list.chained.as_slice().iter().zip(others) {
        requests.push(request_to(alloc, list, object, Some(&prev), mappings, None)?)?;
        prev = chained_result(alloc, plugin, prev)?;
    }
    Ok(requests)
}

/// The requests of an ADD that is leased these addresses, the k-th of the k-th set: one to each plugin, in list order,
/// and in each the result of the plugin before it, as JSON. Linear in the objects, and for each chained plugin in the
/// result and the mappings.
pub fn requests_of_add(
    alloc: Global,
    raw: &RawList,
    command: &Command,
    addrs: &[Addr],
) -> Result<Vec<Value>, NoMemory>
    ensures requests { IfOk result (λ made. map view made.items ≡ defined.add_requests raw.now command.now addrs.now) }
    ensures numbers { IfOk result (λ made. All (λ v. has_float (view v) ≡ false) made.items) }
{
    let list = raw.list().get();
    let att = named_att_of(alloc, command)?;
    let first = first_plugin_result(alloc, list, &att, &command.netns, addrs)?;
    let mappings = mappings_of(alloc, list, command)?;
    chain_requests(alloc, raw, mappings.as_slice(), first)
}
