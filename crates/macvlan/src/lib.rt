//! The `macvlan` plugin: a link of the container over a link of the host.
//!
//! To the verbs it promises the calls before an address is leased, the calls after it, the result, and the kinds of
//! objects that DEL takes back. They are those of its record, `macvlan_plugin` (`specs/Macvlan.antt`), which keeps the
//! laws of a first plugin ([`laws`]).
//!
//! ```text
//! macvlan::before(alloc, &conf, &att, &netns)?        // MacvlanAdd
//! macvlan::after(alloc, &conf, &att, &netns, &given)? // AddrAdd and RouteAdd
//! ```
#![tactic(auto)]

pub mod laws;

ghost use Rattle.std.specs.Prelude.{◌≡◌, IfOk};
ghost use Rattle.macvlan.specs.Macvlan as plan;

use cni_addr::{Duplicate, Items, NoMemory, RefCounted, Text};
use cni_result::AddResult;
use host_local::{interface_kinds, routes_of};
use kernel_types::{Att, Call, Given, Kind, NamedAtt};
use net_conf::MacvlanConf;
use plugin_base::{addresses_on, ask_all, completed, inner_interface, macvlan_link, routes_on};
use std::alloc::Global;

/// The calls before an address is leased: the link.
pub fn before(
    alloc: Global,
    conf: &MacvlanConf,
    att: &NamedAtt,
    netns: &Text,
) -> Result<Items<Call>, NoMemory>
    ensures { IfOk result (λ calls. calls ≡ plan.macvlan_calls_before conf.now att.now netns.now) }
{
    let link = macvlan_link(att, netns, &conf.master, conf.mode, conf.mtu)?;
    let mut calls = Items::new(alloc);
    calls.push(Call::MacvlanAdd {
        link: RefCounted::of(alloc, link)?,
    })?;
    Ok(calls)
}

/// The calls for the given addresses: addresses and routes of the container. Linear in the given addresses and the
/// configured routes.
pub fn after(
    alloc: Global,
    conf: &MacvlanConf,
    att: &Att,
    netns: &Text,
    given: &[Given],
) -> Result<Items<Call>, NoMemory>
    ensures { IfOk result (λ calls. calls ≡ plan.macvlan_calls_after conf.now att.now netns.now given.now) }
{
    let addresses = addresses_on(alloc, att, netns, given)?;
    let routes = routes_on(alloc, att, netns, given, routes_of(conf.ipam.as_ref()))?;
    let mut calls = Vec::new(alloc);
    ask_all(&mut calls, addresses)?;
    ask_all(&mut calls, routes)?;
    Ok(Items::of_vec(calls))
}

/// The result of the address plugin with the link and its index. Linear in its addresses and routes.
pub fn result(
    alloc: Global,
    conf: &MacvlanConf,
    att: &NamedAtt,
    netns: &Text,
    ipam: &AddResult,
) -> Result<AddResult, NoMemory>
    ensures { IfOk result (λ r. r ≡ plan.macvlan_result_of conf.now att.now netns.now ipam.now) }
{
    let mut interfaces = Items::new(alloc);
    interfaces.push(inner_interface(att, netns, conf.mtu, ipam.version)?)?;
    let routes = ipam.routes.copy()?;
    completed(alloc, ipam, interfaces, 0, routes, conf.dns.copy()?)
}

/// The kinds of objects that DEL takes back.
pub fn kinds(alloc: Global, conf: &MacvlanConf) -> Result<Items<Kind>, NoMemory>
    ensures { IfOk result (λ all. all ≡ plan.macvlan_kinds_of conf.now) }
{
    interface_kinds(alloc, false, conf.ipam.as_ref())
}
