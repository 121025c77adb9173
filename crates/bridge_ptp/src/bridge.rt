//! The `bridge` plugin.

ghost use Rattle.std.specs.Prelude.{◌≡◌, ◌++◌, Some, IfOk, OnOk};
ghost use Rattle.plugin_base.specs.Families.{first_of_family};
ghost use Rattle.bridge_ptp.specs.Bridge as plan;
ghost use Rattle.bridge_ptp.specs.Gateways as gateways;
ghost use Rattle.bridge_ptp.specs.Results as results;

use crate::interfaces::{bridge_interface, push_pair};
use crate::veth::veth_pair;
use cni_addr::{Addr, Cidr, Duplicate, Family, Items, NoMemory, Text, copies};
use cni_result::{AddResult, IpEntry, RouteEntry};
use host_local::{interface_kinds, ips_of, routes_of};
use kernel_types::{Att, Call, Given, Kind, NamedAtt};
use net_conf::BridgeConf;
use plugin_base::{
    Asked, EachKeyOnce, addresses_on, ask_all, ask_forward, completed, default_route,
    first_of_family, halves, masquerade_rules, routes_on,
};
use std::alloc::Global;
use std::cmp::Ordering;

// ---- before the addresses

/// The calls before an address is leased: the bridge, and the veth pair under it.
pub fn bridge_before(
    alloc: Global,
    conf: &BridgeConf,
    att: &NamedAtt,
    netns: &Text,
) -> Result<Items<Call>, NoMemory>
    ensures { IfOk result (λ calls. calls ≡ plan.bridge_calls_before conf.now att.now netns.now) }
{
    let mut calls = Items::new(alloc);
    calls.push(Call::BridgeEnsure {
        name: conf.bridge.name().copy()?,
        mtu: conf.mtu,
        promisc: conf.mode.promisc(),
    })?;
    let master = Some(conf.bridge.name().copy()?);
    calls.push(veth_pair(alloc, att, netns, master, conf.mtu, conf.mode.hairpin())?)?;
    Ok(calls)
}

// ---- routes

/// Whether a route leads there.
fn has_destination(entries: &[RouteEntry], dst: &Cidr) -> bool
    ensures { result ≡ results.has_destination entries.now dst.now }
{
    entries.iter().any(|r| r.dst == *dst)
}

/// The default route of the address's family, where `isDefaultGateway` adds it: unless it is configured.
fn default_to(is_default_gateway: bool, configured: &[RouteEntry], addr: &Addr) -> Option<Cidr>
    ensures { result ≡ results.default_to is_default_gateway configured.now addr.now.family }
{
    let dst = default_route(addr.family);
    if is_default_gateway && !has_destination(configured, &dst) {
        Some(dst)
    } else {
        None
    }
}

/// Puts the default route by the address's gateway at the end, where `isDefaultGateway` adds it.
fn push_default_by(
    entries: &mut Items<RouteEntry>,
    is_default_gateway: bool,
    configured: &[RouteEntry],
    ip: &IpEntry,
) -> Result<(), NoMemory>
    ensures { OnOk result
        (entries.new ≡ entries.old ++ results.added_default is_default_gateway configured.now (Some ip.now)) }
{
    match default_to(is_default_gateway, configured, &ip.address.addr) {
        Some(dst) => entries.push(RouteEntry {
            dst,
            gw: ip.gateway,
        }),
        None => Ok(()),
    }
}

/// Puts the family's default route at the end, where `isDefaultGateway` adds it.
fn push_default(
    entries: &mut Items<RouteEntry>,
    is_default_gateway: bool,
    configured: &[RouteEntry],
    family: Family,
    ips: &[IpEntry],
) -> Result<(), NoMemory>
    ensures { OnOk result
        (entries.new
        ≡ entries.old ++ results.added_default is_default_gateway configured.now (first_of_family family ips.now)) }
{
    match first_of_family(ips, family) {
        Some(ip) => push_default_by(entries, is_default_gateway, configured, ip),
        None => Ok(()),
    }
}

/// The configured routes, and with `isDefaultGateway` the default routes of the addresses' families that they lack.
fn result_routes(
    alloc: Global,
    is_default_gateway: bool,
    configured: &[RouteEntry],
    ips: &[IpEntry],
) -> Result<Items<RouteEntry>, NoMemory>
    ensures { IfOk result (λ entries. entries ≡ results.bridge_routes is_default_gateway configured.now ips.now) }
{
    let mut entries = copies(alloc, configured)?;
    push_default(
        &mut entries,
        is_default_gateway,
        configured,
        Family::V4,
        ips,
    )?;
    push_default(
        &mut entries,
        is_default_gateway,
        configured,
        Family::V6,
        ips,
    )?;
    Ok(entries)
}

/// The routes of the result for these addresses.
fn entries_for(
    alloc: Global,
    conf: &BridgeConf,
    given: &[Given],
) -> Result<Items<RouteEntry>, NoMemory>
    ensures { IfOk result (λ entries. entries ≡ plan.bridge_entries conf.now given.now) }
{
    let ips = ips_of(alloc, given)?;
    result_routes(
        alloc,
        conf.gateway.is_default(),
        routes_of(conf.ipam.as_ref()),
        ips.as_slice(),
    )
}

// ---- gateways

/// A gateway, and the bridge that has it as an address.
#[derive(Drop)]
pub struct Gateway {
    bridge: Text,
    cidr: Cidr,
}

impl Duplicate for Gateway {
    fn copy(&self) -> Result<Gateway, NoMemory> {
        Ok(Gateway {
            bridge: self.bridge.copy()?,
            cidr: self.cidr,
        })
    }
}

impl Asked for Gateway {
    ghost use Rattle.bridge_ptp.specs.Gateways as gateways;
    ghost use Rattle.plugin_base.specs.EachKey.{halves};
    ghost use Rattle.bridge_ptp.specs.KeyLaws.{gateway-by_key, gateway-mark};

    type Key = Addr;

    ghost key_of = { λ gateway. gateway.cidr.addr };

    ghost mark_of = { λ gateway. halves gateway.cidr.addr.bits };

    ghost same_key = { gateways.is_same_gateway };

    ghost same_by_key = { gateway-by_key };

    ghost same_mark = { gateway-mark };

    ghost call_for = { gateways.gateway_call };

    fn has_key(&self, other: &Gateway) -> bool {
        self.cidr.addr == other.cidr.addr
    }

    fn mark(&self) -> u64 {
        halves(self.cidr.addr.bits)
    }

    fn key_order(&self, other: &Gateway) -> Ordering {
        self.cidr.addr.cmp(&other.cidr.addr)
    }

    fn ask(self, _alloc: Global) -> Result<Call, NoMemory> {
        Ok(Call::GatewayEnsure {
            bridge: self.bridge,
            cidr: self.cidr,
        })
    }
}

fn gateway_of(bridge: &Text, given: &Given) -> Result<Gateway, NoMemory>
    ensures { IfOk result (λ gateway. gateway ≡ gateways.gateway_of bridge.now given.now) }
{
    Ok(Gateway {
        bridge: bridge.copy()?,
        cidr: Cidr {
            addr: given.gateway,
            prefix: given.subnet.prefix,
        },
    })
}

fn gateways_on(
    alloc: Global,
    bridge: &Text,
    given: &[Given],
) -> Result<EachKeyOnce<Gateway>, NoMemory>
    ensures { IfOk result (λ all. all ≡ gateways.gateways_on bridge.now given.now) }
{
    let mut all = EachKeyOnce::new(alloc);
    for g in given {
        all.push(gateway_of(bridge, g)?)?;
    }
    Ok(all)
}

fn ask_gateways(
    alloc: Global,
    calls: &mut Vec<Call>,
    conf: &BridgeConf,
    given: &[Given],
) -> Result<(), NoMemory>
    ensures { OnOk result (calls.new.items ≡ calls.old.items ++ plan.gateway_calls conf.now given.now) }
{
    if conf.gateway.is_gateway() {
        let all = gateways_on(alloc, conf.bridge.name(), given)?;
        ask_all(calls, all)?;
        ask_forward(calls, given)?;
    }
    Ok(())
}

// ---- after the addresses

/// The calls for the given addresses: addresses and routes of the container, with `isGateway` the gateways on the
/// bridge and forwarding, with `ipMasq` the masquerade rules. Linear in the given addresses and the configured routes.
pub fn bridge_after(
    alloc: Global,
    conf: &BridgeConf,
    att: &Att,
    netns: &Text,
    given: &[Given],
) -> Result<Items<Call>, NoMemory>
    ensures { IfOk result (λ calls. calls ≡ plan.bridge_calls_after conf.now att.now netns.now given.now) }
{
    let entries = entries_for(alloc, conf, given)?;
    let addresses = addresses_on(alloc, att, netns, given)?;
    let routes = routes_on(alloc, att, netns, given, entries.as_slice())?;
    let rules = masquerade_rules(alloc, conf.ip_masq, att, given)?;
    let mut calls = Vec::new(alloc);
    ask_all(&mut calls, addresses)?;
    ask_all(&mut calls, routes)?;
    ask_gateways(alloc, &mut calls, conf, given)?;
    ask_all(&mut calls, rules)?;
    Ok(Items::of_vec(calls))
}

// ---- the result

/// The result of the address plugin with the bridge's interfaces, the index of the container's end, and the routes.
/// Linear in its addresses and routes.
pub fn bridge_result(
    alloc: Global,
    conf: &BridgeConf,
    att: &NamedAtt,
    netns: &Text,
    ipam: &AddResult,
) -> Result<AddResult, NoMemory>
    ensures { IfOk result (λ r. r ≡ results.bridge_result_of conf.now att.now netns.now ipam.now) }
{
    let mut interfaces = Items::new(alloc);
    interfaces.push(bridge_interface(&conf.bridge)?)?;
    push_pair(&mut interfaces, att, netns, conf.mtu, ipam.version)?;
    let routes = result_routes(
        alloc,
        conf.gateway.is_default(),
        ipam.routes.as_slice(),
        ipam.ips.as_slice(),
    )?;
    completed(alloc, ipam, interfaces, 2, routes, conf.dns.copy()?)
}

// ---- the kinds

/// The kinds of objects that DEL takes back.
pub fn bridge_kinds(alloc: Global, conf: &BridgeConf) -> Result<Items<Kind>, NoMemory>
    ensures { IfOk result (λ kinds. kinds ≡ plan.bridge_kinds_of conf.now) }
{
    interface_kinds(alloc, conf.ip_masq, conf.ipam.as_ref())
}
