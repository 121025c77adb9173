//! The `ptp` plugin.

ghost use Rattle.std.specs.Prelude.{◌≡◌, map, flat_map, fold, IfOk, OnOk};
ghost use Rattle.cni_addr.specs.Lists.{each_key_once, push_unless_there};
ghost use Rattle.plugin_base.specs.Shapes as shapes;
ghost use Rattle.bridge_ptp.specs.Ptp as plan;
ghost use Rattle.bridge_ptp.specs.Results as results;

use crate::interfaces::push_pair;
use crate::veth::veth_pair;
use cni_addr::{Addr, Duplicate, Items, NoMemory, Text, whole};
use cni_result::{AddResult, RouteEntry};
use host_local::interface_kinds;
use kernel_types::{
    AddrKey, AddrObj, Att, Call, Given, Kind, LinkKey, NamedAtt, RouteKey, RouteObj,
};
use net_conf::PtpConf;
use plugin_base::{
    Asked, EachKeyOnce, Gateways, address_at, address_on, ask_all, ask_forward, completed,
    host_key, masquerade_rules, route_at, route_by, route_on,
};
use std::alloc::Global;
use std::cmp::Ordering;

/// An address or a route: both are asked for in one order.
#[derive(Drop)]
pub enum AddressOrRoute {
    Address(AddrObj),
    Route(RouteObj),
}

impl Duplicate for AddressOrRoute {
    fn copy(&self) -> Result<AddressOrRoute, NoMemory> {
        match self {
            AddressOrRoute::Address(obj) => Ok(AddressOrRoute::Address(obj.copy()?)),
            AddressOrRoute::Route(obj) => Ok(AddressOrRoute::Route(obj.copy()?)),
        }
    }
}

/// The key of an address or of a route: addresses stand before routes.
#[derive(PartialEq, Eq, PartialOrd, Ord, Drop)]
pub enum ObjectKey {
    Address(AddrKey),
    Route(RouteKey),
}

impl Asked for AddressOrRoute {
    ghost use Rattle.bridge_ptp.specs.Ptp as plan;
    ghost use Rattle.bridge_ptp.specs.KeyLaws.{key_of, mark_of, object-by_key, object-mark};

    type Key = ObjectKey;

    ghost key_of = { key_of };

    ghost mark_of = { mark_of };

    ghost same_key = { plan.same_key };

    ghost same_by_key = { object-by_key };

    ghost same_mark = { object-mark };

    ghost call_for = { plan.call_for };

    fn has_key(&self, other: &AddressOrRoute) -> bool {
        match (self, other) {
            (AddressOrRoute::Address(a), AddressOrRoute::Address(b)) => a.has_key(b),
            (AddressOrRoute::Route(a), AddressOrRoute::Route(b)) => a.has_key(b),
            _ => false,
        }
    }

    fn mark(&self) -> u64 {
        match self {
            AddressOrRoute::Address(obj) => obj.mark(),
            AddressOrRoute::Route(obj) => obj.mark(),
        }
    }

    fn key_order(&self, other: &AddressOrRoute) -> Ordering {
        match (self, other) {
            (AddressOrRoute::Address(a), AddressOrRoute::Address(b)) => a.key_order(b),
            (AddressOrRoute::Address(_), AddressOrRoute::Route(_)) => Ordering::Less,
            (AddressOrRoute::Route(_), AddressOrRoute::Address(_)) => Ordering::Greater,
            (AddressOrRoute::Route(a), AddressOrRoute::Route(b)) => a.key_order(b),
        }
    }

    fn ask(self, alloc: Global) -> Result<Call, NoMemory> {
        match self {
            AddressOrRoute::Address(obj) => obj.ask(alloc),
            AddressOrRoute::Route(obj) => obj.ask(alloc),
        }
    }
}

// ---- before the addresses

/// The calls before an address is leased: the veth pair.
pub fn ptp_before(
    alloc: Global,
    conf: &PtpConf,
    att: &NamedAtt,
    netns: &Text,
) -> Result<Items<Call>, NoMemory>
    ensures { IfOk result (λ calls. calls ≡ plan.ptp_calls_before conf.now att.now netns.now) }
{
    let mut calls = Items::new(alloc);
    calls.push(veth_pair(alloc, att, netns, None, conf.mtu, false)?)?;
    Ok(calls)
}

// ---- what lies on both ends

/// The gateway is an address of the host's end.
fn gateway_on_host(att: &Att, host: &LinkKey, gateway: &Addr) -> Result<AddrObj, NoMemory>
    requires { host.now ≡ shapes.host_key att.now }
    ensures { IfOk result (λ obj. obj ≡ plan.gateway_on_host att.now gateway.now) }
{
    address_at(att, host.copy()?, whole(gateway))
}

/// The host reaches the address by its own end.
fn route_on_host(att: &Att, host: &LinkKey, addr: &Addr) -> Result<RouteObj, NoMemory>
    requires { host.now ≡ shapes.host_key att.now }
    ensures { IfOk result (λ obj. obj ≡ plan.route_on_host att.now addr.now) }
{
    route_at(att, host.copy()?, whole(addr), None)
}

fn push_address(objects: &mut EachKeyOnce<AddressOrRoute>, obj: AddrObj) -> Result<(), NoMemory>
    ensures { OnOk result (objects.new ≡ push_unless_there plan.same_key objects.old (plan.Address obj)) }
{
    objects.push(AddressOrRoute::Address(obj))
}

fn push_route(objects: &mut EachKeyOnce<AddressOrRoute>, obj: RouteObj) -> Result<(), NoMemory>
    ensures { OnOk result (objects.new ≡ push_unless_there plan.same_key objects.old (plan.Route obj)) }
{
    objects.push(AddressOrRoute::Route(obj))
}

/// What lies on both ends for one address. Inside, the gateway is reached without a gateway and the subnet by it.
fn push_objects_for(
    objects: &mut EachKeyOnce<AddressOrRoute>,
    att: &Att,
    host: &LinkKey,
    netns: &Text,
    given: &Given,
) -> Result<(), NoMemory>
    requires { host.now ≡ shapes.host_key att.now }
    ensures { OnOk result
        (objects.new
        ≡ fold (push_unless_there plan.same_key) objects.old (plan.ptp_objects_for att.now netns.now given.now)) }
{
    push_address(objects, address_on(att, netns, given)?)?;
    push_route(objects, route_by(att, netns, whole(&given.gateway), None)?)?;
    push_route(
        objects,
        route_by(att, netns, given.subnet, Some(given.gateway))?,
    )?;
    push_address(objects, gateway_on_host(att, host, &given.gateway)?)?;
    push_route(objects, route_on_host(att, host, &given.address.addr)?)
}

fn objects_for_each(
    alloc: Global,
    att: &NamedAtt,
    netns: &Text,
    given: &[Given],
) -> Result<EachKeyOnce<AddressOrRoute>, NoMemory>
    ensures { IfOk result
        (λ objects. objects
        ≡ each_key_once plan.same_key (flat_map (plan.ptp_objects_for att.now netns.now) given.now)) }
{
    let host = host_key(alloc, att)?;
    let mut objects = EachKeyOnce::new(alloc);
    for g in given {
        push_objects_for(&mut objects, att.att(), &host, netns, g)?;
    }
    Ok(objects)
}

fn push_routes(
    objects: &mut EachKeyOnce<AddressOrRoute>,
    att: &Att,
    netns: &Text,
    given: &[Given],
    entries: &[RouteEntry],
) -> Result<(), NoMemory>
    ensures { OnOk result
        (objects.new
        ≡ fold (push_unless_there plan.same_key) objects.old
        (map (λ r. plan.Route (shapes.route_on att.now netns.now given.now r)) entries.now)) }
{
    let gateways = Gateways::of(given);
    for entry in entries {
        push_route(objects, route_on(att, netns, &gateways, entry)?)?;
    }
    Ok(())
}

fn ptp_objects(
    alloc: Global,
    conf: &PtpConf,
    att: &NamedAtt,
    netns: &Text,
    given: &[Given],
) -> Result<EachKeyOnce<AddressOrRoute>, NoMemory>
    ensures { IfOk result (λ objects. objects ≡ plan.ptp_objects conf.now att.now netns.now given.now) }
{
    let mut objects = objects_for_each(alloc, att, netns, given)?;
    push_routes(
        &mut objects,
        att.att(),
        netns,
        given,
        conf.ipam.routes.as_slice(),
    )?;
    Ok(objects)
}

/// The calls for the given addresses: addresses and routes on both ends, forwarding, and with `ipMasq` the masquerade
/// rules. Linear in the given addresses and the configured routes.
pub fn ptp_after(
    alloc: Global,
    conf: &PtpConf,
    att: &NamedAtt,
    netns: &Text,
    given: &[Given],
) -> Result<Items<Call>, NoMemory>
    ensures { IfOk result (λ calls. calls ≡ plan.ptp_calls_after conf.now att.now netns.now given.now) }
{
    let objects = ptp_objects(alloc, conf, att, netns, given)?;
    let rules = masquerade_rules(alloc, conf.ip_masq, att.att(), given)?;
    let mut calls = Vec::new(alloc);
    ask_all(&mut calls, objects)?;
    ask_forward(&mut calls, given)?;
    ask_all(&mut calls, rules)?;
    Ok(Items::of_vec(calls))
}

// ---- the result

/// The result of the address plugin with both ends and the index of the container's. Linear in its addresses and
/// routes.
pub fn ptp_result(
    alloc: Global,
    conf: &PtpConf,
    att: &NamedAtt,
    netns: &Text,
    ipam: &AddResult,
) -> Result<AddResult, NoMemory>
    ensures { IfOk result (λ r. r ≡ results.ptp_result_of conf.now att.now netns.now ipam.now) }
{
    let mut interfaces = Items::new(alloc);
    push_pair(&mut interfaces, att, netns, conf.mtu, ipam.version)?;
    let routes = ipam.routes.copy()?;
    completed(alloc, ipam, interfaces, 1, routes, conf.dns.copy()?)
}

// ---- the kinds

/// The kinds of objects that DEL takes back.
pub fn ptp_kinds(alloc: Global, conf: &PtpConf) -> Result<Items<Kind>, NoMemory>
    ensures { IfOk result (λ kinds. kinds ≡ plan.ptp_kinds_of conf.now) }
{
    interface_kinds(alloc, conf.ip_masq, Some(&conf.ipam))
}
