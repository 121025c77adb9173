//! Copies of calls and replies. Texts are shared, so a copy costs what the lists of a call cost.

ghost use Rattle.std.specs.Prelude.{◌≡◌, true, IfOk, OnErr};
ghost use Rattle.kernel_types.specs.Replies.{holds_text_or_list};
ghost use Rattle.kernel_types.specs.declared.call.Call.TheVariants as calls;
ghost use Rattle.kernel_types.specs.declared.call.Reply.TheVariants as replies;

use crate::call::{Call, Change, Kind, Object, Probe, Reply};
use crate::object::{AddrObj, Att, Link, LinkKey, RouteObj, Setting, Tag};
use crate::rule::Rule;
use cni_addr::{Cidr, Duplicate, Items, Mac, NoMemory, RangeSet, RefCounted, Text};
use cni_result::Cached;

impl Duplicate for Object {
    #[inline(never)]
    fn copy(&self) -> Result<Object, NoMemory> {
        match self {
            Object::Link(link) => Ok(Object::Link(link.copy()?)),
            Object::Address(address) => Ok(Object::Address(address.copy()?)),
            Object::Route(route) => Ok(Object::Route(route.copy()?)),
            Object::Rule(rule) => Ok(Object::Rule(rule.copy()?)),
            Object::Setting(setting) => Ok(Object::Setting(setting.copy()?)),
            Object::Lease(lease) => Ok(Object::Lease(lease.copy()?)),
        }
    }
}

impl Duplicate for Probe {
    #[inline(never)]
    fn copy(&self) -> Result<Probe, NoMemory> {
        match self {
            Probe::Whole(object) => Ok(Probe::Whole(object.copy()?)),
            Probe::BridgeAt { name, mac } => Ok(Probe::BridgeAt {
                name: name.copy()?,
                mac: *mac,
            }),
            Probe::Master { name } => Ok(Probe::Master { name: name.copy()? }),
        }
    }
}

impl Duplicate for Change {
    #[inline(never)]
    fn copy(&self) -> Result<Change, NoMemory> {
        match self {
            Change::DropLink(key) => Ok(Change::DropLink(key.copy()?)),
            Change::Flush(table) => Ok(Change::Flush(*table)),
        }
    }
}

impl Reply {
    /// A copy, which can run out of memory only where the reply holds a text or a list.
    pub fn twin(&self) -> Result<Reply, NoMemory>
        ensures ok { IfOk result (λ twin. twin ≡ self.now) }
        ensures err { OnErr result (holds_text_or_list self.now ≡ true) }
    {
        match self {
            Reply::Done => Ok(Reply::Done),
            Reply::NoNs => Ok(Reply::NoNs),
            Reply::NoLink => Ok(Reply::NoLink),
            Reply::Taken(tag) => twin_of_taken(tag),
            Reply::Empty => Ok(Reply::Empty),
            Reply::Leased(addr) => Ok(Reply::Leased(*addr)),
            Reply::Gone(gone) => Ok(Reply::Gone(*gone)),
            Reply::Has(has) => Ok(Reply::Has(*has)),
            Reply::Owners(owners) => twin_of_owners(owners),
            Reply::Entry(cached) => twin_of_entry(cached),
            Reply::Fault => Ok(Reply::Fault),
        }
    }
}

#[inline(never)]
fn twin_of_taken(tag: &Tag) -> Result<Reply, NoMemory>
    ensures { IfOk result (λ twin. twin ≡ replies.Taken tag.now) }
{
    Ok(Reply::Taken(tag.copy()?))
}

#[inline(never)]
fn twin_of_owners(owners: &Items<Att>) -> Result<Reply, NoMemory>
    ensures { IfOk result (λ twin. twin ≡ replies.Owners owners.now) }
{
    Ok(Reply::Owners(owners.copy()?))
}

#[inline(never)]
fn twin_of_entry(cached: &Option<RefCounted<Cached>>) -> Result<Reply, NoMemory>
    ensures { IfOk result (λ twin. twin ≡ replies.Entry cached.now) }
{
    Ok(Reply::Entry(cached.copy()?))
}

impl Duplicate for Reply {
    fn copy(&self) -> Result<Reply, NoMemory> {
        self.twin()
    }
}

// Parts are copied first and the call is put together last, so that running out of memory lets go of whole parts alone.
// Each call and each object has a function that isn't inlined: a copy would else clear a stack for the parts of all.

#[inline(never)]
fn copy_begin(att: &Att, netns: &Text) -> Result<Call, NoMemory>
    ensures { IfOk result (λ twin. twin ≡ calls.Begin att.now netns.now) }
{
    let att = att.copy()?;
    let netns = netns.copy()?;
    Ok(Call::Begin { att, netns })
}

#[inline(never)]
fn copy_bridge_ensure(name: &Text, mtu: u32, promisc: bool) -> Result<Call, NoMemory>
    ensures { IfOk result (λ twin. twin ≡ calls.BridgeEnsure name.now mtu promisc) }
{
    let name = name.copy()?;
    Ok(Call::BridgeEnsure { name, mtu, promisc })
}

#[inline(never)]
fn copy_gateway_ensure(bridge: &Text, cidr: Cidr) -> Result<Call, NoMemory>
    ensures { IfOk result (λ twin. twin ≡ calls.GatewayEnsure bridge.now cidr) }
{
    let bridge = bridge.copy()?;
    Ok(Call::GatewayEnsure { bridge, cidr })
}

#[inline(never)]
fn copy_veth_add(
    host_end: &RefCounted<Link>,
    inner_end: &RefCounted<Link>,
) -> Result<Call, NoMemory>
    ensures { IfOk result (λ twin. twin ≡ calls.VethAdd host_end.now inner_end.now) }
{
    let host_end = host_end.copy()?;
    let inner_end = inner_end.copy()?;
    Ok(Call::VethAdd {
        host_end,
        inner_end,
    })
}

#[inline(never)]
fn copy_link_set(
    att: &Att,
    key: &LinkKey,
    mac: Option<Mac>,
    mtu: Option<u32>,
    tx_qlen: Option<u32>,
    promisc: bool,
    allmulti: bool,
) -> Result<Call, NoMemory>
    ensures { IfOk result (λ twin. twin ≡ calls.LinkSet att.now key.now mac mtu tx_qlen promisc allmulti) }
{
    let att = att.copy()?;
    let key = key.copy()?;
    Ok(Call::LinkSet {
        att,
        key,
        mac,
        mtu,
        tx_qlen,
        promisc,
        allmulti,
    })
}

#[inline(never)]
fn copy_lease_next(att: &Att, number: u32, set: &RefCounted<RangeSet>) -> Result<Call, NoMemory>
    ensures { IfOk result (λ twin. twin ≡ calls.LeaseNext att.now number set.now) }
{
    let att = att.copy()?;
    let set = set.copy()?;
    Ok(Call::LeaseNext { att, number, set })
}

#[inline(never)]
fn copy_cache_put(att: &Att, cached: &RefCounted<Cached>) -> Result<Call, NoMemory>
    ensures { IfOk result (λ twin. twin ≡ calls.CachePut att.now cached.now) }
{
    let att = att.copy()?;
    let cached = cached.copy()?;
    Ok(Call::CachePut { att, cached })
}

#[inline(never)]
fn copy_pool_free(network: &Text, set: &RefCounted<RangeSet>) -> Result<Call, NoMemory>
    ensures { IfOk result (λ twin. twin ≡ calls.PoolFree network.now set.now) }
{
    let network = network.copy()?;
    let set = set.copy()?;
    Ok(Call::PoolFree { network, set })
}

#[inline(never)]
fn copy_owners_of(network: &Text, kind: Kind) -> Result<Call, NoMemory>
    ensures { IfOk result (λ twin. twin ≡ calls.OwnersOf network.now kind) }
{
    let network = network.copy()?;
    Ok(Call::OwnersOf { network, kind })
}

#[inline(never)]
fn copy_ns_change(name: &Text, add: bool) -> Result<Call, NoMemory>
    ensures { IfOk result (λ twin. twin ≡ calls.NsChange name.now add) }
{
    let name = name.copy()?;
    Ok(Call::NsChange { name, add })
}

#[inline(never)]
fn copy_macvlan_add(link: &RefCounted<Link>) -> Result<Call, NoMemory>
    ensures { IfOk result (λ twin. twin ≡ calls.MacvlanAdd link.now) }
{
    Ok(Call::MacvlanAdd { link: link.copy()? })
}

#[inline(never)]
fn copy_addr_add(obj: &RefCounted<AddrObj>) -> Result<Call, NoMemory>
    ensures { IfOk result (λ twin. twin ≡ calls.AddrAdd obj.now) }
{
    Ok(Call::AddrAdd { obj: obj.copy()? })
}

#[inline(never)]
fn copy_route_add(obj: &RefCounted<RouteObj>) -> Result<Call, NoMemory>
    ensures { IfOk result (λ twin. twin ≡ calls.RouteAdd obj.now) }
{
    Ok(Call::RouteAdd { obj: obj.copy()? })
}

#[inline(never)]
fn copy_rule_append(rule: &RefCounted<Rule>) -> Result<Call, NoMemory>
    ensures { IfOk result (λ twin. twin ≡ calls.RuleAppend rule.now) }
{
    Ok(Call::RuleAppend { rule: rule.copy()? })
}

#[inline(never)]
fn copy_setting_set(setting: &RefCounted<Setting>) -> Result<Call, NoMemory>
    ensures { IfOk result (λ twin. twin ≡ calls.SettingSet setting.now) }
{
    Ok(Call::SettingSet {
        setting: setting.copy()?,
    })
}

#[inline(never)]
fn copy_has_obj(probe: &Probe) -> Result<Call, NoMemory>
    ensures { IfOk result (λ twin. twin ≡ calls.HasObj probe.now) }
{
    Ok(Call::HasObj {
        probe: probe.copy()?,
    })
}

#[inline(never)]
fn copy_outside(change: &Change) -> Result<Call, NoMemory>
    ensures { IfOk result (λ twin. twin ≡ calls.Outside change.now) }
{
    Ok(Call::Outside {
        change: change.copy()?,
    })
}

impl Duplicate for Call {
    fn copy(&self) -> Result<Call, NoMemory> {
        match self {
            Call::Begin { att, netns } => copy_begin(att, netns),
            Call::BridgeEnsure { name, mtu, promisc } => copy_bridge_ensure(name, *mtu, *promisc),
            Call::GatewayEnsure { bridge, cidr } => copy_gateway_ensure(bridge, *cidr),
            Call::ForwardEnsure { family } => Ok(Call::ForwardEnsure { family: *family }),
            Call::VethAdd {
                host_end,
                inner_end,
            } => copy_veth_add(host_end, inner_end),
            Call::MacvlanAdd { link } => copy_macvlan_add(link),
            Call::LinkSet {
                att,
                key,
                mac,
                mtu,
                tx_qlen,
                promisc,
                allmulti,
            } => copy_link_set(att, key, *mac, *mtu, *tx_qlen, *promisc, *allmulti),
            Call::AddrAdd { obj } => copy_addr_add(obj),
            Call::RouteAdd { obj } => copy_route_add(obj),
            Call::RuleAppend { rule } => copy_rule_append(rule),
            Call::SettingSet { setting } => copy_setting_set(setting),
            Call::LeaseNext { att, number, set } => copy_lease_next(att, *number, set),
            Call::CachePut { att, cached } => copy_cache_put(att, cached),
            Call::LinkDel { att } => Ok(Call::LinkDel { att: att.copy()? }),
            Call::RuleDel { att } => Ok(Call::RuleDel { att: att.copy()? }),
            Call::SettingDel { att } => Ok(Call::SettingDel { att: att.copy()? }),
            Call::LeaseDel { att } => Ok(Call::LeaseDel { att: att.copy()? }),
            Call::CacheDel { att } => Ok(Call::CacheDel { att: att.copy()? }),
            Call::HasObj { probe } => copy_has_obj(probe),
            Call::CacheGet { att } => Ok(Call::CacheGet { att: att.copy()? }),
            Call::OwnersOf { network, kind } => copy_owners_of(network, *kind),
            Call::PoolFree { network, set } => copy_pool_free(network, set),
            Call::NsChange { name, add } => copy_ns_change(name, *add),
            Call::Outside { change } => copy_outside(change),
        }
    }
}
