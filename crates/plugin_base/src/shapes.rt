//! The objects of an attachment, as the plugins make them. No call makes a digest: what needs a derived name takes the
//! attachment with its names.

ghost use Rattle.std.specs.Prelude.{◌≡◌, ◌++◌, flat_map, IfOk, OnErr, OnOk};
ghost use Rattle.kernel_types.specs.Equal.{rule_eq};
ghost use Rattle.cni_addr.specs.Lists.{each_key_once};
ghost use Rattle.plugin_base.specs.Shapes as shapes;

use crate::each_key_once::EachKeyOnce;
use crate::families::has_family;
use crate::gateways::Gateways;
use cni_addr::{Addr, Cidr, Duplicate, Family, MacvlanMode, NoMemory, Text, whole};
use cni_result::RouteEntry;
use kernel_types::{
    AddrObj, Att, Call, Chain, Given, Link, LinkKey, LinkKind, NamedAtt, RouteObj, Rule, Table,
    Tag, Target,
};
use std::alloc::Global;

// ---- networks

/// Every address of the family.
pub fn default_route(family: Family) -> Cidr
    ensures { result ≡ shapes.default_route family }
{
    Cidr {
        addr: Addr { family, bits: 0 },
        prefix: 0,
    }
}

/// `224.0.0.0/4` (RFC 5771), `ff00::/8` (RFC 4291).
fn multicast(family: Family) -> Cidr
    ensures { result ≡ shapes.multicast family }
{
    match family {
        Family::V4 => Cidr {
            addr: Addr {
                family,
                bits: 14 << 28,
            },
            prefix: 4,
        },
        Family::V6 => Cidr {
            addr: Addr {
                family,
                bits: 255 << 120,
            },
            prefix: 8,
        },
    }
}

// ---- links

/// Where the host's end of the attachment's veth pair is.
pub fn host_key(alloc: Global, att: &NamedAtt) -> Result<LinkKey, NoMemory>
    ensures { IfOk result (λ key. key ≡ shapes.host_key att.now) }
{
    Ok(LinkKey {
        ns: Text::of(alloc, "")?,
        name: att.host_name()?,
    })
}

/// Where the container's interface is.
pub fn inner_key(att: &Att, netns: &Text) -> Result<LinkKey, NoMemory>
    ensures { IfOk result (λ key. key ≡ shapes.inner_key att.now netns.now) }
{
    Ok(LinkKey {
        ns: netns.copy()?,
        name: att.ifname.copy()?,
    })
}

/// The host's end of the attachment's veth pair, under this master.
pub fn host_end(
    alloc: Global,
    att: &NamedAtt,
    netns: &Text,
    master: Option<Text>,
    mtu: u32,
    hairpin: bool,
) -> Result<Link, NoMemory>
    ensures { IfOk result (λ link. link ≡ shapes.host_end att.now netns.now master mtu hairpin) }
{
    let key = host_key(alloc, att)?;
    let tag = Tag::Own(att.att().copy()?);
    Ok(Link {
        master,
        peer: Some(inner_key(att.att(), netns)?),
        hairpin,
        ..Link::new(key, LinkKind::Veth, att.host_mac(), mtu, tag)
    })
}

/// The container's end of the attachment's veth pair.
pub fn inner_end(alloc: Global, att: &NamedAtt, netns: &Text, mtu: u32) -> Result<Link, NoMemory>
    ensures { IfOk result (λ link. link ≡ shapes.inner_end att.now netns.now mtu) }
{
    let key = inner_key(att.att(), netns)?;
    let tag = Tag::Own(att.att().copy()?);
    Ok(Link {
        peer: Some(host_key(alloc, att)?),
        ..Link::new(key, LinkKind::Veth, att.inner_mac(), mtu, tag)
    })
}

/// The attachment's macvlan link over a master of the host.
pub fn macvlan_link(
    att: &NamedAtt,
    netns: &Text,
    master: &Text,
    mode: MacvlanMode,
    mtu: u32,
) -> Result<Link, NoMemory>
    ensures { IfOk result (λ link. link ≡ shapes.macvlan_link att.now netns.now master.now mode mtu) }
{
    let key = inner_key(att.att(), netns)?;
    let tag = Tag::Own(att.att().copy()?);
    Ok(Link {
        master: Some(master.copy()?),
        ..Link::new(key, LinkKind::Macvlan(mode), att.inner_mac(), mtu, tag)
    })
}

// ---- on an end

/// An address of the attachment's on its link at this place.
pub fn address_at(att: &Att, key: LinkKey, cidr: Cidr) -> Result<AddrObj, NoMemory>
    ensures { IfOk result (λ obj. obj ≡ shapes.address_at att.now key cidr) }
{
    let tag = Tag::Own(att.copy()?);
    Ok(AddrObj {
        ns: key.ns,
        link: key.name,
        cidr,
        tag,
    })
}

/// A route of the attachment's from its link at this place to this destination, by this gateway or directly.
pub fn route_at(att: &Att, key: LinkKey, dst: Cidr, gw: Option<Addr>) -> Result<RouteObj, NoMemory>
    ensures { IfOk result (λ obj. obj ≡ shapes.route_at att.now key dst gw) }
{
    let tag = Tag::Own(att.copy()?);
    Ok(RouteObj {
        ns: key.ns,
        dst,
        link: key.name,
        gw,
        tag,
    })
}

// ---- on the container's end

/// The given address on the container's end.
pub fn address_on(att: &Att, netns: &Text, given: &Given) -> Result<AddrObj, NoMemory>
    ensures { IfOk result (λ obj. obj ≡ shapes.address_on att.now netns.now given.now) }
{
    address_at(att, inner_key(att, netns)?, given.address)
}

/// The given addresses on the container's end, each once. Linear in them.
pub fn addresses_on(
    alloc: Global,
    att: &Att,
    netns: &Text,
    given: &[Given],
) -> Result<EachKeyOnce<AddrObj>, NoMemory>
    ensures { IfOk result (λ objects. objects ≡ shapes.addresses_on att.now netns.now given.now) }
{
    let mut objects = EachKeyOnce::new(alloc);
    for g in given {
        objects.push(address_on(att, netns, g)?)?;
    }
    Ok(objects)
}

fn gateway_for(gateways: &Gateways<'_>, route: &RouteEntry) -> Option<Addr>
    ensures { result ≡ shapes.gateway_for gateways.now route.now }
{
    route.gw.or(gateways.of_family(route.dst.addr.family))
}

/// The route from the container's end to this destination, by this gateway or directly.
pub fn route_by(att: &Att, netns: &Text, dst: Cidr, gw: Option<Addr>) -> Result<RouteObj, NoMemory>
    ensures { IfOk result (λ obj. obj ≡ shapes.route_by att.now netns.now dst gw) }
{
    route_at(att, inner_key(att, netns)?, dst, gw)
}

/// The route from the container's end: by its own gateway, else by that of the first given address of its family.
pub fn route_on(
    att: &Att,
    netns: &Text,
    gateways: &Gateways<'_>,
    route: &RouteEntry,
) -> Result<RouteObj, NoMemory>
    ensures { IfOk result (λ obj. obj ≡ shapes.route_on att.now netns.now gateways.now route.now) }
{
    route_by(att, netns, route.dst, gateway_for(gateways, route))
}

/// The routes from the container's end, each destination once. Linear in the given addresses and the entries.
pub fn routes_on(
    alloc: Global,
    att: &Att,
    netns: &Text,
    given: &[Given],
    entries: &[RouteEntry],
) -> Result<EachKeyOnce<RouteObj>, NoMemory>
    ensures { IfOk result (λ objects. objects ≡ shapes.routes_on att.now netns.now given.now entries.now) }
{
    let gateways = Gateways::of(given);
    let mut objects = EachKeyOnce::new(alloc);
    for entry in entries {
        objects.push(route_on(att, netns, &gateways, entry)?)?;
    }
    Ok(objects)
}

// ---- rules of packet filtering

/// A rule for every packet of the chain, or where the target has an address for those of its family. The plugins narrow
/// it to the packets that they mean.
pub fn rule_for_all(att: &Att, table: Table, chain: Chain, target: Target) -> Result<Rule, NoMemory>
    ensures { IfOk result (λ rule. rule ≡ shapes.rule_for_all att.now table chain target) }
{
    Ok(Rule {
        table,
        chain,
        src: None,
        dst: None,
        not_dst: false,
        protocol: None,
        dport: None,
        established: false,
        target,
        tag: Tag::Own(att.copy()?),
    })
}

// ---- masquerading and forwarding

fn no_masquerade_in_subnet(att: &Att, given: &Given) -> Result<Rule, NoMemory>
    ensures { IfOk result (λ rule. rule ≡ shapes.no_masquerade_in_subnet att.now given.now) }
{
    Ok(Rule {
        src: Some(whole(&given.address.addr)),
        dst: Some(given.subnet),
        ..rule_for_all(att, Table::Nat, Chain::Masq, Target::Accept)?
    })
}

fn masquerade_out(att: &Att, given: &Given) -> Result<Rule, NoMemory>
    ensures { IfOk result (λ rule. rule ≡ shapes.masquerade_out att.now given.now) }
{
    let family = given.address.addr.family;
    Ok(Rule {
        src: Some(whole(&given.address.addr)),
        dst: Some(multicast(family)),
        not_dst: true,
        ..rule_for_all(att, Table::Nat, Chain::Masq, Target::Masquerade)?
    })
}

fn all_masquerade_rules(
    alloc: Global,
    att: &Att,
    given: &[Given],
) -> Result<EachKeyOnce<Rule>, NoMemory>
    ensures { IfOk result
        (λ rules. rules ≡ each_key_once rule_eq (flat_map (shapes.masquerade_of att.now) given.now)) }
{
    let mut rules = EachKeyOnce::new(alloc);
    for g in given {
        rules.push(no_masquerade_in_subnet(att, g)?)?;
        rules.push(masquerade_out(att, g)?)?;
    }
    Ok(rules)
}

/// With `ipMasq`, two rules for each given address: none is masqueraded inside its subnet, all else but multicast is.
/// Linear in the given addresses.
pub fn masquerade_rules(
    alloc: Global,
    ip_masq: bool,
    att: &Att,
    given: &[Given],
) -> Result<EachKeyOnce<Rule>, NoMemory>
    ensures { IfOk result (λ rules. rules ≡ shapes.masquerade_rules ip_masq att.now given.now) }
{
    if ip_masq {
        all_masquerade_rules(alloc, att, given)
    } else {
        Ok(EachKeyOnce::new(alloc))
    }
}

fn ask_forward_for(calls: &mut Vec<Call>, family: Family, given: &[Given]) -> Result<(), NoMemory>
    ensures { OnOk result (calls.new.items ≡ calls.old.items ++ shapes.forward_for family given.now) }
{
    if has_family(given, family) {
        calls.push(Call::ForwardEnsure { family })?;
    }
    Ok(())
}

/// Puts the calls at the end that make the host forward for the families of the given addresses, or leaves the calls as
/// they were. Linear in the given addresses.
pub fn ask_forward(calls: &mut Vec<Call>, given: &[Given]) -> Result<(), NoMemory>
    ensures ok { OnOk result (calls.new.items ≡ calls.old.items ++ shapes.forward_calls given.now) }
    ensures err { OnErr result (calls.new.items ≡ calls.old.items) }
{
    let mut asked = Vec::new(*calls.allocator());
    ask_forward_for(&mut asked, Family::V4, given)?;
    ask_forward_for(&mut asked, Family::V6, given)?;
    calls.append(&mut asked)?;
    Ok(())
}
