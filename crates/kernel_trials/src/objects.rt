//! The objects that the tokens of a row stand for.

ghost use Rattle.std.specs.Prelude.{◌≡◌, [], ◌∷◌, None, IfOk};
ghost use Rattle.kernel_types.specs.declared.object.LinkKind.TheVariants as kinds;
ghost use Rattle.kernel_types.specs.declared.object.Tag.TheVariants as tags;

use crate::tokens::{addr_of, cidr_of, cut, link_tokens, number_of};
use cni_addr::{
    Addr, Cidr, Family, Items, MacvlanMode, NoMemory, Range, RangeSet, RefCounted, Text,
};
use cni_result::{AddResult, Cached, Version, no_dns};
use kernel_types::{
    AddrObj, Att, Chain, Lease, Link, LinkKey, LinkKind, RouteObj, Rule, Setting, Table, Tag,
    Target,
};
use link_names::link_mac;
use std::alloc::Global;
use std::process::Abort;

/// The list of one item.
pub(crate) fn one<T: Drop>(alloc: Global, item: T) -> Result<Items<T>, NoMemory>
    ensures { IfOk result (λ items. items ≡ item ∷ []) }
{
    let mut items = Items::new(alloc);
    items.push(item)?;
    Ok(items)
}

pub(crate) fn text(rt: &impl Abort, alloc: Global, token: &str) -> Text {
    Text::of(alloc, token).expect(rt, "memory")
}

pub(crate) fn shared<T: Drop>(rt: &impl Abort, alloc: Global, value: T) -> RefCounted<T> {
    RefCounted::of(alloc, value).expect(rt, "memory")
}

/// The container's attachment by `eth0` to the network `pods`.
pub(crate) fn att(rt: &impl Abort, alloc: Global, container: &str) -> Att {
    Att {
        network: text(rt, alloc, "pods"),
        container: text(rt, alloc, container),
        ifname: text(rt, alloc, "eth0"),
    }
}

pub(crate) fn own(rt: &impl Abort, alloc: Global, container: &str) -> Tag {
    Tag::Own(att(rt, alloc, container))
}

pub(crate) fn key(rt: &impl Abort, alloc: Global, ns: &str, name: &str) -> LinkKey {
    LinkKey {
        ns: text(rt, alloc, ns),
        name: text(rt, alloc, name),
    }
}

/// A link as a plugin's configuration leaves it. Takes no memory.
pub(crate) fn link(
    place: LinkKey,
    kind: LinkKind,
    master: Option<Text>,
    peer: Option<LinkKey>,
    tag: Tag,
) -> Link
    ensures place { result.ns ≡ place.ns }
    ensures kind { result.kind ≡ kind }
    ensures peer { result.peer ≡ peer }
    ensures tag { result.tag ≡ tag }
{
    let mac = link_mac(place.name.as_str());
    Link {
        master,
        peer,
        ..Link::new(place, kind, mac, 1500, tag)
    }
}

/// A device of the host.
pub(crate) fn device(alloc: Global, name: &str) -> Result<Link, NoMemory>
    ensures place { IfOk result (λ device. device.ns ≡ []) }
    ensures kind { IfOk result (λ device. device.kind ≡ kinds.Device) }
    ensures peer { IfOk result (λ device. device.peer ≡ None) }
    ensures tag { IfOk result (λ device. device.tag ≡ tags.Outside) }
{
    let ns = Text::of(alloc, "")?;
    let name = Text::of(alloc, name)?;
    Ok(link(
        LinkKey { ns, name },
        LinkKind::Device,
        None,
        None,
        Tag::Outside,
    ))
}

/// A link of a container that is no end of a pair: container and place, behind which a macvlan link in bridge mode has
/// its master, a VLAN link its master and the number of the VLAN, and a dummy link nothing.
pub(crate) fn inner_link(rt: &impl Abort, alloc: Global, tokens: &str) -> Link {
    let at = link_tokens(tokens);
    let (master, id) = cut(at.rest);
    let (kind, master) = if master.is_empty() {
        (LinkKind::Dummy, None)
    } else if id.is_empty() {
        let kind = LinkKind::Macvlan(MacvlanMode::Bridge);
        (kind, Some(text(rt, alloc, master)))
    } else {
        let id = number_of(rt, id);
        (LinkKind::Vlan { id }, Some(text(rt, alloc, master)))
    };
    let place = key(rt, alloc, at.ns, at.link);
    link(place, kind, master, None, own(rt, alloc, at.container))
}

/// Container, place and address.
pub(crate) fn address(rt: &impl Abort, alloc: Global, tokens: &str) -> AddrObj {
    let at = link_tokens(tokens);
    AddrObj {
        ns: text(rt, alloc, at.ns),
        link: text(rt, alloc, at.link),
        cidr: cidr_of(rt, at.rest),
        tag: own(rt, alloc, at.container),
    }
}

/// A route by the gateway of its family: container, place and destination.
pub(crate) fn route(rt: &impl Abort, alloc: Global, tokens: &str) -> RouteObj {
    let at = link_tokens(tokens);
    let dst = cidr_of(rt, at.rest);
    let gateway = match dst.addr.family {
        Family::V4 => "10.88.0.1",
        Family::V6 => "fd00:88::1",
    };
    RouteObj {
        ns: text(rt, alloc, at.ns),
        dst,
        link: text(rt, alloc, at.link),
        gw: Some(addr_of(rt, gateway)),
        tag: own(rt, alloc, at.container),
    }
}

/// A rule that accepts what comes to a port: container and port.
pub(crate) fn rule(rt: &impl Abort, alloc: Global, tokens: &str) -> Rule {
    let (container, port) = cut(tokens);
    Rule {
        table: Table::Nat,
        chain: Chain::Dnat,
        src: None,
        dst: None,
        not_dst: false,
        protocol: None,
        dport: Some(number_of(rt, port)),
        established: false,
        target: Target::Accept,
        tag: own(rt, alloc, container),
    }
}

/// The longest queue of a listening socket: container, namespace and value.
pub(crate) fn setting(rt: &impl Abort, alloc: Global, tokens: &str) -> Setting {
    let (container, tokens) = cut(tokens);
    let (ns, value) = cut(tokens);
    Setting {
        ns: text(rt, alloc, ns),
        key: text(rt, alloc, "net.core.somaxconn"),
        value: text(rt, alloc, value),
        tag: own(rt, alloc, container),
    }
}

/// Container and address.
pub(crate) fn lease(rt: &impl Abort, alloc: Global, tokens: &str) -> Lease {
    let (container, addr) = cut(tokens);
    Lease {
        network: text(rt, alloc, "pods"),
        addr: addr_of(rt, addr),
        tag: own(rt, alloc, container),
    }
}

/// The range from its gateway on, where all are of one family.
fn range_of(subnet: Cidr, gateway: Addr, end: Addr) -> Option<Range> {
    match (subnet.addr.family, gateway.family, end.family) {
        (Family::V4, Family::V4, Family::V4) | (Family::V6, Family::V6, Family::V6) => {
            Some(Range {
                subnet,
                start: gateway,
                end,
                gateway,
            })
        }
        _ => None,
    }
}

/// The number of a set among those of the network, and the set, which has its gateway in it: the wide one, or one of
/// those with one candidate, the tiny one and the top one of IPv6.
pub(crate) fn set(rt: &impl Abort, alloc: Global, name: &str) -> (u32, RefCounted<RangeSet>) {
    let (number, subnet, gateway, end) = match name {
        "wide" => (0, "10.88.0.0/16", "10.88.0.1", "10.88.255.254"),
        "tiny" => (1, "10.3.0.0/30", "10.3.0.1", "10.3.0.2"),
        "top" => (
            2,
            "ffff:ffff:ffff:ffff:ffff:ffff:ffff:fffc/126",
            "ffff:ffff:ffff:ffff:ffff:ffff:ffff:fffd",
            "ffff:ffff:ffff:ffff:ffff:ffff:ffff:fffe",
        ),
        _ => panic!(rt; "no set {name}"),
    };
    let range = range_of(cidr_of(rt, subnet), addr_of(rt, gateway), addr_of(rt, end));
    let ranges = one(alloc, range.expect(rt, "a range")).expect(rt, "memory");
    (number, shared(rt, alloc, RangeSet { ranges }))
}

/// An entry of `/ns/a` whose result is empty.
pub(crate) fn cached(rt: &impl Abort, alloc: Global) -> Cached {
    let result = AddResult {
        version: Version::V1_1,
        interfaces: Items::new(alloc),
        ips: Items::new(alloc),
        routes: Items::new(alloc),
        dns: no_dns(alloc).expect(rt, "memory"),
    };
    Cached {
        netns: text(rt, alloc, "/ns/a"),
        mappings: Items::new(alloc),
        result,
    }
}
