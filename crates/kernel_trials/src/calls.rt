//! The calls that the tokens of a row stand for.

use crate::objects::{
    address, att, cached, inner_link, key, lease, link, own, route, rule, set, setting, shared,
    text,
};
use crate::tokens::{cidr_of, cut, link_tokens};
use cni_addr::Family;
use kernel_types::{Call, Change, Kind, LinkKind, Object, Probe, table_named};
use link_names::link_mac;
use std::alloc::Global;
use std::process::Abort;

fn forward_ensure(rt: &impl Abort, tokens: &str) -> Call {
    let family = match tokens {
        "IPv4" => Family::V4,
        "IPv6" => Family::V6,
        _ => panic!(rt; "no family {tokens}"),
    };
    Call::ForwardEnsure { family }
}

/// `VethAdd CONTAINER NAMESPACE NAME OUTER MASTER`.
fn veth_add(rt: &impl Abort, alloc: Global, tokens: &str) -> Call {
    let at = link_tokens(tokens);
    let (outer, master) = cut(at.rest);
    let host_end = link(
        key(rt, alloc, "", outer),
        LinkKind::Veth,
        Some(text(rt, alloc, master)),
        Some(key(rt, alloc, at.ns, at.link)),
        own(rt, alloc, at.container),
    );
    let inner_end = link(
        key(rt, alloc, at.ns, at.link),
        LinkKind::Veth,
        None,
        Some(key(rt, alloc, "", outer)),
        own(rt, alloc, at.container),
    );
    Call::VethAdd {
        host_end: shared(rt, alloc, host_end),
        inner_end: shared(rt, alloc, inner_end),
    }
}

/// `LinkSet CONTAINER NAMESPACE NAME` turns the promiscuous mode on.
fn link_set(rt: &impl Abort, alloc: Global, tokens: &str) -> Call {
    let at = link_tokens(tokens);
    Call::LinkSet {
        att: att(rt, alloc, at.container),
        key: key(rt, alloc, at.ns, at.link),
        mac: None,
        mtu: None,
        tx_qlen: None,
        promisc: true,
        allmulti: false,
    }
}

/// `LeaseNext CONTAINER SET`.
fn lease_next(rt: &impl Abort, alloc: Global, tokens: &str) -> Call {
    let (container, name) = cut(tokens);
    let (number, set) = set(rt, alloc, name);
    let att = att(rt, alloc, container);
    Call::LeaseNext { att, number, set }
}

fn owners_of(rt: &impl Abort, alloc: Global, tokens: &str) -> Call {
    let (network, kind) = cut(tokens);
    let kind = match kind {
        "links" => Kind::Links,
        "rules" => Kind::Rules,
        "settings" => Kind::Settings,
        "leases" => Kind::Leases,
        "cached" => Kind::Cached,
        _ => panic!(rt; "no kind {kind}"),
    };
    Call::OwnersOf {
        network: text(rt, alloc, network),
        kind,
    }
}

/// A call of a container alone.
fn of_container(rt: &impl Abort, alloc: Global, verb: &str, container: &str) -> Call {
    let att = att(rt, alloc, container);
    match verb {
        "LinkDel" => Call::LinkDel { att },
        "RuleDel" => Call::RuleDel { att },
        "SettingDel" => Call::SettingDel { att },
        "LeaseDel" => Call::LeaseDel { att },
        "CacheDel" => Call::CacheDel { att },
        "CacheGet" => Call::CacheGet { att },
        _ => panic!(rt; "no call {verb}"),
    }
}

/// A change from outside: of a namespace, a link's as its namespace and name, or a table's.
fn outside(rt: &impl Abort, alloc: Global, verb: &str, tokens: &str) -> Call {
    match verb {
        "NsAdd" => Call::NsChange {
            name: text(rt, alloc, tokens),
            add: true,
        },
        "NsDel" => Call::NsChange {
            name: text(rt, alloc, tokens),
            add: false,
        },
        "DropLink" => {
            let (ns, name) = cut(tokens);
            Call::Outside {
                change: Change::DropLink(key(rt, alloc, ns, name)),
            }
        }
        "Flush" => Call::Outside {
            change: Change::Flush(table_named(tokens).expect(rt, tokens)),
        },
        _ => of_container(rt, alloc, verb, tokens),
    }
}

/// The object that a question names whole.
fn object(rt: &impl Abort, alloc: Global, verb: &str, tokens: &str) -> Object {
    match verb {
        "HasLink" | "HasVlan" | "HasDummy" => {
            Object::Link(shared(rt, alloc, inner_link(rt, alloc, tokens)))
        }
        "HasAddress" => Object::Address(shared(rt, alloc, address(rt, alloc, tokens))),
        "HasRoute" => Object::Route(shared(rt, alloc, route(rt, alloc, tokens))),
        "HasRule" => Object::Rule(shared(rt, alloc, rule(rt, alloc, tokens))),
        "HasSetting" => Object::Setting(shared(rt, alloc, setting(rt, alloc, tokens))),
        "HasLease" => Object::Lease(shared(rt, alloc, lease(rt, alloc, tokens))),
        _ => panic!(rt; "no call {verb}"),
    }
}

/// `BridgeAt NAME OTHER` asks for the bridge with the hardware address of a link named `OTHER`.
fn question(rt: &impl Abort, alloc: Global, verb: &str, tokens: &str) -> Call {
    match verb {
        "BridgeAt" => {
            let (name, other) = cut(tokens);
            Call::HasObj {
                probe: Probe::BridgeAt {
                    name: text(rt, alloc, name),
                    mac: link_mac(other),
                },
            }
        }
        "Master" => Call::HasObj {
            probe: Probe::Master {
                name: text(rt, alloc, tokens),
            },
        },
        "OwnersOf" => owners_of(rt, alloc, tokens),
        "PoolFree" => {
            let (_, set) = set(rt, alloc, tokens);
            let network = text(rt, alloc, "pods");
            Call::PoolFree { network, set }
        }
        _ if verb.starts_with("Has") => Call::HasObj {
            probe: Probe::Whole(object(rt, alloc, verb, tokens)),
        },
        _ => outside(rt, alloc, verb, tokens),
    }
}

fn addition(rt: &impl Abort, alloc: Global, verb: &str, tokens: &str) -> Call {
    match verb {
        "LinkSet" => link_set(rt, alloc, tokens),
        "AddrAdd" => Call::AddrAdd {
            obj: shared(rt, alloc, address(rt, alloc, tokens)),
        },
        "RouteAdd" => Call::RouteAdd {
            obj: shared(rt, alloc, route(rt, alloc, tokens)),
        },
        "RuleAppend" => Call::RuleAppend {
            rule: shared(rt, alloc, rule(rt, alloc, tokens)),
        },
        "SettingSet" => Call::SettingSet {
            setting: shared(rt, alloc, setting(rt, alloc, tokens)),
        },
        "LeaseNext" => lease_next(rt, alloc, tokens),
        "CachePut" => Call::CachePut {
            att: att(rt, alloc, tokens),
            cached: shared(rt, alloc, cached(rt, alloc)),
        },
        _ => question(rt, alloc, verb, tokens),
    }
}

/// The call that the tokens of a row stand for. In `Begin CONTAINER NAMESPACE` the host's own namespace is `host`.
pub(crate) fn call_of(rt: &impl Abort, alloc: Global, tokens: &str) -> Call {
    let (verb, tokens) = cut(tokens);
    match verb {
        "Begin" => {
            let (container, netns) = cut(tokens);
            let netns = if netns == "host" { "" } else { netns };
            Call::Begin {
                att: att(rt, alloc, container),
                netns: text(rt, alloc, netns),
            }
        }
        "BridgeEnsure" => Call::BridgeEnsure {
            name: text(rt, alloc, tokens),
            mtu: 1500,
            promisc: false,
        },
        "GatewayEnsure" => Call::GatewayEnsure {
            bridge: text(rt, alloc, tokens),
            cidr: cidr_of(rt, "10.88.0.1/16"),
        },
        "ForwardEnsure" => forward_ensure(rt, tokens),
        "VethAdd" => veth_add(rt, alloc, tokens),
        "MacvlanAdd" | "VlanAdd" | "DummyAdd" => Call::MacvlanAdd {
            link: shared(rt, alloc, inner_link(rt, alloc, tokens)),
        },
        _ => addition(rt, alloc, verb, tokens),
    }
}
