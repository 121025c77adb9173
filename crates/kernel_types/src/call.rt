//! The calls of the modelled kernel, its replies, and a leased address with what its range says of it.

use crate::object::{AddrObj, Att, Lease, Link, LinkKey, RouteObj, Setting, Tag};
use crate::rule::{Rule, Table};
use cni_addr::{Addr, Cidr, Family, Items, Mac, RangeSet, RefCounted, Text};
use cni_result::Cached;
use std::marker::Model;

/// A kind of objects that an attachment may have.
#[derive(Clone, Copy)]
pub enum Kind {
    /// Links, with the addresses and routes on them.
    Links,
    /// Rules of packet filtering and address translation.
    Rules,
    /// Settings of a namespace.
    Settings,
    /// Leased addresses.
    Leases,
    /// The cached result of an attachment.
    Cached,
}

impl PartialEq for Kind {
    ghost use Rattle.std.specs.Cmp.{partial_equiv_from_equiv, on_equiv, nat_eq_equiv};
    ghost use Rattle.kernel_types.specs.Codes.{kind_eq, kind_code};

    ghost eq = { kind_eq };

    ghost laws = { partial_equiv_from_equiv (on_equiv kind_code nat_eq_equiv) };

    fn eq(&self, other: &Kind) -> bool {
        *self as u8 == *other as u8
    }
}

impl Eq for Kind {
    ghost use Rattle.std.specs.Cmp.{on_equiv, nat_eq_equiv};
    ghost use Rattle.kernel_types.specs.Codes.{kind_code};

    ghost laws = { on_equiv kind_code nat_eq_equiv };
}

/// An object that a check looks for.
#[derive(PartialEq, Eq, Drop)]
pub enum Object {
    Link(RefCounted<Link>),
    Address(RefCounted<AddrObj>),
    Route(RefCounted<RouteObj>),
    Rule(RefCounted<Rule>),
    Setting(RefCounted<Setting>),
    Lease(RefCounted<Lease>),
}

/// What a check asks whether the host has.
#[derive(PartialEq, Eq, Drop)]
pub enum Probe {
    /// An object that is equal to this one in all of its parts.
    Whole(Object),
    /// A bridge of the host of this name and hardware address.
    BridgeAt { name: Text, mac: Mac },
    /// A link of the host of this name that no attachment owns, which a macvlan or a VLAN link may stand on.
    Master { name: Text },
}

/// What is done from outside.
#[derive(PartialEq, Eq, Drop)]
pub enum Change {
    /// A link of a namespace other than the host's goes, with its peer.
    DropLink(LinkKey),
    /// All rules of a table go, of both families.
    Flush(Table),
}

/// A call of the kernel. Each is named with what it does where nothing refuses it; `specs/Apply/Calls.antt` has its
/// equation, with each refusal. Its objects are shared by its copies; those that aren't links also by the probes of a
/// check, and a rule by the host.
#[derive(PartialEq, Eq, Drop)]
pub enum Call {
    /// Asks whether an attachment may begin: its namespace is there, and nothing is its own yet. Changes nothing.
    Begin {
        att: Att,
        netns: Text,
    },
    /// A bridge of the host of this name, made where it isn't there; its MTU in bytes.
    BridgeEnsure {
        name: Text,
        mtu: u32,
        promisc: bool,
    },
    /// The address on the host's bridge, added where it isn't there.
    GatewayEnsure {
        bridge: Text,
        cidr: Cidr,
    },
    /// Forwarding of the family in the host, turned on where the setting isn't there.
    ForwardEnsure {
        family: Family,
    },
    /// Both ends of a veth pair.
    VethAdd {
        host_end: RefCounted<Link>,
        inner_end: RefCounted<Link>,
    },
    /// A link in another namespace than the host's own that is no end of a pair: a macvlan or a VLAN link on its
    /// master, or a dummy link.
    MacvlanAdd {
        link: RefCounted<Link>,
    },
    /// The given values of the attachment's link at the place; a mode is turned on where its flag is set, and never
    /// off.
    LinkSet {
        att: Att,
        key: LinkKey,
        mac: Option<Mac>,
        mtu: Option<u32>,
        tx_qlen: Option<u32>,
        promisc: bool,
        allmulti: bool,
    },
    /// An address on a link of its owner.
    AddrAdd {
        obj: RefCounted<AddrObj>,
    },
    /// A route over a link of its owner.
    RouteAdd {
        obj: RefCounted<RouteObj>,
    },
    /// A rule at the end of its chain.
    RuleAppend {
        rule: RefCounted<Rule>,
    },
    /// A setting of a namespace.
    SettingSet {
        setting: RefCounted<Setting>,
    },
    /// A lease of the next free address of the set of this number.
    LeaseNext {
        att: Att,
        number: u32,
        set: RefCounted<RangeSet>,
    },
    /// The cached result of the attachment.
    CachePut {
        att: Att,
        cached: RefCounted<Cached>,
    },
    /// The attachment's first link goes, with its peer and what stands on either.
    LinkDel {
        att: Att,
    },
    /// The attachment's first rule goes.
    RuleDel {
        att: Att,
    },
    /// The attachment's first setting goes.
    SettingDel {
        att: Att,
    },
    /// The attachment's first lease goes.
    LeaseDel {
        att: Att,
    },
    /// The attachment's cached result goes.
    CacheDel {
        att: Att,
    },
    /// Asks whether the host has what the probe names.
    HasObj {
        probe: Probe,
    },
    /// Asks for the attachment's cached result.
    CacheGet {
        att: Att,
    },
    /// Asks which attachments of the network own an object of the kind.
    OwnersOf {
        network: Text,
        kind: Kind,
    },
    /// Asks whether the set has an address without a lease.
    PoolFree {
        network: Text,
        set: RefCounted<RangeSet>,
    },
    /// Makes a namespace from outside, or takes one away with all that is in it.
    NsChange {
        name: Text,
        add: bool,
    },
    /// Takes something away from outside.
    Outside {
        change: Change,
    },
}

/// What the kernel answers to a call.
#[derive(PartialEq, Eq, Drop)]
pub enum Reply {
    /// It is done.
    Done,
    /// The namespace isn't there.
    NoNs,
    /// The link that it needs isn't there.
    NoLink,
    /// Something stands in the place already; the tag says whose it is.
    Taken(Tag),
    /// The set has no free address.
    Empty,
    /// The address that was leased.
    Leased(Addr),
    /// Whether anything was there to remove.
    Gone(bool),
    /// Whether the host has what was asked for.
    Has(bool),
    /// The attachments that own an object, each once, in the order of the host's list.
    Owners(Items<Att>),
    /// The cached result, where there is one.
    Entry(Option<RefCounted<Cached>>),
    /// The call failed and changed nothing. The kernel never answers so: it stands for a fault.
    Fault,
}

/// A leased address with its subnet's prefix, and the gateway and the subnet of its range.
#[derive(Clone, Copy, PartialEq, Eq)]
pub struct Given {
    pub address: Cidr,
    pub gateway: Addr,
    pub subnet: Cidr,
}

impl Model for Given {
    ghost use Rattle.kernel_types.specs.GivenAddress.{GivenValue, HasOneFamily};

    ghost Value = { GivenValue };

    ghost view = { λ g. record { address = g.address; gateway = g.gateway; subnet = g.subnet } };

    ghost invariant = { λ g. HasOneFamily g.address g.gateway g.subnet };

    ghost inverse = { λ v. record { address = v.address; gateway = v.gateway; subnet = v.subnet } };
}
