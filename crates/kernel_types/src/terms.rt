//! What the crates above ask of single objects: their place, kind, owner and key; whether a link goes with another or
//! with a namespace; the last address of a pool; and whether a call may be refused memory. None takes memory.

ghost use Rattle.std.specs.Prelude.{◌≡◌, find};
ghost use Rattle.std.specs.Option.{option_copied};
ghost use Rattle.kernel_types.specs.Apply.Calls.{goes_with, goes_with_ns, has_peer_in};
ghost use Rattle.kernel_types.specs.Keys.{is_same_addr, is_same_route, is_same_setting};
ghost use Rattle.kernel_types.specs.Replies.{needs_no_memory};
ghost use Rattle.kernel_types.specs.Terms.{fits_master, is_at, is_bridge, is_host_ns, is_owned, is_peer_at, is_veth};
ghost use Rattle.kernel_types.specs.Terms.{is_of_pool, last_in};

use crate::call::Call;
use crate::object::{AddrObj, Last, Link, LinkKey, LinkKind, RouteObj, Setting, Tag};
use cni_addr::{Addr, Text};

/// Whether a namespace of this name is the host's own, whose name is empty.
pub fn is_host_ns(ns: &str) -> bool
    ensures { result ≡ is_host_ns ns.now }
{
    ns.is_empty()
}

/// Whether the link stands at this place.
pub fn is_at(ns: &str, name: &str, link: &Link) -> bool
    ensures { result ≡ is_at ns.now name.now link.now }
{
    link.ns.as_str() == ns && link.name.as_str() == name
}

/// Whether a link's peer stands at this place.
pub fn is_peer_at(ns: &str, name: &str, peer: &Option<LinkKey>) -> bool
    ensures { result ≡ is_peer_at ns.now name.now peer.now }
{
    match peer {
        Some(key) => key.ns.as_str() == ns && key.name.as_str() == name,
        None => false,
    }
}

fn has_peer_in(name: &Text, peer: &Option<LinkKey>) -> bool
    ensures { result ≡ has_peer_in name.now peer.now }
{
    match peer {
        Some(key) => key.ns == *name,
        None => false,
    }
}

impl Link {
    /// Whether it stands at this place, or its peer does: whether it goes when the link there does.
    pub fn goes_with(&self, ns: &str, name: &str) -> bool
        ensures { result ≡ goes_with ns.now name.now self.now }
    {
        is_at(ns, name, self) || is_peer_at(ns, name, &self.peer)
    }

    /// Whether it is in the namespace of this name, or its peer is: whether it goes when the namespace does.
    pub fn goes_with_ns(&self, name: &Text) -> bool
        ensures { result ≡ goes_with_ns name.now self.now }
    {
        self.ns == *name || has_peer_in(name, &self.peer)
    }
}

impl LinkKind {
    /// Whether it is a bridge.
    pub fn is_bridge(self) -> bool
        ensures { result ≡ is_bridge self }
    {
        matches!(self, LinkKind::Bridge)
    }

    /// Whether it is one end of a veth pair.
    pub fn is_veth(self) -> bool
        ensures { result ≡ is_veth self }
    {
        matches!(self, LinkKind::Veth)
    }

    /// Whether it is a macvlan or a VLAN link and there is a master, or a dummy link and there is none.
    pub fn fits_master(self, master: &Option<Text>) -> bool
        ensures { result ≡ fits_master self master.now }
    {
        match self {
            LinkKind::Macvlan(_) | LinkKind::Vlan { .. } => master.is_some(),
            LinkKind::Dummy => master.is_none(),
            LinkKind::Device | LinkKind::Bridge | LinkKind::Veth => false,
        }
    }
}

impl Tag {
    /// Whether some attachment owns what has this tag.
    pub fn is_owned(&self) -> bool
        ensures { result ≡ is_owned self.now }
    {
        matches!(self, Tag::Own(_))
    }
}

impl Last {
    /// Whether it is the address that was leased last of the set of this number in the network.
    pub fn is_of_pool(&self, network: &str, number: u32) -> bool
        ensures { result ≡ is_of_pool network.now number self.now }
    {
        self.network.as_str() == network && self.set == number
    }
}

fn last_of_pool<'a>(lasts: &'a [Last], network: &str, number: u32) -> Option<&'a Last>
    ensures { option_copied result ≡ find (is_of_pool network.now number) lasts.now }
{
    lasts.iter().find(|l| l.is_of_pool(network, number))
}

/// The address that was leased last of the set of this number in the network. Linear in the list.
pub fn last_in(lasts: &[Last], network: &str, number: u32) -> Option<Addr>
    ensures { result ≡ last_in lasts.now network.now number }
{
    last_of_pool(lasts, network, number).map(|last| last.addr)
}

impl Call {
    /// Whether the call is never refused memory: it only removes, changes numbers in place or asks for a truth value.
    pub fn needs_no_memory(&self) -> bool
        ensures { result ≡ needs_no_memory self.now }
    {
        matches!(
            self,
            Call::LinkSet { .. }
                | Call::LinkDel { .. }
                | Call::RuleDel { .. }
                | Call::SettingDel { .. }
                | Call::LeaseDel { .. }
                | Call::CacheDel { .. }
                | Call::HasObj { .. }
                | Call::PoolFree { .. }
                | Call::NsChange { add: false, .. }
                | Call::Outside { .. }
        )
    }
}

// ---- the keys of objects that a call adds unless their key is taken

/// Whether the other one is the same address on the same link, whatever its prefix.
pub fn is_same_addr(new: &AddrObj, other: &AddrObj) -> bool
    ensures { result ≡ is_same_addr new.now other.now }
{
    other.ns == new.ns && other.link == new.link && other.cidr.addr == new.cidr.addr
}

/// Whether the other route is on the same link and has the same destination, whatever its gateway.
pub fn is_same_route(new: &RouteObj, other: &RouteObj) -> bool
    ensures { result ≡ is_same_route new.now other.now }
{
    other.ns == new.ns && other.dst == new.dst && other.link == new.link
}

/// Whether the other setting is of the same namespace and key, whatever its value.
pub fn is_same_setting(new: &Setting, other: &Setting) -> bool
    ensures { result ≡ is_same_setting new.now other.now }
{
    other.ns == new.ns && other.key == new.key
}
