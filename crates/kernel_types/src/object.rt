//! The objects of the modelled kernel.

ghost use Rattle.std.specs.Prelude.{◌≡◌, IfOk};
ghost use Rattle.kernel_types.specs.Terms.{is_own, lease_of, outside_namespace};

use crate::rule::Rule;
use cni_addr::{Addr, Cidr, Duplicate, Items, Mac, MacvlanMode, NoMemory, RefCounted, Text};
use cni_result::Cached;

/// Whose an object is.
#[derive(PartialEq, Eq, PartialOrd, Ord, Hash, Drop)]
pub enum Tag {
    /// It was there before, or was made from outside: nobody here takes it away.
    Outside,
    /// The attachments of a host share it (a bridge, a gateway on it, forwarding of a family); it stays.
    Base,
    /// It is this attachment's own, and goes with it.
    Own(Att),
}

impl Tag {
    /// Whether the attachment owns what has this tag.
    pub fn is_own(&self, att: &Att) -> bool
        ensures { result ≡ is_own att.now self.now }
    {
        match self {
            Tag::Own(own) => own == att,
            Tag::Outside | Tag::Base => false,
        }
    }
}

impl Duplicate for Tag {
    fn copy(&self) -> Result<Tag, NoMemory> {
        match self {
            Tag::Outside => Ok(Tag::Outside),
            Tag::Base => Ok(Tag::Base),
            Tag::Own(att) => Ok(Tag::Own(att.copy()?)),
        }
    }
}

/// What a link is.
#[derive(Clone, Copy, PartialEq, Eq)]
pub enum LinkKind {
    /// A device of the machine.
    Device,
    /// A bridge.
    Bridge,
    /// One end of a veth pair; its peer is the other.
    Veth,
    /// A macvlan link on its master.
    Macvlan(MacvlanMode),
    /// A dummy link, which has no master.
    Dummy,
    /// A VLAN link on its master.
    Vlan {
        /// The number of the VLAN (IEEE 802.1Q). One master may carry it twice.
        id: u16,
    },
}

/// An attachment of a container to a network (CNI specification, section 2: what the runtime names by `CNI_CONTAINERID`
/// and `CNI_IFNAME`, with the name of the network).
#[derive(PartialEq, Eq, PartialOrd, Ord, Hash, Drop)]
pub struct Att {
    pub network: Text,
    pub container: Text,
    /// The name of the container's interface, as `eth0`.
    pub ifname: Text,
}

impl Duplicate for Att {
    fn copy(&self) -> Result<Att, NoMemory> {
        Ok(Att {
            network: self.network.copy()?,
            container: self.container.copy()?,
            ifname: self.ifname.copy()?,
        })
    }
}

/// The place of a link; the host's own namespace has the empty name.
#[derive(PartialEq, Eq, PartialOrd, Ord, Hash, Drop)]
pub struct LinkKey {
    pub ns: Text,
    pub name: Text,
}

impl Duplicate for LinkKey {
    fn copy(&self) -> Result<LinkKey, NoMemory> {
        Ok(LinkKey {
            ns: self.ns.copy()?,
            name: self.name.copy()?,
        })
    }
}

/// A namespace.
#[derive(PartialEq, Eq, Drop)]
pub struct NsObj {
    pub name: Text,
    pub tag: Tag,
}

impl NsObj {
    /// A namespace that was made outside.
    pub fn outside(name: &Text) -> Result<NsObj, NoMemory>
        ensures { IfOk result (λ namespace. namespace ≡ outside_namespace name.now) }
    {
        Ok(NsObj {
            name: name.copy()?,
            tag: Tag::Outside,
        })
    }
}

impl Duplicate for NsObj {
    fn copy(&self) -> Result<NsObj, NoMemory> {
        Ok(NsObj {
            name: self.name.copy()?,
            tag: self.tag.copy()?,
        })
    }
}

/// A network device.
#[derive(PartialEq, Eq, Drop)]
pub struct Link {
    pub ns: Text,
    pub name: Text,
    pub kind: LinkKind,
    /// The host's bridge that it is a port of, or the host's link that a macvlan or a VLAN link is on.
    pub master: Option<Text>,
    /// The other end of a veth pair.
    pub peer: Option<LinkKey>,
    pub mac: Mac,
    /// In bytes.
    pub mtu: u32,
    /// Whether its bridge may send a frame out again by the port that it came in by.
    pub hairpin: bool,
    /// Whether it takes in frames for every address.
    pub promisc: bool,
    /// Whether it takes in frames for every multicast address.
    pub allmulti: bool,
    /// The length of its transmission queue, in packets.
    pub tx_qlen: u32,
    pub tag: Tag,
}

impl Duplicate for Link {
    fn copy(&self) -> Result<Link, NoMemory> {
        Ok(Link {
            ns: self.ns.copy()?,
            name: self.name.copy()?,
            kind: self.kind,
            master: self.master.copy()?,
            peer: self.peer.copy()?,
            mac: self.mac,
            mtu: self.mtu,
            hairpin: self.hairpin,
            promisc: self.promisc,
            allmulti: self.allmulti,
            tx_qlen: self.tx_qlen,
            tag: self.tag.copy()?,
        })
    }
}

/// An address on a link.
#[derive(PartialEq, Eq, Hash, Drop)]
pub struct AddrObj {
    pub ns: Text,
    /// The name of the link, which stands in the same namespace.
    pub link: Text,
    /// The address with the prefix of its network.
    pub cidr: Cidr,
    pub tag: Tag,
}

impl Duplicate for AddrObj {
    fn copy(&self) -> Result<AddrObj, NoMemory> {
        Ok(AddrObj {
            ns: self.ns.copy()?,
            link: self.link.copy()?,
            cidr: self.cidr,
            tag: self.tag.copy()?,
        })
    }
}

/// A route.
#[derive(PartialEq, Eq, Hash, Drop)]
pub struct RouteObj {
    pub ns: Text,
    /// The network that it leads to; that of all addresses of a family makes it the family's default route.
    pub dst: Cidr,
    /// The name of the link that it leads out by.
    pub link: Text,
    /// The next hop; where there is none, the network is on the link.
    pub gw: Option<Addr>,
    pub tag: Tag,
}

impl Duplicate for RouteObj {
    fn copy(&self) -> Result<RouteObj, NoMemory> {
        Ok(RouteObj {
            ns: self.ns.copy()?,
            dst: self.dst,
            link: self.link.copy()?,
            gw: self.gw,
            tag: self.tag.copy()?,
        })
    }
}

/// A value of a namespace, as `sysctl` sets it.
#[derive(PartialEq, Eq, Hash, Drop)]
pub struct Setting {
    pub ns: Text,
    /// The name with points, as `net.core.somaxconn`.
    pub key: Text,
    pub value: Text,
    pub tag: Tag,
}

impl Duplicate for Setting {
    fn copy(&self) -> Result<Setting, NoMemory> {
        Ok(Setting {
            ns: self.ns.copy()?,
            key: self.key.copy()?,
            value: self.value.copy()?,
            tag: self.tag.copy()?,
        })
    }
}

/// An address that is leased. No network has one twice in a sound host.
#[derive(PartialEq, Eq, Hash, Drop)]
pub struct Lease {
    pub network: Text,
    pub addr: Addr,
    pub tag: Tag,
}

impl Lease {
    /// The attachment's lease of an address.
    pub fn of(att: &Att, addr: Addr) -> Result<Lease, NoMemory>
        ensures { IfOk result (λ lease. lease ≡ lease_of att.now addr) }
    {
        Ok(Lease {
            network: att.network.copy()?,
            addr,
            tag: Tag::Own(att.copy()?),
        })
    }
}

impl Duplicate for Lease {
    fn copy(&self) -> Result<Lease, NoMemory> {
        Ok(Lease {
            network: self.network.copy()?,
            addr: self.addr,
            tag: self.tag.copy()?,
        })
    }
}

/// What a runtime keeps of an attachment's ADD: its result, and what its later verbs need.
#[derive(PartialEq, Eq, Drop)]
pub struct CachedObj {
    /// Shared with the call that put it here.
    pub cached: RefCounted<Cached>,
    pub tag: Tag,
}

impl Duplicate for CachedObj {
    fn copy(&self) -> Result<CachedObj, NoMemory> {
        Ok(CachedObj {
            cached: self.cached.copy()?,
            tag: self.tag.copy()?,
        })
    }
}

/// The address that was leased last of a range set. It stays when the lease goes, and belongs to nobody.
#[derive(PartialEq, Eq, Drop)]
pub struct Last {
    pub network: Text,
    /// The number of the range set in its network's list, from 0.
    pub set: u32,
    pub addr: Addr,
}

impl Duplicate for Last {
    fn copy(&self) -> Result<Last, NoMemory> {
        Ok(Last {
            network: self.network.copy()?,
            set: self.set,
            addr: self.addr,
        })
    }
}

/// All objects of the modelled kernel, each kind in the order in which its objects came.
#[derive(PartialEq, Eq, Drop)]
pub struct Host {
    pub namespaces: Items<NsObj>,
    pub links: Items<Link>,
    pub addresses: Items<AddrObj>,
    pub routes: Items<RouteObj>,
    pub rules: Items<RefCounted<Rule>>,
    pub settings: Items<Setting>,
    pub leases: Items<Lease>,
    pub cached: Items<CachedObj>,
    pub lasts: Items<Last>,
}

impl Duplicate for Host {
    fn copy(&self) -> Result<Host, NoMemory> {
        Ok(Host {
            namespaces: self.namespaces.copy()?,
            links: self.links.copy()?,
            addresses: self.addresses.copy()?,
            routes: self.routes.copy()?,
            rules: self.rules.copy()?,
            settings: self.settings.copy()?,
            leases: self.leases.copy()?,
            cached: self.cached.copy()?,
            lasts: self.lasts.copy()?,
        })
    }
}
