//! The objects that the attachments of a host share. No attachment owns one, so each stays.

ghost use Rattle.std.specs.Prelude.{◌≡◌, IfOk};
ghost use Rattle.kernel_types.specs.Apply.Calls.{forward_key, new_bridge, new_forward, new_gateway};

use crate::object::{AddrObj, Link, LinkKey, LinkKind, Setting, Tag};
use cni_addr::{Cidr, Duplicate, Family, NoMemory, Text};
use link_names::link_mac;
use std::alloc::Global;

impl Link {
    /// A shared bridge of the host, with the hardware address of its name. The MTU is in bytes.
    pub fn bridge(alloc: Global, name: &Text, mtu: u32, promisc: bool) -> Result<Link, NoMemory>
        ensures { IfOk result (λ link. link ≡ new_bridge name.now mtu promisc) }
    {
        let key = LinkKey {
            ns: Text::of(alloc, "")?,
            name: name.copy()?,
        };
        Ok(Link {
            promisc,
            ..Link::new(
                key,
                LinkKind::Bridge,
                link_mac(name.as_str()),
                mtu,
                Tag::Base,
            )
        })
    }
}

impl AddrObj {
    /// The shared address of a gateway on a bridge of the host.
    pub fn gateway(alloc: Global, bridge: &Text, cidr: Cidr) -> Result<AddrObj, NoMemory>
        ensures { IfOk result (λ gateway. gateway ≡ new_gateway bridge.now cidr) }
    {
        Ok(AddrObj {
            ns: Text::of(alloc, "")?,
            link: bridge.copy()?,
            cidr,
            tag: Tag::Base,
        })
    }
}

/// The host's setting that lets it forward packets of the family (Linux, `ip-sysctl`).
fn forward_key(family: Family) -> &'static str
    ensures { result.now ≡ forward_key family }
{
    match family {
        Family::V4 => "net.ipv4.ip_forward",
        Family::V6 => "net.ipv6.conf.all.forwarding",
    }
}

impl Setting {
    /// The shared setting by which the host forwards packets of the family.
    pub fn forwarding(alloc: Global, family: Family) -> Result<Setting, NoMemory>
        ensures { IfOk result (λ forward. forward ≡ new_forward family) }
    {
        Ok(Setting {
            ns: Text::of(alloc, "")?,
            key: Text::of(alloc, forward_key(family))?,
            value: Text::of(alloc, "1")?,
            tag: Tag::Base,
        })
    }
}
