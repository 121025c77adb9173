//! What the attachments of a host share.

ghost use Rattle.std.specs.Prelude.{◌≡◌, IfOk, OnErr};
ghost use Rattle.std.specs.List.{list_any};
ghost use Rattle.kernel_types.specs.Apply.Calls.{bridge_ensure_of, gateway_ensure_of, forward_ensure_of};
ghost use Rattle.kernel_types.specs.Keys.{is_same_addr, is_same_setting};

use super::HostLists;
use crate::lookups::{has_bridge_in, host_link};
use cni_addr::{Cidr, Duplicate, Family, NoMemory, Text};
use kernel_types::terms::{is_same_addr, is_same_setting};
use kernel_types::{AddrObj, Link, Reply, Setting};
use std::alloc::Global;

/// Whether the same address is on the same link.
fn has_same_addr(addresses: &[AddrObj], obj: &AddrObj) -> bool
    ensures { result ≡ list_any (is_same_addr obj.now) addresses.now }
{
    addresses.iter().any(|a| is_same_addr(obj, a))
}

/// Whether a setting of the same place and key is there.
fn has_same_setting(settings: &[Setting], obj: &Setting) -> bool
    ensures { result ≡ list_any (is_same_setting obj.now) settings.now }
{
    settings.iter().any(|s| is_same_setting(obj, s))
}

impl HostLists {
    pub(crate) fn bridge_ensure(
        &mut self,
        alloc: Global,
        name: &Text,
        mtu: u32,
        promisc: bool,
    ) -> Result<Reply, NoMemory>
        ensures ok { IfOk result (λ reply. (self.new, reply) ≡ bridge_ensure_of self.old name.now mtu promisc) }
        ensures err { OnErr result (self.new ≡ self.old) }
    {
        if let Some(link) = host_link(&self.links, name) {
            return if link.kind.is_bridge() {
                Ok(Reply::Done)
            } else {
                Ok(Reply::Taken(link.tag.copy()?))
            };
        }
        let bridge = Link::bridge(alloc, name, mtu, promisc)?;
        self.links.push(bridge)?;
        Ok(Reply::Done)
    }

    pub(crate) fn gateway_ensure(
        &mut self,
        alloc: Global,
        bridge: &Text,
        cidr: Cidr,
    ) -> Result<Reply, NoMemory>
        ensures ok { IfOk result (λ reply. (self.new, reply) ≡ gateway_ensure_of self.old bridge.now cidr) }
        ensures err { OnErr result (self.new ≡ self.old) }
    {
        if !has_bridge_in(&self.links, bridge) {
            return Ok(Reply::NoLink);
        }
        let gateway = AddrObj::gateway(alloc, bridge, cidr)?;
        if has_same_addr(&self.addresses, &gateway) {
            return Ok(Reply::Done);
        }
        self.addresses.push(gateway)?;
        Ok(Reply::Done)
    }

    pub(crate) fn forward_ensure(
        &mut self,
        alloc: Global,
        family: Family,
    ) -> Result<Reply, NoMemory>
        ensures ok { IfOk result (λ reply. (self.new, reply) ≡ forward_ensure_of self.old family) }
        ensures err { OnErr result (self.new ≡ self.old) }
    {
        let forward = Setting::forwarding(alloc, family)?;
        if has_same_setting(&self.settings, &forward) {
            return Ok(Reply::Done);
        }
        self.settings.push(forward)?;
        Ok(Reply::Done)
    }
}
