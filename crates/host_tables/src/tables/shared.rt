//! What the attachments of a host share.

ghost use Rattle.std.specs.Prelude.{◌≡◌, IfOk, OnErr, find};
ghost use Rattle.std.specs.List.{list_any};
ghost use Rattle.std.specs.Option.{option_copied};
ghost use Rattle.kernel_types.specs.Apply.Calls.{bridge_ensure_of, gateway_ensure_of, forward_ensure_of};
ghost use Rattle.kernel_types.specs.Keys.{is_same_addr, is_same_setting};
ghost use Rattle.kernel_types.specs.Sound.{IsSound};
ghost use Rattle.kernel_types.specs.Terms.{has_host_bridge, is_host_link};

use super::Tables;
use cni_addr::{Cidr, Duplicate, Family, NoMemory, Text};
use kernel_types::{AddrKey, AddrObj, Link, Reply, Setting, SettingKey};
use std::alloc::Global;

impl Tables {
    /// The host's link of this name.
    pub(super) fn host_link(&self, name: &Text) -> Option<&Link>
        ensures { option_copied result ≡ find (is_host_link name.now) self.now.links }
    {
        self.links.find_alias(name)
    }

    /// Whether a bridge of the host has this name.
    pub(super) fn has_host_bridge(&self, name: &Text) -> bool
        requires { IsSound self.now }
        ensures { result ≡ has_host_bridge self.now name.now }
    {
        match self.host_link(name) {
            Some(link) => link.kind.is_bridge(),
            None => false,
        }
    }

    /// Whether the same address is on the same link.
    fn has_same_addr(&self, obj: &AddrObj) -> Result<bool, NoMemory>
        ensures { IfOk result (λ there. there ≡ list_any (is_same_addr obj.now) self.now.addresses) }
    {
        let key = AddrKey::of(obj)?;
        Ok(self.addresses.find(&key).is_some())
    }

    /// Whether a setting of the same place and key is there.
    fn has_same_setting(&self, obj: &Setting) -> Result<bool, NoMemory>
        ensures { IfOk result (λ there. there ≡ list_any (is_same_setting obj.now) self.now.settings) }
    {
        let key = SettingKey::of(obj)?;
        Ok(self.settings.find(&key).is_some())
    }

    /// A bridge of the host, made where no link of the host has its name.
    #[inline(never)]
    pub fn bridge_ensure(
        &mut self,
        alloc: Global,
        name: &Text,
        mtu: u32,
        promisc: bool,
    ) -> Result<Reply, NoMemory>
        ensures ok { IfOk result (λ reply. (self.new, reply) ≡ bridge_ensure_of self.old name.now mtu promisc) }
        ensures err { OnErr result (self.new ≡ self.old) }
    {
        if let Some(link) = self.host_link(name) {
            return if link.kind.is_bridge() {
                Ok(Reply::Done)
            } else {
                Ok(Reply::Taken(link.tag.copy()?))
            };
        }
        let bridge = Link::bridge(alloc, name, mtu, promisc)?;
        self.links.push(alloc, bridge)?;
        Ok(Reply::Done)
    }

    /// A bridge's address as the gateway of its containers, added where it isn't there.
    #[inline(never)]
    pub fn gateway_ensure(
        &mut self,
        alloc: Global,
        bridge: &Text,
        cidr: Cidr,
    ) -> Result<Reply, NoMemory>
        requires sound { IsSound self.old }
        ensures ok { IfOk result (λ reply. (self.new, reply) ≡ gateway_ensure_of self.old bridge.now cidr) }
        ensures err { OnErr result (self.new ≡ self.old) }
    {
        if !self.has_host_bridge(bridge) {
            return Ok(Reply::NoLink);
        }
        let gateway = AddrObj::gateway(alloc, bridge, cidr)?;
        if self.has_same_addr(&gateway)? {
            return Ok(Reply::Done);
        }
        self.addresses.push(alloc, gateway)?;
        Ok(Reply::Done)
    }

    /// The setting by which the host forwards this family, made where it isn't there.
    #[inline(never)]
    pub fn forward_ensure(&mut self, alloc: Global, family: Family) -> Result<Reply, NoMemory>
        ensures ok { IfOk result (λ reply. (self.new, reply) ≡ forward_ensure_of self.old family) }
        ensures err { OnErr result (self.new ≡ self.old) }
    {
        let forward = self.forwards.of(family);
        if self.has_same_setting(forward)? {
            return Ok(Reply::Done);
        }
        let forward = forward.copy()?;
        self.settings.push(alloc, forward)?;
        Ok(Reply::Done)
    }
}
