//! Links of one attachment.

ghost use Rattle.std.specs.Prelude.{◌≡◌, ◌++◌, ◌∷◌, [], None, IfOk, OnOk, OnErr};
ghost use Rattle.std.specs.Option.{option_copied, option_map};
ghost use Rattle.kernel_types.specs.Allowed.{IsVethPair};
ghost use Rattle.kernel_types.specs.Apply.Calls.{veth_add_of, master_is_bridge_or_none, macvlan_add_of, has_master};
ghost use Rattle.kernel_types.specs.Apply.Calls.{has_free_master};
ghost use Rattle.kernel_types.specs.Sound.{IsSound};
ghost use Rattle.kernel_types.specs.Terms.{link_at};

use super::Tables;
use cni_addr::{Duplicate, NoMemory, Text};
use kernel_types::{Link, LinkKey, Reply, Tag};
use std::alloc::Global;

/// The place of the link.
fn key_of(link: &Link) -> Result<LinkKey, NoMemory>
    ensures { IfOk result (λ key. key ≡ record { ns = link.now.ns; name = link.now.name }) }
{
    Ok(LinkKey {
        ns: link.ns.copy()?,
        name: link.name.copy()?,
    })
}

impl Tables {
    /// The link at this place.
    pub(super) fn link_at(&self, key: &LinkKey) -> Option<&Link>
        ensures { option_copied result ≡ link_at self.now key.now.ns key.now.name }
    {
        self.links.find(key)
    }

    /// A copy of the tag of the link at this place.
    fn link_tag(&self, key: &LinkKey) -> Result<Option<Tag>, NoMemory>
        ensures { IfOk result (λ tag. tag ≡ option_map (λ l. l.tag) (link_at self.now key.now.ns key.now.name)) }
    {
        match self.link_at(key) {
            Some(link) => Ok(Some(link.tag.copy()?)),
            None => Ok(None),
        }
    }

    /// A copy of the tag of the link that stands where this one is to be.
    fn taken_by(&self, link: &Link) -> Result<Option<Tag>, NoMemory>
        ensures { IfOk result (λ tag. tag ≡ option_map (λ l. l.tag) (link_at self.now link.now.ns link.now.name)) }
    {
        self.link_tag(&key_of(link)?)
    }

    fn master_is_bridge_or_none(&self, master: &Option<Text>) -> bool
        requires { IsSound self.now }
        ensures { result ≡ master_is_bridge_or_none self.now master.now }
    {
        match master {
            Some(name) => self.has_host_bridge(name),
            None => true,
        }
    }

    /// Appends both ends of a veth pair, or neither.
    fn push_ends(
        &mut self,
        alloc: Global,
        host_end: &Link,
        inner_end: &Link,
    ) -> Result<(), NoMemory>
        requires pair { IsVethPair host_end.now inner_end.now }
        requires host_free { link_at self.old host_end.now.ns host_end.now.name ≡ None }
        requires inner_free { link_at self.old inner_end.now.ns inner_end.now.name ≡ None }
        ensures ok { OnOk result (self.new ≡ record self.old {
          links = self.old.links ++ host_end.now ∷ inner_end.now ∷ [];
        }) }
        ensures err { OnErr result (self.new ≡ self.old) }
    {
        let key = key_of(host_end)?;
        let second = inner_end.copy()?;
        self.links.push(alloc, host_end.copy()?)?;
        if let Err(e) = self.links.push(alloc, second) {
            self.links.take(&key);
            return Err(e);
        }
        Ok(())
    }

    /// Both ends of a veth pair, or neither.
    #[inline(never)]
    pub fn veth_add(
        &mut self,
        alloc: Global,
        host_end: &Link,
        inner_end: &Link,
    ) -> Result<Reply, NoMemory>
        requires sound { IsSound self.old }
        requires pair { IsVethPair host_end.now inner_end.now }
        ensures ok { IfOk result (λ reply. (self.new, reply) ≡ veth_add_of self.old host_end.now inner_end.now) }
        ensures err { OnErr result (self.new ≡ self.old) }
    {
        if !self.has_named_ns(&inner_end.ns) {
            return Ok(Reply::NoNs);
        }
        if !self.master_is_bridge_or_none(&host_end.master) {
            return Ok(Reply::NoLink);
        }
        if let Some(tag) = self.taken_by(inner_end)? {
            return Ok(Reply::Taken(tag));
        }
        if let Some(tag) = self.taken_by(host_end)? {
            return Ok(Reply::Taken(tag));
        }
        self.push_ends(alloc, host_end, inner_end)?;
        Ok(Reply::Done)
    }

    /// Whether a link of the host that no attachment owns has this name.
    pub(super) fn has_free_master(&self, name: &Text) -> bool
        requires { IsSound self.now }
        ensures { result ≡ has_free_master self.now.links name.now }
    {
        match self.host_link(name) {
            Some(link) => !link.tag.is_owned(),
            None => false,
        }
    }

    fn has_master(&self, master: &Option<Text>) -> bool
        requires { IsSound self.now }
        ensures { result ≡ has_master self.now master.now }
    {
        match master {
            Some(name) => self.has_free_master(name),
            None => true,
        }
    }

    /// A link of an attachment over a link of the host that nobody owns, or over none.
    #[inline(never)]
    pub fn macvlan_add(&mut self, alloc: Global, link: &Link) -> Result<Reply, NoMemory>
        requires sound { IsSound self.old }
        ensures ok { IfOk result (λ reply. (self.new, reply) ≡ macvlan_add_of self.old link.now) }
        ensures err { OnErr result (self.new ≡ self.old) }
    {
        if !self.has_named_ns(&link.ns) {
            return Ok(Reply::NoNs);
        }
        if !self.has_master(&link.master) {
            return Ok(Reply::NoLink);
        }
        if let Some(tag) = self.taken_by(link)? {
            return Ok(Reply::Taken(tag));
        }
        self.links.push(alloc, link.copy()?)?;
        Ok(Reply::Done)
    }
}
