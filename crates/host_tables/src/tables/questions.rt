//! Questions to the host, which change nothing.

ghost use Rattle.std.specs.Prelude.{◌≡◌, IfOk, OnErr};
ghost use Rattle.std.specs.List.{filter_map, list_any};
ghost use Rattle.cni_addr.specs.Lists.{each_key_once};
ghost use Rattle.kernel_types.specs.Equal.{att_eq, link_eq};
ghost use Rattle.kernel_types.specs.Sound.{IsSound};
ghost use Rattle.kernel_types.specs.Terms.{is_bridge_with, owner_in};
ghost use Rattle.kernel_types.specs.Apply.Calls.{has_free_master, has_object, has_obj_of, owners_of, tags_of};
ghost use Rattle.kernel_types.specs.declared.call.Probe.TheVariants.{Whole};

use super::Tables;
use cni_addr::{Items, Mac, NoMemory, Text};
use kernel_types::terms::is_host_ns;
use kernel_types::{Att, Kind, Link, Object, Probe, Reply, Tag};
use object_tables::Test;
use std::alloc::Global;

/// The links that are equal to one.
#[derive(Clone, Copy)]
struct EqualLink<'a> {
    link: &'a Link,
}

impl Test<Link> for EqualLink<'_> {
    ghost use Rattle.kernel_types.specs.Equal.{link_eq};

    ghost passes = { λ equal link. link_eq link equal.link.now };

    fn passes(&self, link: &Link) -> bool {
        link == self.link
    }
}

impl Tables {
    /// Whether an equal link is there: among those of its owner, or the one of its name in the host's own namespace, or
    /// among those of another namespace.
    fn has_link(&self, link: &Link) -> bool
        requires sound { IsSound self.now }
        ensures { result ≡ list_any (λ l. link_eq l link.now) self.now.links }
    {
        match &link.tag {
            Tag::Own(att) => self.links.any_owned(att, &EqualLink { link }),
            Tag::Outside | Tag::Base => self.has_unowned_link(link),
        }
    }

    fn has_unowned_link(&self, link: &Link) -> bool
        requires sound { IsSound self.now }
        ensures { result ≡ list_any (λ l. link_eq l link.now) self.now.links }
    {
        if is_host_ns(link.ns.as_str()) {
            match self.links.find_alias(&link.name) {
                Some(found) => found == link,
                None => false,
            }
        } else {
            self.links.any_at(&link.ns, &EqualLink { link })
        }
    }

    /// Whether an equal object is there.
    fn has_equal(&self, object: &Object) -> bool
        requires sound { IsSound self.now }
        ensures { result ≡ has_object self.now (Whole object.now) }
    {
        match object {
            Object::Link(link) => self.has_link(link.get()),
            Object::Address(address) => self.addresses.find_alias(address.get()).is_some(),
            Object::Route(route) => self.routes.find_alias(route.get()).is_some(),
            Object::Rule(rule) => self.rules.find(rule).is_some(),
            Object::Setting(setting) => self.settings.find_alias(setting.get()).is_some(),
            Object::Lease(lease) => self.leases.find(lease.get()).is_some(),
        }
    }

    /// Whether a bridge of the host has this name and hardware address.
    fn has_bridge_at(&self, name: &Text, mac: &Mac) -> bool
        requires sound { IsSound self.now }
        ensures { result ≡ list_any (is_bridge_with name.now mac.now) self.now.links }
    {
        match self.links.find_alias(name) {
            Some(link) => link.kind.is_bridge() && link.mac == *mac,
            None => false,
        }
    }

    fn has_object(&self, probe: &Probe) -> bool
        requires sound { IsSound self.now }
        ensures { result ≡ has_object self.now probe.now }
    {
        match probe {
            Probe::Whole(object) => self.has_equal(object),
            Probe::BridgeAt { name, mac } => self.has_bridge_at(name, mac),
            Probe::Master { name } => self.has_free_master(name),
        }
    }

    /// Whether what is asked about is there.
    #[inline(never)]
    pub fn has_obj(&self, probe: &Probe) -> Reply
        requires sound { IsSound self.now }
        ensures { (self.now, result) ≡ has_obj_of self.now probe.now }
    {
        Reply::Has(self.has_object(probe))
    }

    /// The attachments of a network that have objects of the kind.
    fn owners(&mut self, alloc: Global, network: &Text, kind: Kind) -> Result<Items<Att>, NoMemory>
        ensures ok { IfOk result (λ owners. owners
            ≡ each_key_once att_eq (filter_map (owner_in network.now) (tags_of self.old kind))) }
        ensures same { self.new ≡ self.old }
    {
        match kind {
            Kind::Links => self.links.owners(alloc, network),
            Kind::Rules => self.rules.owners(alloc, network),
            Kind::Settings => self.settings.owners(alloc, network),
            Kind::Leases => self.leases.owners(alloc, network),
            Kind::Cached => self.cached.owners(alloc, network),
        }
    }

    /// The attachments of a network that have objects of a kind, each once.
    #[inline(never)]
    pub fn owners_of(
        &mut self,
        alloc: Global,
        network: &Text,
        kind: Kind,
    ) -> Result<Reply, NoMemory>
        ensures ok { IfOk result (λ reply. (self.new, reply) ≡ owners_of self.old network.now kind) }
        ensures err { OnErr result (self.new ≡ self.old) }
    {
        let owners = self.owners(alloc, network, kind)?;
        Ok(Reply::Owners(owners))
    }
}
