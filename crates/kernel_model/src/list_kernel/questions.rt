//! Questions to the host, which change nothing.

ghost use Rattle.std.specs.Prelude.{◌≡◌, IfOk};
ghost use Rattle.std.specs.List.{list_any};
ghost use Rattle.kernel_types.specs.Terms.{is_bridge_with};
ghost use Rattle.kernel_types.specs.Apply.Calls.{has_object, has_obj_of, owners_of};
ghost use Rattle.kernel_types.specs.declared.call.Probe.TheVariants.{Whole};

use super::HostLists;
use crate::compared::contains;
use crate::lookups::{has_free_master, is_host_bridge};
use crate::owners::owners_among;
use cni_addr::{Mac, NoMemory, Text};
use kernel_types::{Kind, Link, Object, Probe, Reply};
use std::alloc::Global;

/// Whether a bridge of the host has this name and hardware address.
fn has_bridge_at(links: &[Link], name: &Text, mac: &Mac) -> bool
    ensures { result ≡ list_any (is_bridge_with name.now mac.now) links.now }
{
    links
        .iter()
        .any(|l| is_host_bridge(name, l) && l.mac == *mac)
}

impl HostLists {
    /// Whether an equal object is there.
    fn has_equal(&self, object: &Object) -> bool
        ensures { result ≡ has_object self.now (Whole object.now) }
    {
        match object {
            Object::Link(link) => contains(&self.links, link.get()),
            Object::Address(address) => contains(&self.addresses, address.get()),
            Object::Route(route) => contains(&self.routes, route.get()),
            Object::Rule(rule) => contains(&self.rules, rule),
            Object::Setting(setting) => contains(&self.settings, setting.get()),
            Object::Lease(lease) => contains(&self.leases, lease.get()),
        }
    }

    fn has_object(&self, probe: &Probe) -> bool
        ensures { result ≡ has_object self.now probe.now }
    {
        match probe {
            Probe::Whole(object) => self.has_equal(object),
            Probe::BridgeAt { name, mac } => has_bridge_at(&self.links, name, mac),
            Probe::Master { name } => has_free_master(&self.links, name),
        }
    }

    pub(crate) fn has_obj(&self, probe: &Probe) -> Reply
        ensures { (self.now, result) ≡ has_obj_of self.now probe.now }
    {
        Reply::Has(self.has_object(probe))
    }

    pub(crate) fn owners_of(
        &self,
        alloc: Global,
        network: &Text,
        kind: Kind,
    ) -> Result<Reply, NoMemory>
        ensures { IfOk result (λ reply. (self.now, reply) ≡ owners_of self.now network.now kind) }
    {
        let owners = match kind {
            Kind::Links => owners_among(alloc, &self.links, network)?,
            Kind::Rules => owners_among(alloc, &self.rules, network)?,
            Kind::Settings => owners_among(alloc, &self.settings, network)?,
            Kind::Leases => owners_among(alloc, &self.leases, network)?,
            Kind::Cached => owners_among(alloc, &self.cached, network)?,
        };
        Ok(Reply::Owners(owners))
    }
}
