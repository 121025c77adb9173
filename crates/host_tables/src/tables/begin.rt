//! The first call of an attachment.

ghost use Rattle.std.specs.Prelude.{◌≡◌, IfOk, OnErr};
ghost use Rattle.kernel_types.specs.Terms.{has_objects, is_host_or_ns};
ghost use Rattle.kernel_types.specs.Apply.Calls.{begin_of};

use super::Tables;
use cni_addr::{Duplicate, NoMemory, Text};
use kernel_types::terms::is_host_ns;
use kernel_types::{Att, Reply, Tag};

impl Tables {
    /// Whether this is the host's own namespace, which is always there, or a namespace has this name.
    pub(super) fn is_host_or_ns(&self, ns: &Text) -> bool
        ensures { result ≡ is_host_or_ns self.now.namespaces ns.now }
    {
        is_host_ns(ns.as_str()) || self.namespaces.find(ns).is_some()
    }

    /// Whether some object is the attachment's.
    fn has_objects(&mut self, att: &Att) -> bool
        ensures found { result ≡ has_objects self.old att.now }
        ensures same { self.new ≡ self.old }
    {
        let links = self.links.has_owned(att);
        let addresses = self.addresses.has_owned(att);
        let routes = self.routes.has_owned(att);
        let rules = self.rules.has_owned(att);
        let settings = self.settings.has_owned(att);
        let leases = self.leases.has_owned(att);
        let cached = self.cached.has_owned(att);
        self.namespaces.has_owned(att)
            | links
            | addresses
            | routes
            | rules
            | settings
            | leases
            | cached
    }

    /// Looks whether the namespace is there, and whether nothing is the attachment's yet.
    #[inline(never)]
    pub fn begin(&mut self, att: &Att, netns: &Text) -> Result<Reply, NoMemory>
        ensures ok { IfOk result (λ reply. (self.new, reply) ≡ begin_of self.old att.now netns.now) }
        ensures err { OnErr result (self.new ≡ self.old) }
    {
        if !self.is_host_or_ns(netns) {
            return Ok(Reply::NoNs);
        }
        if self.has_objects(att) {
            return Ok(Reply::Taken(Tag::Own(att.copy()?)));
        }
        Ok(Reply::Done)
    }
}
