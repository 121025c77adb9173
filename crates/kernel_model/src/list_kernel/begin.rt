//! The first call of an attachment.

ghost use Rattle.std.specs.Prelude.{◌≡◌, IfOk};
ghost use Rattle.kernel_types.specs.Terms.{has_objects};
ghost use Rattle.kernel_types.specs.Apply.Calls.{begin_of};

use super::HostLists;
use crate::lists::any_own;
use crate::lookups::is_host_or_ns;
use cni_addr::{Duplicate, NoMemory, Text};
use kernel_types::{Att, Reply, Tag};

impl HostLists {
    /// Whether some object is the attachment's.
    fn has_objects(&self, att: &Att) -> bool
        ensures { result ≡ has_objects self.now att.now }
    {
        // by `|`, which has no branches, so that the proof has no case a list
        let links = any_own(&self.links, att);
        let addresses = any_own(&self.addresses, att);
        let routes = any_own(&self.routes, att);
        let rules = any_own(&self.rules, att);
        let settings = any_own(&self.settings, att);
        let leases = any_own(&self.leases, att);
        let cached = any_own(&self.cached, att);
        any_own(&self.namespaces, att)
            | links
            | addresses
            | routes
            | rules
            | settings
            | leases
            | cached
    }

    pub(crate) fn begin(&self, att: &Att, netns: &Text) -> Result<Reply, NoMemory>
        ensures { IfOk result (λ reply. (self.now, reply) ≡ begin_of self.now att.now netns.now) }
    {
        if !is_host_or_ns(&self.namespaces, netns) {
            return Ok(Reply::NoNs);
        }
        if self.has_objects(att) {
            return Ok(Reply::Taken(Tag::Own(att.copy()?)));
        }
        Ok(Reply::Done)
    }
}
