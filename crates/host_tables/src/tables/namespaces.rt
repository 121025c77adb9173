//! Namespaces that come, and that go with all that is in them.

ghost use Rattle.std.specs.Prelude.{◌≡◌, true, IfOk, IsOk, OnErr};
ghost use Rattle.kernel_types.specs.Apply.{apply};
ghost use Rattle.kernel_types.specs.Apply.Calls.{goes_with_ns, ns_add_of, ns_del_of, without_links};
ghost use Rattle.kernel_types.specs.Replies.{needs_no_memory};
ghost use Rattle.kernel_types.specs.Sound.{IsSound};
ghost use Rattle.kernel_types.specs.Terms.{has_named_ns};
ghost use Rattle.kernel_types.specs.declared.call.Call.TheVariants.{NsChange};

use super::Tables;
use cni_addr::{NoMemory, Text};
use kernel_types::{NsObj, Reply, Tag};
use std::alloc::Global;

impl Tables {
    /// Whether a namespace has this name.
    pub(super) fn has_named_ns(&self, name: &Text) -> bool
        ensures { result ≡ has_named_ns self.now name.now }
    {
        self.namespaces.find(name).is_some()
    }

    fn ns_add(&mut self, alloc: Global, name: &Text) -> Result<Reply, NoMemory>
        ensures ok { IfOk result (λ reply. (self.new, reply) ≡ ns_add_of self.old name.now) }
        ensures err { OnErr result (self.new ≡ self.old) }
    {
        if self.has_named_ns(name) {
            return Ok(Reply::Taken(Tag::Outside));
        }
        self.namespaces.push(alloc, NsObj::outside(name)?)?;
        Ok(Reply::Done)
    }

    /// Drops the links in a namespace, with their peers and what is on them.
    fn drop_links_in(&mut self, name: &Text)
        requires sound { IsSound self.old }
        requires named { has_named_ns self.old name.now ≡ true }
        ensures { self.new ≡ without_links (goes_with_ns name.now) self.old }
    {
        while let Some(link) = self.links.take_first_at(name) {
            self.drop_with(link);
        }
    }

    /// Takes away a namespace with all that is in it: its links one after the other, then its settings.
    fn ns_del(&mut self, name: &Text) -> Reply
        requires { IsSound self.old }
        ensures { (self.new, result) ≡ ns_del_of self.old name.now }
    {
        if !self.has_named_ns(name) {
            return Reply::NoNs;
        }
        self.drop_links_in(name);
        self.settings.remove_at(name);
        self.namespaces.take(name);
        Reply::Done
    }

    /// A namespace comes, or goes with all that is in it. To go takes no memory.
    #[inline(never)]
    pub fn ns_change(&mut self, alloc: Global, name: &Text, add: bool) -> Result<Reply, NoMemory>
        requires { IsSound self.old }
        ensures ok { IfOk result (λ reply. (self.new, reply) ≡ apply self.old (NsChange name.now add)) }
        ensures err { OnErr result (self.new ≡ self.old) }
        ensures frees { needs_no_memory (NsChange name.now add) ≡ true → IsOk result }
    {
        if add {
            self.ns_add(alloc, name)
        } else {
            Ok(self.ns_del(name))
        }
    }
}
