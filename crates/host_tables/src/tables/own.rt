//! Objects of one attachment.

ghost use Rattle.std.specs.Prelude.{◌≡◌, IfOk, OnErr};
ghost use Rattle.kernel_types.specs.Apply.Calls.{addr_add_of, has_link_of, route_add_of, rule_append_of};
ghost use Rattle.kernel_types.specs.Apply.Calls.{setting_set_of};
ghost use Rattle.kernel_types.specs.Sound.{IsSound};
ghost use Rattle.kernel_types.specs.Terms.{has_named_ns};

use super::Tables;
use cni_addr::{Duplicate, NoMemory, RefCounted, Text};
use kernel_types::{
    AddrKey, AddrObj, LinkKey, Reply, RouteKey, RouteObj, Rule, Setting, SettingKey, Tag,
};
use std::alloc::Global;

impl Tables {
    /// Whether a link of this tag stands at this place.
    fn has_link_of(&self, ns: &Text, name: &Text, tag: &Tag) -> Result<bool, NoMemory>
        requires sound { IsSound self.now }
        ensures { IfOk result (λ found. found ≡ has_link_of self.now ns.now name.now tag.now) }
    {
        let key = LinkKey {
            ns: ns.copy()?,
            name: name.copy()?,
        };
        match self.links.find(&key) {
            Some(link) => Ok(link.tag == *tag),
            None => Ok(false),
        }
    }

    /// An address on a link of the same owner.
    #[inline(never)]
    pub fn addr_add(&mut self, alloc: Global, obj: &AddrObj) -> Result<Reply, NoMemory>
        requires sound { IsSound self.old }
        ensures ok { IfOk result (λ reply. (self.new, reply) ≡ addr_add_of self.old obj.now) }
        ensures err { OnErr result (self.new ≡ self.old) }
    {
        if !self.has_link_of(&obj.ns, &obj.link, &obj.tag)? {
            return Ok(Reply::NoLink);
        }
        if let Some(other) = self.addresses.find(&AddrKey::of(obj)?) {
            return Ok(Reply::Taken(other.tag.copy()?));
        }
        self.addresses.push(alloc, obj.copy()?)?;
        Ok(Reply::Done)
    }

    /// A route over a link of the same owner.
    #[inline(never)]
    pub fn route_add(&mut self, alloc: Global, obj: &RouteObj) -> Result<Reply, NoMemory>
        requires sound { IsSound self.old }
        ensures ok { IfOk result (λ reply. (self.new, reply) ≡ route_add_of self.old obj.now) }
        ensures err { OnErr result (self.new ≡ self.old) }
    {
        if !self.has_link_of(&obj.ns, &obj.link, &obj.tag)? {
            return Ok(Reply::NoLink);
        }
        if let Some(other) = self.routes.find(&RouteKey::of(obj)?) {
            return Ok(Reply::Taken(other.tag.copy()?));
        }
        self.routes.push(alloc, obj.copy()?)?;
        Ok(Reply::Done)
    }

    /// A rule behind those of its table, where no equal one is there. It is shared with the caller.
    #[inline(never)]
    pub fn rule_append(&mut self, alloc: Global, rule: &RefCounted<Rule>) -> Result<Reply, NoMemory>
        ensures ok { IfOk result (λ reply. (self.new, reply) ≡ rule_append_of self.old rule.now) }
        ensures err { OnErr result (self.new ≡ self.old) }
    {
        if !self.rules.push_unless_there(alloc, rule.copy()?)? {
            return Ok(Reply::Taken(rule.get().tag.copy()?));
        }
        Ok(Reply::Done)
    }

    /// A setting in a namespace that is there, where nothing is set under its key.
    #[inline(never)]
    pub fn setting_set(&mut self, alloc: Global, setting: &Setting) -> Result<Reply, NoMemory>
        ensures ok { IfOk result (λ reply. (self.new, reply) ≡ setting_set_of self.old setting.now) }
        ensures err { OnErr result (self.new ≡ self.old) }
    {
        if !self.has_named_ns(&setting.ns) {
            return Ok(Reply::NoNs);
        }
        if let Some(other) = self.settings.find(&SettingKey::of(setting)?) {
            return Ok(Reply::Taken(other.tag.copy()?));
        }
        self.settings.push(alloc, setting.copy()?)?;
        Ok(Reply::Done)
    }
}
