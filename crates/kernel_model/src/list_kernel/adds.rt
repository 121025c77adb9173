//! Objects of one attachment.

ghost use Rattle.std.specs.Prelude.{◌≡◌, List, [], ◌∷◌, ◌++◌, IfOk, OnErr, find};
ghost use Rattle.std.specs.Option.{option_copied};
ghost use Rattle.kernel_types.specs.Apply.Calls.{append_unless_taken, veth_add_of, master_is_bridge_or_none};
ghost use Rattle.kernel_types.specs.Apply.Calls.{macvlan_add_of, has_master, addr_add_of, route_add_of, rule_append_of};
ghost use Rattle.kernel_types.specs.Apply.Calls.{setting_set_of};
ghost use Rattle.kernel_types.specs.Keys.{is_same_addr, is_same_route, is_same_setting};
ghost use Rattle.kernel_types.specs.declared.object.Host.{Host};

use super::HostLists;
use crate::compared::contains;
use crate::lists::push_both;
use crate::lookups::{copy_tag, has_bridge_in, has_free_master, has_link_in, has_ns_in, link_in};
use cni_addr::{Duplicate, NoMemory, RefCounted, Text};
use kernel_types::terms::{is_same_addr, is_same_route, is_same_setting};
use kernel_types::{AddrObj, Link, Reply, RouteObj, Rule, Setting, Tag};

/// The same address on the same link.
fn same_addr<'a>(addresses: &'a [AddrObj], obj: &AddrObj) -> Option<&'a AddrObj>
    ensures { option_copied result ≡ find (is_same_addr obj.now) addresses.now }
{
    addresses.iter().find(|a| is_same_addr(obj, a))
}

/// The route of the same place, destination and link.
fn same_route<'a>(routes: &'a [RouteObj], obj: &RouteObj) -> Option<&'a RouteObj>
    ensures { option_copied result ≡ find (is_same_route obj.now) routes.now }
{
    routes.iter().find(|r| is_same_route(obj, r))
}

/// The setting of the same place and key.
fn same_setting<'a>(settings: &'a [Setting], obj: &Setting) -> Option<&'a Setting>
    ensures { option_copied result ≡ find (is_same_setting obj.now) settings.now }
{
    settings.iter().find(|s| is_same_setting(obj, s))
}

/// Puts a copy of the object at the end, unless one of this tag stands in the way. A host with the list in its place
/// is then as the call's equation says.
fn append_unless_taken<T: Duplicate + Drop>(
    objects: &mut Vec<T>,
    taken: Option<Tag>,
    object: &T,
) -> Result<Reply, NoMemory>
    ensures ok { IfOk result (λ reply. (put : List T → Host) → (put objects.new.items, reply)
        ≡ append_unless_taken taken (put objects.old.items) (put (objects.old.items ++ object.now ∷ []))) }
    ensures err { OnErr result (objects.new.items ≡ objects.old.items) }
{
    if let Some(tag) = taken {
        return Ok(Reply::Taken(tag));
    }
    objects.push(object.copy()?)?;
    Ok(Reply::Done)
}

impl HostLists {
    fn master_is_bridge_or_none(&self, master: &Option<Text>) -> bool
        ensures { result ≡ master_is_bridge_or_none self.now master.now }
    {
        match master {
            Some(name) => has_bridge_in(&self.links, name),
            None => true,
        }
    }

    pub(crate) fn veth_add(&mut self, host_end: &Link, inner_end: &Link) -> Result<Reply, NoMemory>
        ensures ok { IfOk result (λ reply. (self.new, reply) ≡ veth_add_of self.old host_end.now inner_end.now) }
        ensures err { OnErr result (self.new ≡ self.old) }
    {
        if !has_ns_in(&self.namespaces, &inner_end.ns) {
            return Ok(Reply::NoNs);
        }
        if !self.master_is_bridge_or_none(&host_end.master) {
            return Ok(Reply::NoLink);
        }
        if let Some(tag) = copy_tag(link_in(&self.links, &inner_end.ns, &inner_end.name))? {
            return Ok(Reply::Taken(tag));
        }
        if let Some(tag) = copy_tag(link_in(&self.links, &host_end.ns, &host_end.name))? {
            return Ok(Reply::Taken(tag));
        }
        let first = host_end.copy()?;
        let second = inner_end.copy()?;
        push_both(&mut self.links, first, second)?;
        Ok(Reply::Done)
    }

    fn has_master(&self, master: &Option<Text>) -> bool
        ensures { result ≡ has_master self.now master.now }
    {
        match master {
            Some(name) => has_free_master(&self.links, name),
            None => true,
        }
    }

    pub(crate) fn macvlan_add(&mut self, link: &Link) -> Result<Reply, NoMemory>
        ensures ok { IfOk result (λ reply. (self.new, reply) ≡ macvlan_add_of self.old link.now) }
        ensures err { OnErr result (self.new ≡ self.old) }
    {
        if !has_ns_in(&self.namespaces, &link.ns) {
            return Ok(Reply::NoNs);
        }
        if !self.has_master(&link.master) {
            return Ok(Reply::NoLink);
        }
        let taken = copy_tag(link_in(&self.links, &link.ns, &link.name))?;
        append_unless_taken(&mut self.links, taken, link)
    }

    pub(crate) fn addr_add(&mut self, obj: &AddrObj) -> Result<Reply, NoMemory>
        ensures ok { IfOk result (λ reply. (self.new, reply) ≡ addr_add_of self.old obj.now) }
        ensures err { OnErr result (self.new ≡ self.old) }
    {
        if !has_link_in(&self.links, &obj.ns, &obj.link, &obj.tag) {
            return Ok(Reply::NoLink);
        }
        let taken = copy_tag(same_addr(&self.addresses, obj))?;
        append_unless_taken(&mut self.addresses, taken, obj)
    }

    pub(crate) fn route_add(&mut self, obj: &RouteObj) -> Result<Reply, NoMemory>
        ensures ok { IfOk result (λ reply. (self.new, reply) ≡ route_add_of self.old obj.now) }
        ensures err { OnErr result (self.new ≡ self.old) }
    {
        if !has_link_in(&self.links, &obj.ns, &obj.link, &obj.tag) {
            return Ok(Reply::NoLink);
        }
        let taken = copy_tag(same_route(&self.routes, obj))?;
        append_unless_taken(&mut self.routes, taken, obj)
    }

    pub(crate) fn rule_append(&mut self, rule: &RefCounted<Rule>) -> Result<Reply, NoMemory>
        ensures ok { IfOk result (λ reply. (self.new, reply) ≡ rule_append_of self.old rule.now) }
        ensures err { OnErr result (self.new ≡ self.old) }
    {
        if contains(&self.rules, rule) {
            return Ok(Reply::Taken(rule.get().tag.copy()?));
        }
        self.rules.push(rule.copy()?)?;
        Ok(Reply::Done)
    }

    pub(crate) fn setting_set(&mut self, setting: &Setting) -> Result<Reply, NoMemory>
        ensures ok { IfOk result (λ reply. (self.new, reply) ≡ setting_set_of self.old setting.now) }
        ensures err { OnErr result (self.new ≡ self.old) }
    {
        if !has_ns_in(&self.namespaces, &setting.ns) {
            return Ok(Reply::NoNs);
        }
        let taken = copy_tag(same_setting(&self.settings, setting))?;
        append_unless_taken(&mut self.settings, taken, setting)
    }
}
