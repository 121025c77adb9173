//! What is done from outside.

ghost use Rattle.std.specs.Prelude.{◌≡◌, true, not, filter, IfOk, OnErr, IsOk};
ghost use Rattle.std.specs.Str.{bytes_eq};
ghost use Rattle.kernel_types.specs.Equal.{table_eq};
ghost use Rattle.kernel_types.specs.Apply.Calls.{ns_add_of, ns_del_of, drop_link_of, flush_of};
ghost use Rattle.kernel_types.specs.Apply.{apply};
ghost use Rattle.kernel_types.specs.Replies.{needs_no_memory};
ghost use Rattle.kernel_types.specs.declared.call.Call.TheVariants.{NsChange, Outside};

use super::HostLists;
use super::leaving::{AtPlace, InNamespace};
use crate::lookups::{has_ns_in, link_in};
use cni_addr::{NoMemory, RefCounted, Text};
use kernel_types::{Change, LinkKey, NsObj, Reply, Rule, Setting, Table, Tag};

fn drop_namespace(namespaces: &mut Vec<NsObj>, name: &Text)
    ensures { namespaces.new.items ≡ filter (λ n. not (bytes_eq n.name name.now)) namespaces.old.items }
{
    namespaces.retain(|n| n.name != *name);
}

fn drop_settings_in(settings: &mut Vec<Setting>, ns: &Text)
    ensures { settings.new.items ≡ filter (λ s. not (bytes_eq s.ns ns.now)) settings.old.items }
{
    settings.retain(|s| s.ns != *ns);
}

fn drop_rules_of(rules: &mut Vec<RefCounted<Rule>>, table: Table)
    ensures { rules.new.items ≡ filter (λ r. not (table_eq r.table table)) rules.old.items }
{
    rules.retain(|r| r.get().table != table);
}

impl HostLists {
    fn ns_add(&mut self, name: &Text) -> Result<Reply, NoMemory>
        ensures ok { IfOk result (λ reply. (self.new, reply) ≡ ns_add_of self.old name.now) }
        ensures err { OnErr result (self.new ≡ self.old) }
    {
        if has_ns_in(&self.namespaces, name) {
            return Ok(Reply::Taken(Tag::Outside));
        }
        self.namespaces.push(NsObj::outside(name)?)?;
        Ok(Reply::Done)
    }

    /// Takes away a namespace with all that is in it. Linear in the lists for each link that goes.
    fn ns_del(&mut self, name: &Text) -> Reply
        ensures { (self.new, result) ≡ ns_del_of self.old name.now }
    {
        if !has_ns_in(&self.namespaces, name) {
            return Reply::NoNs;
        }
        self.drop_leaving(&InNamespace { name });
        drop_namespace(&mut self.namespaces, name);
        drop_settings_in(&mut self.settings, name);
        Reply::Done
    }

    pub(crate) fn ns_change(&mut self, name: &Text, add: bool) -> Result<Reply, NoMemory>
        ensures ok { IfOk result (λ reply. (self.new, reply) ≡ apply self.old (NsChange name.now add)) }
        ensures err { OnErr result (self.new ≡ self.old) }
        ensures frees { needs_no_memory (NsChange name.now add) ≡ true → IsOk result }
    {
        if add {
            self.ns_add(name)
        } else {
            Ok(self.ns_del(name))
        }
    }

    fn drop_link(&mut self, key: &LinkKey) -> Reply
        ensures { (self.new, result) ≡ drop_link_of self.old key.now }
    {
        if !has_ns_in(&self.namespaces, &key.ns) {
            return Reply::NoNs;
        }
        match link_in(&self.links, &key.ns, &key.name) {
            Some(_) => {
                self.drop_leaving(&AtPlace {
                    ns: &key.ns,
                    name: &key.name,
                });
                Reply::Gone(true)
            }
            None => Reply::Gone(false),
        }
    }

    fn flush(&mut self, table: Table) -> Reply
        ensures { (self.new, result) ≡ flush_of self.old table }
    {
        drop_rules_of(&mut self.rules, table);
        Reply::Done
    }

    pub(crate) fn outside(&mut self, change: &Change) -> Reply
        ensures { (self.new, result) ≡ apply self.old (Outside change.now) }
    {
        match change {
            Change::DropLink(key) => self.drop_link(key),
            Change::Flush(table) => self.flush(*table),
        }
    }
}
