//! Rules and settings as lines of the dump.

ghost use Rattle.std.specs.Prelude.{◌≡◌, OnOk};
ghost use Rattle.cni_json.specs.Members.{members_of};
ghost use Rattle.kernel_text.specs.Dump.{rule_data, put_match, put_chain, setting_data};

use crate::dump::Dumped;
use crate::tags::put_tag;
use crate::texts::{chain_text, target_text};
use cni_addr::{NoMemory, RefCounted};
use cni_json::JsonObject;
use kernel_types::{Rule, Setting, table_text};
use serde_json::Value;
use std::alloc::Global;

// Each of these puts several members. Where memory is refused those before stay, and the callers drop the object.

#[tactic(auto, unfolding(crate::specs::Dump::put_match))]
fn put_match(object: &mut JsonObject, rule: &Rule) -> Result<(), NoMemory>
    ensures { OnOk result (members_of object.new ≡ put_match rule.now (members_of object.old)) }
{
    object.put_if("dport", &rule.dport)?;
    object.put_if("dst", &rule.dst)?;
    object.put_if_true("established", rule.established)?;
    object.put_if_true("not_dst", rule.not_dst)?;
    object.put_if("protocol", &rule.protocol)?;
    object.put_if("src", &rule.src)
}

#[tactic(auto, unfolding(crate::specs::Dump::put_chain))]
fn put_chain(object: &mut JsonObject, alloc: Global, rule: &Rule) -> Result<(), NoMemory>
    ensures { OnOk result (members_of object.new ≡ put_chain rule.now (members_of object.old)) }
{
    object.put_text("kind", "rule")?;
    object.put_text("chain", chain_text(rule.chain))?;
    object.put_text("table", table_text(rule.table))?;
    put_tag(object, alloc, &rule.tag)?;
    object.put("target", &target_text(alloc, &rule.target)?)
}

impl Dumped for RefCounted<Rule> {
    ghost shown = { rule_data };

    #[tactic(auto, unfolding(crate::specs::Dump::rule_data))]
    fn dump_value(&self, alloc: Global) -> Result<Value, NoMemory> {
        let mut object = JsonObject::new(alloc);
        put_chain(&mut object, alloc, self.get())?;
        put_match(&mut object, self.get())?;
        Ok(object.into_value())
    }
}

impl Dumped for Setting {
    ghost shown = { setting_data };

    #[tactic(auto, unfolding(crate::specs::Dump::setting_data))]
    fn dump_value(&self, alloc: Global) -> Result<Value, NoMemory> {
        let mut object = JsonObject::new(alloc);
        object.put_text("kind", "setting")?;
        object.put("key", &self.key)?;
        object.put("ns", &self.ns)?;
        put_tag(&mut object, alloc, &self.tag)?;
        object.put("value", &self.value)?;
        Ok(object.into_value())
    }
}
