//! Namespaces and links as lines of the dump.

ghost use Rattle.std.specs.Prelude.{◌≡◌, IfOk, OnOk};
ghost use Rattle.serde_json.specs.View.{view};
ghost use Rattle.cni_json.specs.Members.{members_of};
ghost use Rattle.kernel_text.specs.Dump.{namespace_data, link_key_data, link_data, put_identity, put_attributes};
ghost use Rattle.kernel_text.specs.Dump.{put_relations};

use crate::dump::Dumped;
use crate::tags::put_tag;
use crate::texts::{link_mode, vlan_id};
use cni_addr::{NoMemory, mode_text};
use cni_json::JsonObject;
use kernel_types::{Link, LinkKey, NsObj, link_kind_text};
use serde_json::Value;
use std::alloc::Global;

impl Dumped for NsObj {
    ghost shown = { namespace_data };

    #[tactic(auto, unfolding(crate::specs::Dump::namespace_data))]
    fn dump_value(&self, alloc: Global) -> Result<Value, NoMemory> {
        let mut object = JsonObject::new(alloc);
        object.put_text("kind", "namespace")?;
        object.put("name", &self.name)?;
        put_tag(&mut object, alloc, &self.tag)?;
        Ok(object.into_value())
    }
}

#[tactic(auto, unfolding(crate::specs::Dump::link_key_data))]
fn key_value(alloc: Global, key: &LinkKey) -> Result<Value, NoMemory>
    ensures { IfOk result (λ v. view v ≡ link_key_data key.now) }
{
    let mut object = JsonObject::new(alloc);
    object.put("name", &key.name)?;
    object.put("ns", &key.ns)?;
    Ok(object.into_value())
}

// Each of these puts several members. Where memory is refused those before stay, and the callers drop the object.

#[tactic(auto, unfolding(crate::specs::Dump::put_identity))]
fn put_identity(object: &mut JsonObject, alloc: Global, link: &Link) -> Result<(), NoMemory>
    ensures { OnOk result (members_of object.new ≡ put_identity link.now (members_of object.old)) }
{
    object.put_text("kind", "link")?;
    object.put_text("link", link_kind_text(link.kind))?;
    object.put("name", &link.name)?;
    object.put("ns", &link.ns)?;
    put_tag(object, alloc, &link.tag)
}

#[tactic(auto, unfolding(crate::specs::Dump::put_attributes))]
fn put_attributes(object: &mut JsonObject, link: &Link) -> Result<(), NoMemory>
    ensures { OnOk result (members_of object.new ≡ put_attributes link.now (members_of object.old)) }
{
    object.put("allmulti", &link.allmulti)?;
    object.put("hairpin", &link.hairpin)?;
    object.put("mac", &link.mac)?;
    object.put("mtu", &link.mtu)?;
    object.put("promisc", &link.promisc)?;
    object.put("txqlen", &link.tx_qlen)
}

#[tactic(auto, unfolding(crate::specs::Dump::put_relations))]
fn put_relations(object: &mut JsonObject, alloc: Global, link: &Link) -> Result<(), NoMemory>
    ensures { OnOk result (members_of object.new ≡ put_relations link.now (members_of object.old)) }
{
    object.put_if("master", &link.master)?;
    if let Some(mode) = link_mode(link.kind) {
        object.put_text("mode", mode_text(mode))?;
    }
    if let Some(peer) = &link.peer {
        object.put_value("peer", key_value(alloc, peer)?)?;
    }
    object.put_if("vlan", &vlan_id(link.kind))
}

impl Dumped for Link {
    ghost shown = { link_data };

    #[tactic(auto, unfolding(crate::specs::Dump::link_data))]
    fn dump_value(&self, alloc: Global) -> Result<Value, NoMemory> {
        let mut object = JsonObject::new(alloc);
        put_identity(&mut object, alloc, self)?;
        put_attributes(&mut object, self)?;
        put_relations(&mut object, alloc, self)?;
        Ok(object.into_value())
    }
}
