//! A network list that keeps the objects of its plugins.

ghost use Rattle.std.specs.Prelude.{◌≡◌, ◌<◌, All, IfOk, length, map, option_map};
ghost use Rattle.serde_json.specs.Find.{get};
ghost use Rattle.serde_json.specs.View.{view, items_view};
ghost use Rattle.cni_json.specs.Outcome.{Gives};
ghost use Rattle.plugin_requests.specs.Raw.{IsPluginObject, IsRaw, raw_of};
ghost use Rattle.plugin_requests.specs.Request.{object_at};
ghost use Rattle.net_conf.specs.Plugins.{plugins_at};
ghost use Rattle.net_conf.specs.Refusals.{is_out_of_memory};

use cni_addr::RefCounted;
use cni_json::Value;
use net_conf::{ConfError, NetList, decode, network_list, network_list_laws};
use std::alloc::Global;
use std::marker::Model;

/// A network list and the objects that its plugins were read of, which requests are made of. An object is as it was
/// read: of two members with one key it has the last, and its keys ascend.
#[derive(Drop)]
pub struct RawList {
    list: RefCounted<NetList>,
    objects: Vec<Value>,
}

impl Model for RawList {
    ghost use Rattle.std.specs.Prelude.{map};
    ghost use Rattle.std.specs.Coded.{codes};
    ghost use Rattle.serde_json.specs.View as json;
    ghost use Rattle.plugin_requests.specs.DataCode.{data_code};
    ghost use Rattle.plugin_requests.specs.Raw.{IsRaw, RawView};

    ghost Value = { RawView };

    ghost coded = { Prim.hlevel (codes, data_code) };

    ghost view = { λ r. record { list = r.list; objects = map json.view r.objects.items } };

    ghost invariant = { λ r. IsRaw (record { list = r.list; objects = map json.view r.objects.items }) };
}

impl RawList {
    /// The network list that the bytes spell, or its first refusal, as [`net_conf::read_list`] has both. It takes as
    /// long, and keeps of the bytes what the objects of the plugins have, which are moved and not copied.
    #[tactic(auto, using(cni_json::proofs::Steps::steps), unfolding(crate::specs::Raw::raw_of, crate::specs::Raw::raw_at))]
    pub fn read(alloc: Global, bytes: &[u8]) -> Result<RawList, ConfError>
        ensures { Gives is_out_of_memory result (raw_of bytes.now) }
    {
        let top = decode(alloc, bytes)?;
        let list = network_list(alloc, &top)?;
        network_list_laws();
        Ok(RawList {
            list: RefCounted::of(alloc, list)?,
            objects: objects_out_of(alloc, top),
        })
    }

    /// The list.
    pub fn list(&self) -> &RefCounted<NetList>
        ensures { result.now ≡ self.now.list }
    {
        &self.list
    }

    /// The plugins' objects, in order.
    pub fn objects(&self) -> &[Value]
        ensures all { map view result.now ≡ self.now.objects }
        ensures kept { All (λ v. IsPluginObject (view v)) result.now }
    {
        self.objects.as_slice()
    }

    /// The object of the plugin in this place, from 0.
    pub fn object(&self, k: u32) -> &Value
        requires { k < length self.now.objects }
        ensures is { view result.now ≡ object_at self.now k }
        ensures kept { IsPluginObject (view result.now) }
    {
        &self.objects()[k as usize]
    }

    /// Every raw list is one. The call does nothing.
    pub fn is_raw(&self)
        ensures { IsRaw self.now }
    {
        let _raw = &self.list;
    }
}

/// The objects of the plugins, taken out of the list's value.
#[tactic(auto, unfolding(net_conf::specs::Plugins::plugins_at))]
fn objects_out_of(alloc: Global, top: Value) -> Vec<Value>
    ensures { IfOk (plugins_at (view top)) (λ plugins. items_view result.items ≡ plugins) }
{
    match member_out_of(top, "plugins") {
        Some(Value::Array(objects)) => objects,
        _ => Vec::new(alloc),
    }
}

/// The member under the key, taken out of the object.
fn member_out_of(object: Value, key: &str) -> Option<Value>
    ensures { option_map view result ≡ get key.now (view object) }
{
    match object {
        Value::Object(mut members) => members.remove(key),
        _ => None,
    }
}
