//! The request to a plugin, as a value.

ghost use Rattle.std.specs.Prelude.{◌≡◌, ◌+◌, ◌≤◌, codes, false, IfOk, OnOk};
ghost use Rattle.std.specs.Option.{option_copied};
ghost use Rattle.serde_json.specs.Data.{depth};
ghost use Rattle.serde_json.specs.Read.{max_depth};
ghost use Rattle.serde_json.specs.View.{view};
ghost use Rattle.serde_json.specs.Written.{has_float};
ghost use Rattle.cni_json.specs.Members.{list_data, members_of, put_if};
ghost use Rattle.cni_result.specs.Results.{result_data};
ghost use Rattle.plugin_requests.specs.Raw.{IsPluginObject};
ghost use Rattle.plugin_requests.specs.Request.{mappings_for, own_members, request_data, request_members};
ghost use Rattle.plugin_requests.specs.Request.{runtime_members, valid_data, valid_key};

use cni_addr::NoMemory;
use cni_json::{JsonObject, Value, members_where};
use cni_result::{AddResult, PortMapping, to_value};
use net_conf::{NetList, asks_for_mappings, is_runtime_key};
use pod_file::ValidAtt;
use std::alloc::Global;

fn own_members(alloc: Global, object: &Value) -> Result<JsonObject, NoMemory>
    ensures { IfOk result (λ own. members_of own ≡ own_members (view object.now)) }
{
    members_where(alloc, object, |key| !is_runtime_key(key))
}

fn valid_value(alloc: Global, att: &ValidAtt) -> Result<Value, NoMemory>
    ensures { IfOk result (λ v. view v ≡ valid_data att.now) }
{
    let mut object = JsonObject::new(alloc);
    object.put("containerID", &att.container)?;
    object.put("ifname", &att.ifname)?;
    Ok(object.into_value())
}

fn valid_values(alloc: Global, valid: &[ValidAtt]) -> Result<Value, NoMemory>
    ensures { IfOk result (λ v. view v ≡ list_data valid_data valid.now) }
{
    let mut values = Vec::with_capacity(alloc, valid.len())?;
    for att in valid {
        values.push(valid_value(alloc, att)?)?;
    }
    Ok(Value::Array(values))
}

fn put_valid(
    object: &mut JsonObject,
    alloc: Global,
    valid: Option<&[ValidAtt]>,
) -> Result<(), NoMemory>
    ensures { OnOk result (members_of object.new
        ≡ put_if (list_data valid_data) valid_key (option_copied valid.entry) (members_of object.old)) }
{
    match valid {
        Some(valid) => object.put_value("cni.dev/valid-attachments", valid_values(alloc, valid)?),
        None => Ok(()),
    }
}

fn put_prev(
    object: &mut JsonObject,
    alloc: Global,
    prev: Option<&AddResult>,
) -> Result<(), NoMemory>
    ensures { OnOk result (members_of object.new
        ≡ put_if result_data (codes "prevResult") (option_copied prev.entry) (members_of object.old)) }
{
    match prev {
        Some(prev) => object.put_value("prevResult", to_value(alloc, prev)?),
        None => Ok(()),
    }
}

/// What is under `runtimeConfig`.
fn runtime_config(
    alloc: Global,
    object: &Value,
    mappings: &[PortMapping],
) -> Result<JsonObject, NoMemory>
    ensures { IfOk result (λ o. members_of o ≡ runtime_members (mappings_for (view object.now) mappings.now)) }
{
    let mut config = JsonObject::new(alloc);
    if asks_for_mappings(object) {
        config.put_list_unless_empty("portMappings", mappings)?;
    }
    Ok(config)
}

#[tactic(auto, unfolding(crate::specs::Request::request_members))]
fn request_object(
    alloc: Global,
    list: &NetList,
    object: &Value,
    prev: Option<&AddResult>,
    mappings: &[PortMapping],
    valid: Option<&[ValidAtt]>,
) -> Result<JsonObject, NoMemory>
    ensures { IfOk result (λ o. members_of o ≡ request_members list.now (view object.now) (option_copied prev.entry)
        mappings.now (option_copied valid.entry)) }
{
    let mut request = own_members(alloc, object)?;
    put_valid(&mut request, alloc, valid)?;
    request.put("cniVersion", &list.version)?;
    request.put("name", &list.name)?;
    put_prev(&mut request, alloc, prev)?;
    request.put_object_unless_empty("runtimeConfig", runtime_config(alloc, object, mappings)?)?;
    Ok(request)
}

/// The request to the plugin of this list that the object configures. It takes time and memory in proportion to the
/// object and the parts that are given.
#[tactic(auto, using(crate::proofs::RequestLimits::request_is_whole, crate::proofs::RequestLimits::request_depth))]
pub fn request_to(
    alloc: Global,
    list: &NetList,
    object: &Value,
    prev: Option<&AddResult>,
    mappings: &[PortMapping],
    valid: Option<&[ValidAtt]>,
) -> Result<Value, NoMemory>
    requires { IsPluginObject (view object.now) }
    ensures json { IfOk result (λ v. view v ≡ request_data list.now (view object.now) (option_copied prev.entry)
        mappings.now (option_copied valid.entry)) }

    // What a line of it needs to be read again, also where the line has it in an object.
    ensures numbers { IfOk result (λ v. has_float (view v) ≡ false) }
    ensures nests { IfOk result (λ v. depth (view v) + 1 ≤ max_depth) }
{
    Ok(request_object(alloc, list, object, prev, mappings, valid)?.into_value())
}
