//! The `ipam` of a plugin's object.

ghost use Rattle.std.specs.Prelude.{◌≡◌, false};
ghost use Rattle.serde_json.specs.View.{view, members_view};
ghost use Rattle.serde_json.specs.Written.{has_float};
ghost use Rattle.cni_json.specs.Outcome.{Gives};
ghost use Rattle.net_conf.specs.Ipam as defined;
ghost use Rattle.net_conf.specs.Refusals.{is_out_of_memory};

use crate::accepted::{Accepted, supported};
use crate::error::{ConfError, invalid, unsupported};
use crate::first::HostLocalConf;
use crate::routes::routes;
use crate::sets::sets;
use cni_json::{Map, Value, member, need_object};
use cni_result::{Dns, read_dns};
use std::alloc::Global;

/// How the interface that a plugin makes gets its addresses, and how names are resolved behind it.
#[derive(Drop)]
pub struct Addressing {
    pub dns: Dns,
    pub ipam: Option<HostLocalConf>,
}

/// The `dns` and the `ipam` of a plugin's object.
#[tactic(auto, using(cni_json::proofs::Steps::steps), unfolding(crate::specs::Ipam::addressing_at))]
pub fn addressing_of(alloc: Global, plugin: &Value) -> Result<Addressing, ConfError>
    requires { has_float (view plugin.now) ≡ false }
    ensures { Gives is_out_of_memory result (defined.addressing_at (view plugin.now)) }
{
    let dns = read_dns(alloc, plugin, || invalid(alloc, "dns"))?;
    let ipam = ipam(alloc, plugin)?;
    Ok(Addressing { dns, ipam })
}

/// The configuration of address management of a plugin's object, None where `ipam` is absent too.
#[tactic(auto, using(cni_json::proofs::Steps::steps, cni_json::proofs::WholeNumbers::parts_are_whole), unfolding(crate::specs::Ipam::ipam_at))]
fn ipam(alloc: Global, plugin: &Value) -> Result<Option<HostLocalConf>, ConfError>
    requires { has_float (view plugin.now) ≡ false }
    ensures { Gives is_out_of_memory result (defined.ipam_at (view plugin.now)) }
{
    match member(plugin, "ipam") {
        None => Ok(None),
        Some(value) => read_ipam(alloc, value),
    }
}

/// The configuration of address management that the value of an `ipam` is, None where it is to give no address: it is
/// null, or an object whose members, if it has any, are null.
#[tactic(auto, using(cni_json::proofs::Steps::steps), unfolding(crate::specs::Ipam::read_ipam_at))]
pub fn read_ipam(alloc: Global, value: &Value) -> Result<Option<HostLocalConf>, ConfError>
    requires { has_float (view value.now) ≡ false }
    ensures { Gives is_out_of_memory result (defined.read_ipam_at (view value.now)) }
{
    if is_empty(value) {
        return Ok(None);
    }
    let conf = host_local(alloc, value)?;
    Ok(Some(conf))
}

fn is_empty(value: &Value) -> bool
    ensures { result ≡ defined.is_empty (view value.now) }
{
    match value {
        Value::Null => true,
        Value::Object(members) => all_null(members),
        _ => false,
    }
}

fn all_null(members: &Map<String, Value>) -> bool
    ensures { result ≡ defined.all_null (members_view members.now.entries) }
{
    for (_, member) in members.iter() {
        if !member.is_null() {
            return false;
        }
    }
    true
}

#[tactic(auto, using(cni_json::proofs::Steps::steps), unfolding(crate::specs::Ipam::host_local_at))]
fn host_local(alloc: Global, object: &Value) -> Result<HostLocalConf, ConfError>
    requires { has_float (view object.now) ≡ false }
    ensures { Gives is_out_of_memory result (defined.host_local_at (view object.now)) }
{
    need_object(object, || invalid(alloc, "ipam"))?;
    manager(alloc, object)?;
    supported(alloc, object, "resolvConf", Accepted::EmptyText)?;
    let sets = sets(alloc, object)?;
    let routes = routes(alloc, object)?;
    Ok(HostLocalConf { sets, routes })
}

#[tactic(auto, using(cni_json::proofs::Steps::steps, cni_json::proofs::WholeNumbers::parts_are_whole), unfolding(crate::specs::Ipam::manager_at))]
fn manager(alloc: Global, object: &Value) -> Result<(), ConfError>
    requires { has_float (view object.now) ≡ false }
    ensures { Gives is_out_of_memory result (defined.manager_at (view object.now)) }
{
    match object.get("type") {
        Some(Value::String(text)) if text.as_str() == "host-local" => Ok(()),
        Some(value) if value.is_string() => Err(unsupported(alloc, "type", value)),
        _ => Err(invalid(alloc, "ipam")),
    }
}
