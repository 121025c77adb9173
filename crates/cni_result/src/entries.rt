//! Interfaces, addresses and routes of a result that is read.

ghost use Rattle.std.specs.Prelude.{Result};
ghost use Rattle.serde_json.specs.Data.{Data};
ghost use Rattle.serde_json.specs.View.{view};
ghost use Rattle.cni_json.specs.Outcome.{Gives};
ghost use Rattle.cni_json.specs.Readers.{IsReader};
ghost use Rattle.cni_result.specs.Fields.{list_at};
ghost use Rattle.cni_result.specs.Reading.{mtu_if_at, interface_at, interfaces_at, ip_version_at, ip_at, ips_at};
ghost use Rattle.cni_result.specs.Reading.{route_at, routes_at};
ghost use Rattle.cni_result.specs.Refusals.{is_out_of_memory};
ghost use Rattle.cni_result.specs.Versions.{ip_version_before_1_0};
ghost use Rattle.cni_result.specs.declared.refusal.ResultError.{ResultError};

use crate::fields::{addr_if, cidr, mac_if, number_if, text, text_if};
use crate::refusal::{ResultError, invalid};
use crate::result::{Interface, IpEntry, RouteEntry};
use crate::version::{Version, ip_version_before_1_0};
use cni_addr::{Family, Items};
use cni_json::{Field, Value, field_str, read_list_or};
use std::alloc::Global;

/// The list under this key, each entry as the function reads it; it is empty where it is absent.
#[tactic(auto, using(cni_json::proofs::Steps::steps), unfolding(crate::specs::Fields::list_at))]
fn list<T: Drop, R: Fn(&Value) -> Result<T, ResultError>>(
    alloc: Global,
    top: &Value,
    key: &str,
    read: R,
) -> Result<Items<T>, ResultError>
    requires { R.IsAlwaysCallable read }
    ensures { (wanted : Data → Result T ResultError) → IsReader is_out_of_memory R.Fn read wanted
        → Gives is_out_of_memory result (list_at key.now wanted (view top.now)) }
{
    read_list_or(alloc, top, key, || invalid(alloc, key), read)
}

/// The interfaces, none where there is no list of them.
#[tactic(auto, using(cni_json::proofs::Steps::steps), unfolding(crate::specs::Reading::interfaces_at))]
pub(crate) fn interfaces(
    alloc: Global,
    version: Version,
    top: &Value,
) -> Result<Items<Interface>, ResultError>
    ensures { Gives is_out_of_memory result (interfaces_at version (view top.now)) }
{
    list(
        alloc,
        top,
        "interfaces",
        |entry| interface(alloc, version, entry),
    )
}

#[tactic(auto, using(cni_json::proofs::Steps::steps), unfolding(crate::specs::Reading::interface_at))]
fn interface(alloc: Global, version: Version, entry: &Value) -> Result<Interface, ResultError>
    ensures { Gives is_out_of_memory result (interface_at version (view entry.now)) }
{
    let name = text(alloc, entry, "name", "interfaces")?;
    let mac = mac_if(alloc, entry, "mac", "interfaces")?;
    let mtu = mtu_if(alloc, version, entry)?;
    let sandbox = text_if(alloc, entry, "sandbox", "interfaces")?;
    Ok(Interface {
        name,
        mac,
        mtu,
        sandbox,
    })
}

fn mtu_if(alloc: Global, version: Version, entry: &Value) -> Result<Option<u32>, ResultError>
    ensures { Gives is_out_of_memory result (mtu_if_at version (view entry.now)) }
{
    if version.is_before_1_1() {
        Ok(None)
    } else {
        number_if(alloc, entry, "mtu", "interfaces")
    }
}

/// The addresses, none where there is no list of them.
#[tactic(auto, using(cni_json::proofs::Steps::steps), unfolding(crate::specs::Reading::ips_at))]
pub(crate) fn ips(
    alloc: Global,
    version: Version,
    top: &Value,
) -> Result<Items<IpEntry>, ResultError>
    ensures { Gives is_out_of_memory result (ips_at version (view top.now)) }
{
    list(alloc, top, "ips", |entry| ip(alloc, version, entry))
}

#[tactic(auto, using(cni_json::proofs::Steps::steps), unfolding(crate::specs::Reading::ip_at))]
fn ip(alloc: Global, version: Version, entry: &Value) -> Result<IpEntry, ResultError>
    ensures { Gives is_out_of_memory result (ip_at version (view entry.now)) }
{
    let address = cidr(alloc, entry, "address", "ips")?;
    let gateway = addr_if(alloc, entry, "gateway", "ips")?;
    let interface = number_if(alloc, entry, "interface", "ips")?;
    ip_version(alloc, version, address.addr.family, entry)?;
    Ok(IpEntry {
        address,
        gateway,
        interface,
    })
}

/// Refuses another IP version than that of the family, if the version of the result tells one.
#[tactic(auto, using(cni_json::proofs::Steps::steps))]
fn ip_version(
    alloc: Global,
    version: Version,
    family: Family,
    entry: &Value,
) -> Result<(), ResultError>
    ensures { Gives is_out_of_memory result
        (ip_version_at (ip_version_before_1_0 version family) (view entry.now)) }
{
    let Some(told) = ip_version_before_1_0(version, family) else {
        return Ok(());
    };
    match field_str(entry, "version") {
        Field::Absent => Ok(()),
        Field::Here(text) if text == told => Ok(()),
        Field::Here(_) | Field::WrongKind => Err(invalid(alloc, "ips")),
    }
}

/// The routes, none where there is no list of them.
#[tactic(auto, using(cni_json::proofs::Steps::steps), unfolding(crate::specs::Reading::routes_at))]
pub(crate) fn routes(alloc: Global, top: &Value) -> Result<Items<RouteEntry>, ResultError>
    ensures { Gives is_out_of_memory result (routes_at (view top.now)) }
{
    list(alloc, top, "routes", |entry| route(alloc, entry))
}

#[tactic(auto, using(cni_json::proofs::Steps::steps), unfolding(crate::specs::Reading::route_at))]
fn route(alloc: Global, entry: &Value) -> Result<RouteEntry, ResultError>
    ensures { Gives is_out_of_memory result (route_at (view entry.now)) }
{
    let dst = cidr(alloc, entry, "dst", "routes")?;
    let gw = addr_if(alloc, entry, "gw", "routes")?;
    Ok(RouteEntry { dst, gw })
}
