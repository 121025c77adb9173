//! Results and errors as JSON (CNI specification 1.1.0, section 5).

ghost use Rattle.std.specs.Prelude.{◌≡◌, codes, false, IfOk, OnOk, Ok};
ghost use Rattle.serde_json.specs.View.{view};
ghost use Rattle.serde_json.specs.Written.{has_float};
ghost use Rattle.cni_json.specs.Members.{list_data, members_of, put_list_unless_empty};
ghost use Rattle.cni_json.specs.Json.{line_of};
ghost use Rattle.cni_result.specs.Laws.{IsReadable};
ghost use Rattle.cni_result.specs.Mappings.{proto_data, mapping_data};
ghost use Rattle.cni_result.specs.Reading.{result_of_bytes};
ghost use Rattle.cni_result.specs.Results.{version_data, interface_data, ip_data, route_data, dns_members};
ghost use Rattle.cni_result.specs.Results.{result_members, result_data, error_data};
ghost use Rattle.cni_result.specs.Versions as told;

use crate::cached::{PortMapping, Proto, proto_text};
use crate::error::CniError;
use crate::result::{AddResult, Dns, Interface, IpEntry, RouteEntry};
use crate::version::{Version, ip_version_before_1_0, mtu_since_1_1, version_text};
use cni_addr::{NoMemory, Text};
use cni_json::{JsonObject, ToJson, line};
use serde_json::Value;
use std::alloc::Global;

impl ToJson for Version {
    ghost json = { version_data };

    fn to_json(&self, alloc: Global) -> Result<Value, NoMemory> {
        Ok(Value::try_from_str(alloc, version_text(*self))?)
    }
}

#[tactic(auto, unfolding(crate::specs::Results::interface_data))]
fn interface_value(
    alloc: Global,
    version: Version,
    interface: &Interface,
) -> Result<Value, NoMemory>
    ensures { IfOk result (λ v. view v ≡ interface_data version interface.now) }
{
    let mut object = JsonObject::new(alloc);
    object.put_if("mac", &interface.mac)?;
    object.put_if("mtu", &mtu_since_1_1(version, interface.mtu))?;
    object.put("name", &interface.name)?;
    object.put_if("sandbox", &interface.sandbox)?;
    Ok(object.into_value())
}

fn interfaces_value(
    alloc: Global,
    version: Version,
    interfaces: &[Interface],
) -> Result<Value, NoMemory>
    ensures { IfOk result (λ v. view v ≡ list_data (interface_data version) interfaces.now) }
{
    let mut values = Vec::with_capacity(alloc, interfaces.len())?;
    for interface in interfaces {
        values.push(interface_value(alloc, version, interface)?)?;
    }
    Ok(Value::Array(values))
}

#[tactic(auto, unfolding(crate::specs::Results::ip_data))]
fn ip_value(alloc: Global, version: Version, ip: &IpEntry) -> Result<Value, NoMemory>
    ensures { IfOk result (λ v. view v ≡ ip_data version ip.now) }
{
    let mut object = JsonObject::new(alloc);
    object.put("address", &ip.address)?;
    object.put_if("gateway", &ip.gateway)?;
    object.put_if("interface", &ip.interface)?;
    object.put_if("version", &ip_version_text(alloc, version, ip)?)?;
    Ok(object.into_value())
}

fn ip_version_text(alloc: Global, version: Version, ip: &IpEntry) -> Result<Option<Text>, NoMemory>
    ensures { IfOk result (λ text. text ≡ told.ip_version_before_1_0 version ip.now.address.addr.family) }
{
    match ip_version_before_1_0(version, ip.address.addr.family) {
        Some(text) => Ok(Some(Text::of(alloc, text)?)),
        None => Ok(None),
    }
}

fn ips_value(alloc: Global, version: Version, ips: &[IpEntry]) -> Result<Value, NoMemory>
    ensures { IfOk result (λ v. view v ≡ list_data (ip_data version) ips.now) }
{
    let mut values = Vec::with_capacity(alloc, ips.len())?;
    for ip in ips {
        values.push(ip_value(alloc, version, ip)?)?;
    }
    Ok(Value::Array(values))
}

fn put_ips(
    object: &mut JsonObject,
    alloc: Global,
    version: Version,
    ips: &[IpEntry],
) -> Result<(), NoMemory>
    ensures { OnOk result (members_of object.new
        ≡ put_list_unless_empty (ip_data version) (codes "ips") ips.now (members_of object.old)) }
{
    if ips.is_empty() {
        return Ok(());
    }
    let value = ips_value(alloc, version, ips)?;
    object.put_value("ips", value)
}

impl ToJson for RouteEntry {
    ghost json = { route_data };

    #[tactic(auto, unfolding(crate::specs::Results::route_data))]
    fn to_json(&self, alloc: Global) -> Result<Value, NoMemory> {
        let mut object = JsonObject::new(alloc);
        object.put("dst", &self.dst)?;
        object.put_if("gw", &self.gw)?;
        Ok(object.into_value())
    }
}

#[tactic(auto, unfolding(crate::specs::Results::dns_members))]
fn dns_object(alloc: Global, dns: &Dns) -> Result<JsonObject, NoMemory>
    ensures { IfOk result (λ o. members_of o ≡ dns_members dns.now) }
{
    let mut object = JsonObject::new(alloc);
    object.put_text_unless_empty("domain", &dns.domain)?;
    object.put_list_unless_empty("nameservers", dns.nameservers.as_slice())?;
    object.put_list_unless_empty("options", dns.options.as_slice())?;
    object.put_list_unless_empty("search", dns.search.as_slice())?;
    Ok(object)
}

#[tactic(auto, unfolding(crate::specs::Results::result_members))]
fn result_object(alloc: Global, added: &AddResult) -> Result<JsonObject, NoMemory>
    ensures { IfOk result (λ o. members_of o ≡ result_members added.now) }
{
    let mut object = JsonObject::new(alloc);
    object.put("cniVersion", &added.version)?;
    object.put_object_unless_empty("dns", dns_object(alloc, &added.dns)?)?;
    let interfaces = interfaces_value(alloc, added.version, added.interfaces.as_slice())?;
    object.put_value("interfaces", interfaces)?;
    put_ips(&mut object, alloc, added.version, added.ips.as_slice())?;
    object.put_list_unless_empty("routes", added.routes.as_slice())?;
    Ok(object)
}

/// The result as JSON. Lists that are empty, but for `interfaces`, and members that are absent are left out, and so
/// are `mtu` before 1.1.0 and the IP version of an address from 1.0.0 on. It takes time and memory in proportion to the
/// result.
#[tactic(auto, using(crate::proofs::ResultLemmas::result_is_whole))]
pub fn to_value(alloc: Global, added: &AddResult) -> Result<Value, NoMemory>
    ensures json { IfOk result (λ v. view v ≡ result_data added.now) }
    ensures numbers { IfOk result (λ v. has_float (view v) ≡ false) }
{
    Ok(result_object(alloc, added)?.into_value())
}

/// The result on a line of its own, as a plugin prints it. [`read_result`](crate::read_result) reads it again as the
/// same result, if there is no `mtu` before 1.1.0 and each address is on an interface of the list or on none.
pub fn result_line(alloc: Global, added: &AddResult) -> Result<Vec<u8>, NoMemory>
    ensures text { IfOk result (λ text. text.items ≡ line_of (result_data added.now)) }
    ensures again { IfOk result (λ text. IsReadable added.now → result_of_bytes text.items ≡ Ok added.now) }
{
    let value = to_value(alloc, added)?;
    let text = line(alloc, &value)?;
    Ok(text)
}

/// The error as JSON.
#[tactic(auto, using(crate::proofs::ResultLemmas::error_is_whole), unfolding(crate::specs::Results::error_data))]
pub fn error_value(alloc: Global, error: &CniError) -> Result<Value, NoMemory>
    ensures json { IfOk result (λ v. view v ≡ error_data error.now) }
    ensures numbers { IfOk result (λ v. has_float (view v) ≡ false) }
{
    let mut object = JsonObject::new(alloc);
    object.put("cniVersion", &error.version)?;
    object.put("code", &error.code)?;
    object.put("details", &error.details)?;
    object.put("msg", &error.msg)?;
    Ok(object.into_value())
}

impl ToJson for Proto {
    ghost json = { proto_data };

    fn to_json(&self, alloc: Global) -> Result<Value, NoMemory> {
        Ok(Value::try_from_str(alloc, proto_text(*self))?)
    }
}

impl ToJson for PortMapping {
    ghost json = { mapping_data };

    #[tactic(auto, unfolding(crate::specs::Mappings::mapping_data))]
    fn to_json(&self, alloc: Global) -> Result<Value, NoMemory> {
        let mut object = JsonObject::new(alloc);
        object.put("containerPort", &self.container_port)?;
        object.put_if("hostIP", &self.host_ip)?;
        object.put("hostPort", &self.host_port)?;
        object.put("protocol", &self.protocol)?;
        Ok(object.into_value())
    }
}
