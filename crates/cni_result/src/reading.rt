//! Results that are read.

ghost use Rattle.std.specs.Prelude.{◌≡◌};
ghost use Rattle.serde_json.specs.View.{view};
ghost use Rattle.cni_json.specs.Json.{json_of};
ghost use Rattle.cni_json.specs.Outcome.{Gives, GivesAs};
ghost use Rattle.cni_result.specs.Reading.{version_at, is_on_one_of, are_on, indexes_at, result_at, read_or_refused};
ghost use Rattle.cni_result.specs.Reading.{result_of_bytes};
ghost use Rattle.cni_result.specs.Refusals.{is_out_of_memory};

use crate::dns::read_dns;
use crate::entries::{interfaces, ips, routes};
use crate::refusal::{ResultError, invalid, version_refused};
use crate::result::{AddResult, IpEntry};
use crate::version::{Version, version_named};
use cni_json::{Field, ReadEnd, Value, field_str, need_object, read};
use std::alloc::Global;

/// The result that the bytes are as JSON.
///
/// A list that is absent is empty, a member that is null is as an absent one, and unnamed members are ignored, as are
/// `mtu` before 1.1.0 and the IP version of an address from 1.0.0 on. It refuses what isn't a result by the first
/// cause: no JSON text; a number without 64 bits (`number`); no object (`result`); the version; the first of
/// `interfaces`, `ips`, `routes` and `dns` that is wrong; and an address on an interface that isn't in the list
/// (`interface`). It takes time and memory in proportion to the bytes.
#[tactic(auto, using(cni_json::proofs::Steps::steps), unfolding(crate::specs::Reading::result_of_bytes))]
pub fn read_result(alloc: Global, bytes: &[u8]) -> Result<AddResult, ResultError>
    ensures { Gives is_out_of_memory result (result_of_bytes bytes.now) }
{
    let value = decode(alloc, bytes)?;
    result_of(alloc, &value)
}

fn decode(alloc: Global, bytes: &[u8]) -> Result<Value, ResultError>
    ensures { GivesAs is_out_of_memory view result (read_or_refused (json_of bytes.now)) }
{
    match read(alloc, bytes) {
        Ok(value) => Ok(value),
        Err(ReadEnd::Decode) => Err(ResultError::Decode),
        Err(ReadEnd::Number) => Err(invalid(alloc, "number")),
        Err(ReadEnd::NoMemory) => Err(ResultError::NoMemory),
    }
}

/// The result that a JSON value is, read and refused as [`read_result`] has it from the value on.
#[tactic(auto, using(cni_json::proofs::Steps::steps), unfolding(crate::specs::Reading::result_at))]
pub fn result_of(alloc: Global, top: &Value) -> Result<AddResult, ResultError>
    ensures { Gives is_out_of_memory result (result_at (view top.now)) }
{
    need_object(top, || invalid(alloc, "result"))?;
    let version = version(alloc, top)?;
    let interfaces = interfaces(alloc, version, top)?;
    let ips = ips(alloc, version, top)?;
    let routes = routes(alloc, top)?;
    let dns = read_dns(alloc, top, || invalid(alloc, "dns"))?;
    indexes(alloc, interfaces.as_slice().len(), ips.as_slice())?;
    Ok(AddResult {
        version,
        interfaces,
        ips,
        routes,
        dns,
    })
}

#[tactic(auto, using(cni_json::proofs::Steps::steps), unfolding(crate::specs::Reading::version_at))]
fn version(alloc: Global, top: &Value) -> Result<Version, ResultError>
    ensures { Gives is_out_of_memory result (version_at (view top.now)) }
{
    match field_str(top, "cniVersion") {
        Field::Absent | Field::WrongKind => Err(version_refused(alloc, "")),
        Field::Here(found) => version_named(found).ok_or_else(|| version_refused(alloc, found)),
    }
}

/// Each address is on an interface of the list, or on none.
#[tactic(auto, using(cni_json::proofs::Steps::steps), unfolding(crate::specs::Reading::indexes_at))]
fn indexes(alloc: Global, count: usize, ips: &[IpEntry]) -> Result<(), ResultError>
    ensures { Gives is_out_of_memory result (indexes_at count ips.now) }
{
    are_on(count, ips)
        .then_some(())
        .ok_or_else(|| invalid(alloc, "interface"))
}

fn are_on(count: usize, ips: &[IpEntry]) -> bool
    ensures { result ≡ are_on count ips.now }
{
    ips.iter().all(|ip| is_on_one_of(count, ip.interface))
}

fn is_on_one_of(count: usize, interface: Option<u32>) -> bool
    ensures { result ≡ is_on_one_of count interface }
{
    match interface {
        Some(index) => (index as usize) < count,
        None => true,
    }
}
