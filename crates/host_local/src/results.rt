//! The plugin's result.

ghost use Rattle.std.specs.Prelude.{◌≡◌, map, IfOk, Some};
ghost use Rattle.std.specs.Option.{option_copied};
ghost use Rattle.host_local.specs.Results as results;

use cni_addr::{Items, NoMemory, copies};
use cni_result::{AddResult, IpEntry, RouteEntry, Version, no_dns};
use kernel_types::Given;
use net_conf::HostLocalConf;
use std::alloc::Global;

/// The given addresses with their gateways, of no interface yet. Linear in them.
pub fn ips_of(alloc: Global, given: &[Given]) -> Result<Items<IpEntry>, NoMemory>
    ensures { IfOk result (λ ips. ips ≡ map results.ip_of given.now) }
{
    let mut ips = Vec::with_capacity(alloc, given.len())?;
    for g in given {
        ips.push(IpEntry {
            address: g.address,
            gateway: Some(g.gateway),
            interface: None,
        })?;
    }
    Ok(Items::of_vec(ips))
}

fn result_with(
    alloc: Global,
    given: &[Given],
    routes: &[RouteEntry],
    version: Version,
) -> Result<AddResult, NoMemory>
    ensures { IfOk result (λ r. r ≡ results.result_with given.now routes.now version) }
{
    Ok(AddResult {
        version,
        interfaces: Items::new(alloc),
        ips: ips_of(alloc, given)?,
        routes: copies(alloc, routes)?,
        dns: no_dns(alloc)?,
    })
}

/// The given addresses with their gateways, and the configured routes: what the first plugin completes (CNI
/// specification, section 4, "IPAM"). Linear in both.
pub fn ipam_result(
    alloc: Global,
    conf: &HostLocalConf,
    given: &[Given],
    version: Version,
) -> Result<AddResult, NoMemory>
    ensures { IfOk result (λ r. r ≡ results.ipam_result_of (Some conf.now) given.now version) }
{
    result_with(alloc, given, conf.routes.as_slice(), version)
}

/// The result of a configuration that may give no addresses, and then has no routes. Linear in both.
pub fn ipam_result_of(
    alloc: Global,
    ipam: Option<&HostLocalConf>,
    given: &[Given],
    version: Version,
) -> Result<AddResult, NoMemory>
    ensures { IfOk result (λ r. r ≡ results.ipam_result_of (option_copied ipam.entry) given.now version) }
{
    match ipam {
        Some(conf) => ipam_result(alloc, conf, given, version),
        None => result_with(alloc, given, &[], version),
    }
}
