//! How a first plugin completes the address plugin's result.

ghost use Rattle.std.specs.Prelude.{◌≡◌, map, IfOk};
ghost use Rattle.plugin_base.specs.Results as results;

use cni_addr::{Duplicate, Items, NoMemory, Text};
use cni_result::{AddResult, Dns, Interface, IpEntry, RouteEntry, Version, mtu_since_1_1};
use kernel_types::NamedAtt;
use std::alloc::Global;

/// The container's end, or a macvlan link.
pub fn inner_interface(
    att: &NamedAtt,
    netns: &Text,
    mtu: u32,
    version: Version,
) -> Result<Interface, NoMemory>
    ensures { IfOk result (λ i. i ≡ results.inner_interface att.now netns.now mtu version) }
{
    Ok(Interface {
        name: att.att().ifname.copy()?,
        mac: Some(att.inner_mac()),
        mtu: mtu_since_1_1(version, Some(mtu)),
        sandbox: Some(netns.copy()?),
    })
}

/// The addresses on the interface of this index.
fn ips_at(alloc: Global, index: u32, ips: &[IpEntry]) -> Result<Items<IpEntry>, NoMemory>
    ensures { IfOk result (λ all. all ≡ map (results.at_interface index) ips.now) }
{
    let mut all = Vec::with_capacity(alloc, ips.len())?;
    for ip in ips {
        all.push(IpEntry {
            address: ip.address,
            gateway: ip.gateway,
            interface: Some(index),
        })?;
    }
    Ok(Items::of_vec(all))
}

/// The result of the address plugin with what the first plugin adds: these interfaces, the index of the one that the
/// addresses are on, and its routes and name servers (CNI specification, section 4, "IPAM plugins"). Linear in the
/// addresses.
pub fn completed(
    alloc: Global,
    ipam: &AddResult,
    interfaces: Items<Interface>,
    index: u32,
    routes: Items<RouteEntry>,
    dns: Dns,
) -> Result<AddResult, NoMemory>
    ensures { IfOk result (λ r. r ≡ results.completed ipam.now interfaces index routes dns) }
{
    Ok(AddResult {
        version: ipam.version,
        interfaces,
        ips: ips_at(alloc, index, ipam.ips.as_slice())?,
        routes,
        dns,
    })
}
