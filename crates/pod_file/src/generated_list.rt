//! The network list of the generator.

ghost use Rattle.std.specs.Prelude.{◌≡◌, IfOk};
ghost use Rattle.cni_addr.specs.declared.address.Family.TheVariants.{V4};
ghost use Rattle.pod_file.specs.Generator as defined;

use cni_addr::{Addr, Cidr, Family, Items, NoMemory, Range, RangeSet, RefCounted, Text};
use cni_result::{Version, no_dns};
use link_names::BridgeName;
use net_conf::{
    BridgeConf, BridgeMode, Chained, ChainedPlugins, DEFAULT_MTU, FirewallConf, First, GatewayRole,
    HostLocalConf, NetList, PortmapConf, RangeSets,
};
use std::alloc::Global;

/// The network list of the generator, whose name is given.
pub(crate) fn generated_list(alloc: Global, name: Text) -> Result<NetList, NoMemory>
    requires { name ≡ defined.network_name }
    ensures { IfOk result (λ list. list ≡ defined.generated_list) }
{
    Ok(NetList {
        version: Version::V1_1,
        name,
        disable_check: false,
        disable_gc: false,
        first: First::Bridge(gateway_bridge(alloc)?),
        chained: later_plugins(alloc)?,
    })
}

fn gateway_bridge(alloc: Global) -> Result<BridgeConf, NoMemory>
    ensures { IfOk result (λ conf. conf ≡ defined.gateway_bridge) }
{
    Ok(BridgeConf {
        bridge: BridgeName::of(Text::of(alloc, "cni0")?),
        gateway: GatewayRole::Gateway,
        ip_masq: true,
        mtu: DEFAULT_MTU,
        mode: BridgeMode::Plain,
        ipam: Some(addresses_of_tens(alloc)?),
        dns: no_dns(alloc)?,
    })
}

fn addresses_of_tens(alloc: Global) -> Result<HostLocalConf, NoMemory>
    ensures { IfOk result (λ conf. conf ≡ defined.addresses_of_tens) }
{
    let mut ranges = Items::new(alloc);
    ranges.push(range_of_tens())?;
    let mut sets = Items::new(alloc);
    let set = RefCounted::of(alloc, RangeSet { ranges })?;
    sets.push(set)?;
    Ok(HostLocalConf {
        sets: RangeSets::of_items(sets),
        routes: Items::new(alloc),
    })
}

/// 10.0.0.0/8, from its second address to its last but one.
fn range_of_tens() -> Range
    ensures { result ≡ defined.range_of_tens }
{
    let first = ipv4(0x0a00_0001);
    Range {
        subnet: tens(),
        start: first,
        end: ipv4(0x0aff_fffe),
        gateway: first,
    }
}

fn tens() -> Cidr
    ensures { result ≡ defined.tens }
{
    Cidr {
        addr: ipv4(0x0a00_0000),
        prefix: 8,
    }
}

fn ipv4(bits: u32) -> Addr
    ensures { result ≡ defined.ipv4 bits }
{
    Addr {
        family: Family::V4,
        bits: u128::from(bits),
    }
}

fn later_plugins(alloc: Global) -> Result<ChainedPlugins, NoMemory>
    ensures { IfOk result (λ plugins. plugins ≡ defined.later_plugins) }
{
    let mut plugins = Items::new(alloc);
    plugins.push(Chained::Portmap(PortmapConf {
        mappings: true,
        snat: true,
    }))?;
    plugins.push(Chained::Firewall(FirewallConf))?;
    Ok(ChainedPlugins::of_items(plugins))
}
