//! The `portmap` plugin: ports of the host that lead to the container.
//!
//! To the verbs it promises its calls, its result, which is the one before, and the kinds of objects that DEL takes
//! back. They are those of its record, `portmap_plugin` (`specs/Portmap.antt`), which keeps the laws of a chained
//! plugin ([`laws`]).
//!
//! ```text
//! portmap::calls(alloc, &conf, &att, &mappings, &prev)? // a mapping: up to 3 RuleAppend for IPv4, 2 for IPv6
//! ```
#![tactic(auto)]

pub mod laws;

ghost use Rattle.std.specs.Prelude.{◌≡◌, fold, option_map, IfOk, OnOk};
ghost use Rattle.std.specs.Option.{option_copied};
ghost use Rattle.cni_addr.specs.Network as network;
ghost use Rattle.kernel_types.specs.Equal.{rule_eq};
ghost use Rattle.cni_addr.specs.Lists.{push_unless_there};
ghost use Rattle.portmap.specs.Portmap as plan;

use cni_addr::{Addr, Cidr, Family, Items, NoMemory, network_of, whole};
use cni_result::{AddResult, IpEntry, PortMapping};
use kernel_types::{Att, Call, Chain, Kind, Rule, Table, Target};
use net_conf::PortmapConf;
use plugin_base::{EachKeyOnce, ask_all, first_of_family, rule_for_all};
use std::alloc::Global;

/// `127.0.0.1/32`
fn loopback() -> Cidr
    ensures { result ≡ plan.loopback }
{
    Cidr {
        addr: Addr {
            family: Family::V4,
            bits: (127 << 24) + 1,
        },
        prefix: 32,
    }
}

/// Whether the mapping has no host address, or one of this family.
fn host_ip_allows(mapping: &PortMapping, addr: &Addr) -> bool
    ensures { result ≡ plan.host_ip_allows mapping.now.host_ip addr.now }
{
    match mapping.host_ip {
        Some(host_ip) => host_ip.family == addr.family,
        None => true,
    }
}

fn host_network(mapping: &PortMapping) -> Option<Cidr>
    ensures { result ≡ option_map network.whole mapping.now.host_ip }
{
    mapping.host_ip.map(|host_ip| whole(&host_ip))
}

/// What comes to the port of the host goes on to the container.
fn dnat_of(att: &Att, mapping: &PortMapping, addr: &Addr) -> Result<Rule, NoMemory>
    ensures { IfOk result (λ rule. rule ≡ plan.dnat_of att.now mapping.now addr.now) }
{
    let target = Target::Dnat {
        addr: *addr,
        port: mapping.container_port,
    };
    Ok(Rule {
        dst: host_network(mapping),
        protocol: Some(mapping.protocol),
        dport: Some(mapping.host_port),
        ..rule_for_all(att, Table::Nat, Chain::Dnat, target)?
    })
}

/// What comes from this network to the container's port is masqueraded, so that replies come back by the host.
fn hostport_masquerade(
    att: &Att,
    mapping: &PortMapping,
    addr: &Addr,
    src: Cidr,
) -> Result<Rule, NoMemory>
    ensures { IfOk result (λ rule. rule ≡ plan.hostport_masquerade att.now mapping.now addr.now src) }
{
    Ok(Rule {
        src: Some(src),
        dst: Some(whole(addr)),
        protocol: Some(mapping.protocol),
        dport: Some(mapping.container_port),
        ..rule_for_all(att, Table::Nat, Chain::HostMasq, Target::Masquerade)?
    })
}

/// From the host itself, of IPv4 alone: Linux sends nothing from `::1` out by another link.
fn push_from_host(
    rules: &mut EachKeyOnce<Rule>,
    att: &Att,
    mapping: &PortMapping,
    addr: &Addr,
) -> Result<(), NoMemory>
    ensures { OnOk result
        (rules.new
        ≡ fold (push_unless_there rule_eq) rules.old
        (plan.from_host att.now mapping.now addr.now addr.now.family)) }
{
    match addr.family {
        Family::V4 => rules.push(hostport_masquerade(att, mapping, addr, loopback())?),
        Family::V6 => Ok(()),
    }
}

fn push_masquerades(
    rules: &mut EachKeyOnce<Rule>,
    snat: bool,
    att: &Att,
    ip: &IpEntry,
    mapping: &PortMapping,
) -> Result<(), NoMemory>
    ensures { OnOk result
        (rules.new
        ≡ fold (push_unless_there rule_eq) rules.old (plan.masquerades_of snat att.now ip.now mapping.now)) }
{
    if snat {
        let addr = ip.address.addr;
        let own_network = network_of(&ip.address);
        rules.push(hostport_masquerade(att, mapping, &addr, own_network)?)?;
        push_from_host(rules, att, mapping, &addr)?;
    }
    Ok(())
}

/// The rules of a mapping to one address, unless the mapping has a host address of the other family.
fn push_rules_to(
    rules: &mut EachKeyOnce<Rule>,
    snat: bool,
    att: &Att,
    mapping: &PortMapping,
    ip: &IpEntry,
) -> Result<(), NoMemory>
    ensures { OnOk result
        (rules.new
        ≡ fold (push_unless_there rule_eq) rules.old (plan.rules_for snat att.now mapping.now (Some ip.now))) }
{
    if host_ip_allows(mapping, &ip.address.addr) {
        rules.push(dnat_of(att, mapping, &ip.address.addr)?)?;
        push_masquerades(rules, snat, att, ip, mapping)?;
    }
    Ok(())
}

fn push_rules_for(
    rules: &mut EachKeyOnce<Rule>,
    snat: bool,
    att: &Att,
    mapping: &PortMapping,
    first: Option<&IpEntry>,
) -> Result<(), NoMemory>
    ensures { OnOk result
        (rules.new
        ≡ fold (push_unless_there rule_eq) rules.old
        (plan.rules_for snat att.now mapping.now (option_copied first.entry))) }
{
    match first {
        Some(ip) => push_rules_to(rules, snat, att, mapping, ip),
        None => Ok(()),
    }
}

/// The rules of the mappings, for the first address of each family, IPv4 first.
fn portmap_rules(
    alloc: Global,
    conf: &PortmapConf,
    att: &Att,
    mappings: &[PortMapping],
    ips: &[IpEntry],
) -> Result<EachKeyOnce<Rule>, NoMemory>
    ensures { IfOk result (λ rules. rules ≡ plan.portmap_rules conf.now att.now mappings.now ips.now) }
{
    let first_v4 = first_of_family(ips, Family::V4);
    let first_v6 = first_of_family(ips, Family::V6);
    let mut rules = EachKeyOnce::new(alloc);
    for mapping in mappings {
        push_rules_for(&mut rules, conf.snat, att, mapping, first_v4)?;
        push_rules_for(&mut rules, conf.snat, att, mapping, first_v6)?;
    }
    Ok(rules)
}

/// The rules of each mapping, for the first address of each family that the attachment was given. None without an
/// address. A mapping with a host address has the rules of its family alone. Linear in the mappings and the addresses.
pub fn calls(
    alloc: Global,
    conf: &PortmapConf,
    att: &Att,
    mappings: &[PortMapping],
    prev: &AddResult,
) -> Result<Items<Call>, NoMemory>
    ensures { IfOk result (λ all. all ≡ plan.portmap_calls_of conf.now att.now mappings.now prev.now.ips) }
{
    let rules = portmap_rules(alloc, conf, att, mappings, prev.ips.as_slice())?;
    let mut all = Vec::new(alloc);
    ask_all(&mut all, rules)?;
    Ok(Items::of_vec(all))
}

/// The result before, unchanged. Takes no memory.
pub fn result(prev: AddResult) -> AddResult
    ensures { result ≡ prev }
{
    prev
}

/// The kinds of objects that DEL takes back.
pub fn kinds() -> [Kind; 1]
    ensures { result ≡ plan.portmap_kinds }
{
    [Kind::Rules]
}
