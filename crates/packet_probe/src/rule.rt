//! Whether a packet matches a rule, and what the rule does to it.

ghost use Rattle.std.specs.Prelude.{◌≡◌, true};
ghost use Rattle.packet_probe.specs.Fate as defined;

use crate::packet::Packet;
use cni_addr::{Addr, Cidr, Family, contains};
use kernel_types::{Chain, Rule, Target};

/// Whether the rule is of the chain, and the packet matches it.
pub(crate) fn matches_in(chain: Chain, packet: &Packet, rule: &Rule) -> bool
    ensures { result ≡ defined.matches_in chain packet.now rule.now }
{
    rule.chain == chain && matches(packet, rule)
}

fn matches(packet: &Packet, rule: &Rule) -> bool
    ensures { result ≡ defined.matches packet.now rule.now }
{
    speaks_of(packet.family(), rule) && fits_way(packet, rule) && fits_use(packet, rule)
}

/// Whether each address that the rule has is of the family.
fn speaks_of(family: Family, rule: &Rule) -> bool
    ensures { result ≡ defined.speaks_of family rule.now }
{
    rule.src
        .map_or(true, |network| network.addr.family == family)
        && rule
            .dst
            .map_or(true, |network| network.addr.family == family)
        && leads_into(family, &rule.target)
}

fn leads_into(family: Family, target: &Target) -> bool
    ensures { result ≡ defined.leads_into family target.now }
{
    match target {
        Target::Accept | Target::Masquerade => true,
        Target::Dnat { addr, .. } => addr.family == family,
    }
}

/// Whether the packet comes from where the rule asks for, and goes to where it asks for.
fn fits_way(packet: &Packet, rule: &Rule) -> bool
    ensures { result ≡ defined.fits_way packet.now rule.now }
{
    rule.src
        .map_or(true, |network| contains(&network, &packet.src))
        && rule
            .dst
            .map_or(true, |network| is_to(rule.not_dst, &packet.dst, &network))
}

fn is_to(not_dst: bool, addr: &Addr, network: &Cidr) -> bool
    ensures { result ≡ defined.is_to not_dst addr.now network.now }
{
    if not_dst {
        !contains(network, addr)
    } else {
        contains(network, addr)
    }
}

/// Whether the packet has the protocol and the port that the rule asks for, and its connection stands if it asks for
/// that.
fn fits_use(packet: &Packet, rule: &Rule) -> bool
    ensures { result ≡ defined.fits_use packet.now rule.now }
{
    rule.protocol
        .map_or(true, |protocol| packet.protocol == protocol)
        && rule.dport.map_or(true, |port| packet.dport == port)
        && (!rule.established || packet.established)
}

/// The packet where the rule sends it on, if it does.
pub(crate) fn sent_by(packet: &Packet, rule: &Rule) -> Option<Packet>
    requires { defined.leads_into packet.now.dst.family rule.now.target ≡ true }
    ensures { result ≡ defined.sent_by packet.now rule.now }
{
    match rule.target {
        Target::Accept | Target::Masquerade => None,
        Target::Dnat { addr, port } => Some(Packet {
            protocol: packet.protocol,
            src: packet.src,
            dst: addr,
            dport: port,
            established: packet.established,
        }),
    }
}

pub(crate) fn masquerades(rule: &Rule) -> bool
    ensures { result ≡ defined.masquerades rule.now }
{
    matches!(rule.target, Target::Masquerade)
}
