//! Kinds of rules. Rules of one kind ask for the same parts of a packet, and a rule tells the values that these are to
//! have. All is kept in numbers, which have an order.

ghost use Rattle.std.specs.Prelude.{◌≡◌, min};
ghost use Rattle.cni_addr.specs.Network.{network_bits};
ghost use Rattle.cni_addr.specs.Value.{longest_prefix};
ghost use Rattle.packet_probe.specs.Kinds as defined;

use crate::packet::Packet;
use cni_addr::{Addr, Cidr, network_of};
use cni_result::Proto;
use kernel_types::{Chain, Rule, Target};

/// The family of a network, and the length of its prefix.
#[derive(Clone, Copy, PartialEq, Eq, PartialOrd, Ord)]
pub(crate) struct Prefix {
    pub(crate) family: u8,
    pub(crate) length: u8,
}

/// A network by its first address.
#[derive(Clone, Copy, PartialEq, Eq, PartialOrd, Ord)]
pub(crate) struct Network {
    pub(crate) bits: u128,
    pub(crate) prefix: Prefix,
}

/// What rules have in common that ask for the same parts of a packet.
#[derive(Clone, Copy, PartialEq, Eq, PartialOrd, Ord)]
pub(crate) struct Kind {
    pub(crate) chain: u8,
    /// They ask for the network that the packet comes from, at this prefix.
    pub(crate) src: Option<Prefix>,
    /// They ask for the network that it goes to, at this prefix.
    pub(crate) dst: Option<Prefix>,
    /// It must not go to this network.
    pub(crate) outside: Option<Network>,
    /// The family of the address in their targets.
    pub(crate) family: Option<u8>,
    pub(crate) protocol: bool,
    pub(crate) dport: bool,
    pub(crate) established: bool,
}

/// The values of the parts, 0 where a kind doesn't ask for one. A network is told by its first address.
#[derive(Clone, Copy, PartialEq, Eq, PartialOrd, Ord)]
pub(crate) struct Values {
    pub(crate) src: u128,
    pub(crate) dst: u128,
    pub(crate) dport: u16,
    pub(crate) protocol: u8,
}

/// By its values a rule is told apart sooner than by its kind.
pub(crate) type Key = (Values, Kind);

// ---- of a rule

/// The kind of a rule, and the values that it asks for.
pub(crate) fn key_of(rule: &Rule) -> Key
    ensures { result ≡ defined.key_of rule.now }
{
    (values_of(rule), kind_of(rule))
}

pub(crate) fn kind_of(rule: &Rule) -> Kind
    ensures { result ≡ defined.kind_of rule.now }
{
    Kind {
        chain: chain_number(rule.chain),
        src: prefix_of(rule.src),
        dst: prefix_of(inside(rule)),
        outside: network_in_numbers(outside(rule)),
        family: target_family(&rule.target),
        protocol: rule.protocol.is_some(),
        dport: rule.dport.is_some(),
        established: rule.established,
    }
}

fn values_of(rule: &Rule) -> Values
    ensures { result ≡ defined.values_of rule.now }
{
    Values {
        src: bits_of(rule.src),
        dst: bits_of(inside(rule)),
        dport: rule.dport.unwrap_or(0),
        protocol: rule
            .protocol
            .map_or(0, |protocol| protocol_number(protocol)),
    }
}

/// The network that a packet must go to.
fn inside(rule: &Rule) -> Option<Cidr>
    ensures { result ≡ defined.inside rule.now }
{
    if rule.not_dst { None } else { rule.dst }
}

/// The network that a packet must not go to.
fn outside(rule: &Rule) -> Option<Cidr>
    ensures { result ≡ defined.outside rule.now }
{
    if rule.not_dst { rule.dst } else { None }
}

fn prefix_of(network: Option<Cidr>) -> Option<Prefix>
    ensures { result ≡ defined.prefix_of network }
{
    match network {
        Some(network) => Some(prefix_in_numbers(&network)),
        None => None,
    }
}

fn bits_of(network: Option<Cidr>) -> u128
    ensures { result ≡ defined.bits_of network }
{
    match network {
        Some(network) => start_of(&network),
        None => 0,
    }
}

fn network_in_numbers(network: Option<Cidr>) -> Option<Network>
    ensures { result ≡ defined.network_in_numbers network }
{
    match network {
        Some(network) => Some(Network {
            bits: start_of(&network),
            prefix: prefix_in_numbers(&network),
        }),
        None => None,
    }
}

fn prefix_in_numbers(network: &Cidr) -> Prefix
    ensures { result ≡ defined.prefix_in_numbers network.now }
{
    Prefix {
        family: family_number(&network.addr),
        length: network.prefix,
    }
}

fn target_family(target: &Target) -> Option<u8>
    ensures { result ≡ defined.target_family target.now }
{
    match target {
        Target::Accept | Target::Masquerade => None,
        Target::Dnat { addr, .. } => Some(family_number(addr)),
    }
}

// ---- of a packet

/// Whether a packet can match rules of the kind in the chain, where its values are theirs.
pub(crate) fn admits(chain: Chain, kind: &Kind, packet: &Packet) -> bool
    ensures { result ≡ defined.admits chain kind.now packet.now }
{
    kind.chain == chain_number(chain)
        && kind_speaks_of(kind, packet)
        && is_without(kind, packet)
        && (!kind.established || packet.established)
}

fn kind_speaks_of(kind: &Kind, packet: &Packet) -> bool
    ensures { result ≡ defined.kind_speaks_of kind.now packet.now }
{
    let family = family_number(&packet.dst);
    kind.src.map_or(true, |prefix| prefix.family == family)
        && kind.dst.map_or(true, |prefix| prefix.family == family)
        && kind.family.map_or(true, |led| led == family)
}

/// Whether the packet goes to no address of the network that it must not go to, and is of that network's family.
fn is_without(kind: &Kind, packet: &Packet) -> bool
    ensures { result ≡ defined.is_without kind.now packet.now }
{
    kind.outside
        .map_or(true, |network| is_past(&network, &packet.dst))
}

fn is_past(network: &Network, addr: &Addr) -> bool
    ensures { result ≡ defined.is_past addr.now network.now }
{
    network.prefix.family == family_number(addr)
        && network.bits != first_bits(addr, network.prefix.length)
}

/// What the packet has of the parts that the kind asks for.
pub(crate) fn values_at(kind: &Kind, packet: &Packet) -> Values
    ensures { result ≡ defined.values_at kind.now packet.now }
{
    Values {
        src: bits_at(kind.src, &packet.src),
        dst: bits_at(kind.dst, &packet.dst),
        dport: if kind.dport { packet.dport } else { 0 },
        protocol: if kind.protocol {
            protocol_number(packet.protocol)
        } else {
            0
        },
    }
}

fn bits_at(prefix: Option<Prefix>, addr: &Addr) -> u128
    ensures { result ≡ defined.bits_at prefix addr.now }
{
    match prefix {
        Some(prefix) => first_bits(addr, prefix.length),
        None => 0,
    }
}

/// The first address of the network that has the address, at a prefix of this length or, where the family has none so
/// long, at its longest.
fn first_bits(addr: &Addr, length: u8) -> u128
    ensures { result ≡ defined.first_bits addr.now length }
{
    start_of(&Cidr {
        addr: *addr,
        prefix: length_within(addr, length),
    })
}

fn length_within(addr: &Addr, length: u8) -> u8
    ensures { result ≡ min length (longest_prefix addr.now.family) }
{
    length.min(addr.family.longest_prefix())
}

/// The first address of the network.
fn start_of(network: &Cidr) -> u128
    ensures { result ≡ network_bits network.now }
{
    let first = network_of(network);
    let start = first.addr;
    start.bits
}

// ---- numbers

fn chain_number(chain: Chain) -> u8
    ensures { result ≡ defined.chain_code chain }
{
    chain as u8
}

fn family_number(addr: &Addr) -> u8
    ensures { result ≡ defined.family_code addr.now.family }
{
    addr.family as u8
}

fn protocol_number(protocol: Proto) -> u8
    ensures { result ≡ defined.proto_code protocol }
{
    protocol as u8
}
