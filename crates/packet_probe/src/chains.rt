//! The way of a packet through the chains of a host's rules.

ghost use Rattle.std.specs.Prelude.{◌≡◌, List};
ghost use Rattle.std.specs.Option.{option_copied};
ghost use Rattle.kernel_types.specs.declared.rule.Rule.{Rule};
ghost use Rattle.packet_probe.specs.Fate as defined;

use crate::packet::{Fate, Packet};
use crate::rule::{masquerades, matches_in, sent_by};
use cni_addr::{Items, RefCounted};
use kernel_types::{Chain, Host, Rule};

/// Rules in which those of a packet are found.
pub(crate) trait Chains {
    /// The rules in order.
    ghost rules: { Self → List Rule };

    /// The first rule of the chain that matches the packet. Takes no memory.
    fn first_match(&self, chain: Chain, packet: &Packet) -> Option<&RefCounted<Rule>>
        ensures { option_copied result ≡ defined.first_match chain (rules self.now) packet.now };
}

impl Chains for Items<RefCounted<Rule>> {
    ghost rules = { λ rules. rules };

    fn first_match(&self, chain: Chain, packet: &Packet) -> Option<&RefCounted<Rule>> {
        self.as_slice()
            .iter()
            .find(|rule| matches_in(chain, packet, rule.get()))
    }
}

/// What becomes of the packet by the host's rules, which it goes through four times at most. It takes no memory. For
/// many packets there is [`Ruleset`](crate::Ruleset).
pub fn fate(host: &Host, packet: &Packet) -> Fate
    ensures { result ≡ defined.fate_of host.now packet.now }
{
    fate_by(&host.rules, packet)
}

/// What becomes of the packet by these rules. Takes no memory.
pub(crate) fn fate_by<C: Chains>(chains: &C, packet: &Packet) -> Fate
    ensures { result ≡ defined.fate_by (C.rules chains.now) packet.now }
{
    match rewriting(chains, packet) {
        Some(packet) => fate_at(chains, true, &packet),
        None => fate_at(chains, false, packet),
    }
}

/// What becomes of the packet at the destination that it has now.
fn fate_at<C: Chains>(chains: &C, rewritten: bool, packet: &Packet) -> Fate
    ensures { result ≡ defined.fate_at (C.rules chains.now) rewritten packet.now }
{
    Fate {
        dst: packet.dst,
        dport: packet.dport,
        rewritten,
        accepted: any_match(chains, Chain::Forward, packet),
        masqueraded: is_masqueraded(chains, packet),
    }
}

/// The packet with its new destination, where a port mapping has one.
fn rewriting<C: Chains>(chains: &C, packet: &Packet) -> Option<Packet>
    ensures { result ≡ defined.rewriting (C.rules chains.now) packet.now }
{
    if packet.established {
        return None;
    }
    match chains.first_match(Chain::Dnat, packet) {
        Some(rule) => sent_by(packet, rule.get()),
        None => None,
    }
}

fn is_masqueraded<C: Chains>(chains: &C, packet: &Packet) -> bool
    ensures { result ≡ defined.is_masqueraded (C.rules chains.now) packet.now }
{
    !packet.established
        && (any_match(chains, Chain::HostMasq, packet) || first_masquerades(chains, packet))
}

fn first_masquerades<C: Chains>(chains: &C, packet: &Packet) -> bool
    ensures { result ≡ defined.first_masquerades (C.rules chains.now) packet.now }
{
    match chains.first_match(Chain::Masq, packet) {
        Some(rule) => masquerades(rule.get()),
        None => false,
    }
}

fn any_match<C: Chains>(chains: &C, chain: Chain, packet: &Packet) -> bool
    ensures { result ≡ defined.any_match chain (C.rules chains.now) packet.now }
{
    chains.first_match(chain, packet).is_some()
}
