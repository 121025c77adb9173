//! Packets, and what becomes of them.

ghost use Rattle.std.specs.Prelude.{◌≡◌};

use cni_addr::{Addr, Family};
use cni_result::Proto;
use std::marker::Model;

/// The first packet of a connection, or with `established` a later one. Both addresses have one family.
#[derive(Clone, Copy, Debug, PartialEq, Eq)]
pub struct Packet {
    pub protocol: Proto,
    pub src: Addr,
    pub dst: Addr,
    /// The port that it goes to.
    pub dport: u16,
    /// It is of a connection that stands already.
    pub established: bool,
}

impl Model for Packet {
    ghost use Rattle.packet_probe.specs.Value.{PacketValue, IsPacket};

    ghost Value = { PacketValue };

    ghost view = { λ p. record {
      protocol = p.protocol;
      src = p.src;
      dst = p.dst;
      dport = p.dport;
      established = p.established;
    } };

    ghost invariant = { λ p. IsPacket (record {
      protocol = p.protocol;
      src = p.src;
      dst = p.dst;
      dport = p.dport;
      established = p.established;
    }) };

    ghost inverse = { λ v. record {
      protocol = v.protocol;
      src = v.src;
      dst = v.dst;
      dport = v.dport;
      established = v.established;
    } };
}

impl Packet {
    /// The family of both its addresses.
    pub fn family(&self) -> Family
        ensures { result ≡ self.now.dst.family }
    {
        self.dst.family
    }
}

/// What becomes of a packet.
#[derive(Clone, Copy, Debug, PartialEq, Eq)]
pub struct Fate {
    /// Where it goes, by the rule of the port mapping that rewrote it, if one did.
    pub dst: Addr,
    pub dport: u16,
    /// A rule of a port mapping sends it on, perhaps to where it was going anyway.
    pub rewritten: bool,
    /// A rule lets it through where it is forwarded. Where none does, the host's policy decides, which isn't modelled.
    pub accepted: bool,
    /// It leaves with an address of the host.
    pub masqueraded: bool,
}
