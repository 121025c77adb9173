//! What the runtime keeps of an attachment for DEL, CHECK and GC (CNI specification 1.1.0, section 3, "Cached
//! results").

ghost use Rattle.std.specs.Prelude.{◌≡◌, Some};
ghost use Rattle.cni_result.specs.Mappings.{proto_text, proto_named};

use crate::result::AddResult;
use cni_addr::{Addr, Duplicate, Items, NoMemory, Text};
use std::cmp::Ordering;

/// A transport protocol of a published port.
#[derive(Clone, Copy, Debug, Hash)]
pub enum Proto {
    Tcp,
    Udp,
    Sctp,
}

impl Proto {
    /// Every protocol once.
    pub const ALL: [Proto; 3] = [Proto::Tcp, Proto::Udp, Proto::Sctp];
}

/// The protocol as the `portmap` plugin is configured with it. Takes no memory.
pub fn proto_text(protocol: Proto) -> &'static str
    ensures text { result.now ≡ proto_text protocol }
    ensures named_again { proto_named (proto_text protocol) ≡ Some protocol }
{
    match protocol {
        Proto::Tcp => "tcp",
        Proto::Udp => "udp",
        Proto::Sctp => "sctp",
    }
}

/// The protocol that the text names. Takes no memory.
pub fn proto_named(text: &str) -> Option<Proto>
    ensures { result ≡ proto_named text.now }
{
    Proto::ALL
        .iter()
        .copied()
        .find(|protocol| text == proto_text(*protocol))
}

impl PartialEq for Proto {
    ghost use Rattle.std.specs.Cmp.{partial_equiv_from_equiv, on_equiv, nat_eq_equiv};
    ghost use Rattle.cni_result.specs.Codes.{proto_eq, proto_code};

    ghost eq = { proto_eq };

    ghost laws = { partial_equiv_from_equiv (on_equiv proto_code nat_eq_equiv) };

    fn eq(&self, other: &Proto) -> bool {
        *self as u8 == *other as u8
    }
}

impl Eq for Proto {
    ghost use Rattle.std.specs.Cmp.{on_equiv, nat_eq_equiv};
    ghost use Rattle.cni_result.specs.Codes.{proto_code};

    ghost laws = { on_equiv proto_code nat_eq_equiv };
}

impl PartialOrd for Proto {
    ghost use Rattle.std.specs.Ordering.{as_partial_cmp, nat_cmp, on};
    ghost use Rattle.std.specs.Cmp.{nat_cmp_total, on_total, po, unsigned_ties};
    ghost use Rattle.cni_result.specs.Codes.{proto_code};

    ghost partial_cmp = { as_partial_cmp (on proto_code nat_cmp) };

    ghost laws = { po (on_total proto_code nat_cmp_total) (λ x y. unsigned_ties (proto_code x) (proto_code y)) };

    fn partial_cmp(&self, other: &Proto) -> Option<Ordering> {
        Some(self.cmp(other))
    }
}

impl Ord for Proto {
    ghost use Rattle.std.specs.Prelude.{refl};
    ghost use Rattle.std.specs.Ordering.{nat_cmp, on};
    ghost use Rattle.std.specs.Cmp.{nat_cmp_total, on_total, unsigned_ties};
    ghost use Rattle.cni_result.specs.Codes.{proto_code};

    ghost cmp = { on proto_code nat_cmp };

    ghost total = { on_total proto_code nat_cmp_total };

    ghost matches_partial_cmp = { λ x y. refl };

    ghost matches_eq = { λ x y. unsigned_ties (proto_code x) (proto_code y) };

    fn cmp(&self, other: &Proto) -> Ordering {
        (*self as u8).cmp(&(*other as u8))
    }
}

/// A port of the host that is published to a port of the container (the `portMappings` capability). Without
/// `host_ip` every address of the host is meant.
#[derive(Clone, Copy, PartialEq, Eq)]
pub struct PortMapping {
    pub host_port: u16,
    pub container_port: u16,
    pub protocol: Proto,
    pub host_ip: Option<Addr>,
}

impl Duplicate for PortMapping {
    fn copy(&self) -> Result<PortMapping, NoMemory> {
        Ok(*self)
    }
}

/// A cached result: the namespace and the mappings that the ADD was given, and its result.
#[derive(PartialEq, Eq, Drop)]
pub struct Cached {
    pub netns: Text,
    pub mappings: Items<PortMapping>,
    pub result: AddResult,
}

impl Duplicate for Cached {
    fn copy(&self) -> Result<Cached, NoMemory> {
        Ok(Cached {
            netns: self.netns.copy()?,
            mappings: self.mappings.copy()?,
            result: self.result.copy()?,
        })
    }
}
