//! The mode and the VLAN of a link, and chains and targets as texts.

ghost use Rattle.std.specs.Prelude.{◌≡◌, IfOk};
ghost use Rattle.kernel_text.specs.Texts.{link_mode, vlan_id, chain_text, host_text, target_text};

use cni_addr::{Addr, Family, MacvlanMode, NoMemory, Text, write_addr};
use kernel_types::{Chain, LinkKind, Target};
use std::alloc::Global;

/// The mode of a macvlan link; no other link has one.
pub fn link_mode(kind: LinkKind) -> Option<MacvlanMode>
    ensures { result ≡ link_mode kind }
{
    match kind {
        LinkKind::Macvlan(mode) => Some(mode),
        LinkKind::Device
        | LinkKind::Bridge
        | LinkKind::Veth
        | LinkKind::Dummy
        | LinkKind::Vlan { .. } => None,
    }
}

/// The number of a VLAN link's VLAN; no other link has one.
pub fn vlan_id(kind: LinkKind) -> Option<u16>
    ensures { result ≡ vlan_id kind }
{
    match kind {
        LinkKind::Vlan { id } => Some(id),
        LinkKind::Device
        | LinkKind::Bridge
        | LinkKind::Veth
        | LinkKind::Macvlan(_)
        | LinkKind::Dummy => None,
    }
}

/// The chain by the name that the reference plugins give it.
pub fn chain_text(chain: Chain) -> &'static str
    ensures { result.now ≡ chain_text chain }
{
    match chain {
        Chain::Dnat => "CNI-HOSTPORT-DNAT",
        Chain::HostMasq => "CNI-HOSTPORT-MASQ",
        Chain::Masq => "CNI-MASQ",
        Chain::Forward => "CNI-FORWARD",
    }
}

fn host_text(alloc: Global, addr: &Addr) -> Result<Text, NoMemory>
    ensures { IfOk result (λ text. text ≡ host_text addr.now) }
{
    let text = write_addr(alloc, addr)?;
    match addr.family {
        Family::V4 => Ok(text),
        Family::V6 => {
            let text = text.as_str();
            Text::of(alloc, format!(in alloc; "[{text}]")?.as_str())
        }
    }
}

/// The target as iptables names it; of `DNAT` with its address, of IPv6 in brackets, and its port.
pub fn target_text(alloc: Global, target: &Target) -> Result<Text, NoMemory>
    ensures { IfOk result (λ text. text ≡ target_text target.now) }
{
    match target {
        Target::Accept => Text::of(alloc, "ACCEPT"),
        Target::Masquerade => Text::of(alloc, "MASQUERADE"),
        Target::Dnat { addr, port } => {
            let host = host_text(alloc, addr)?;
            let host = host.as_str();
            Text::of(alloc, format!(in alloc; "DNAT {host}:{port}")?.as_str())
        }
    }
}
