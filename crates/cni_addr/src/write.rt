//! Writers of texts. Of the texts that its reader takes for a value, each writes the customary one.

ghost use Rattle.std.specs.Prelude.{◌≡◌, IfOk, map, string_bytes};
ghost use Rattle.cni_addr.specs.AddrText.{bits_text, addr_text};
ghost use Rattle.cni_addr.specs.CidrText.{cidr_text};
ghost use Rattle.cni_addr.specs.MacText.{colon, byte_text, mac_text};
ghost use Rattle.std.specs.List.{join_with_byte};

use crate::address::{Addr, Cidr, Family};
use crate::mac::Mac;
use crate::memory::NoMemory;
use crate::text::Text;
use std::alloc::{AllocError, Global};
use std::net::{Ipv4Addr, Ipv6Addr};

/// The text of the address, as `read_addr` reads it: of IPv6 by RFC 5952, section 4, and without the dots that its
/// section 5 has in an IPv4-mapped address.
pub fn write_addr(alloc: Global, addr: &Addr) -> Result<Text, NoMemory>
    ensures { IfOk result (λ t. t ≡ addr_text addr.now) }
{
    match addr.family {
        Family::V4 => write_v4(alloc, addr.bits as u32),
        Family::V6 => write_v6(alloc, addr.bits),
    }
}

/// The text of the IPv4 address with this number.
fn write_v4(alloc: Global, bits: u32) -> Result<Text, NoMemory>
    ensures { IfOk result (λ t. t ≡ bits_text Family.V4 bits) }
{
    Text::of(alloc, Ipv4Addr::from_bits(bits).to_string(alloc)?.as_str())
}

/// The text of the IPv6 address with this number.
fn write_v6(alloc: Global, bits: u128) -> Result<Text, NoMemory>
    ensures { IfOk result (λ t. t ≡ bits_text Family.V6 bits) }
{
    let groups = Ipv6Addr::from_bits(bits).hex_groups();
    Text::of(alloc, groups.to_string(alloc)?.as_str())
}

/// The text of the network, its host bits kept, as `read_cidr` reads it.
pub fn write_cidr(alloc: Global, cidr: &Cidr) -> Result<Text, NoMemory>
    ensures { IfOk result (λ t. t ≡ cidr_text cidr.now) }
{
    let addr = write_addr(alloc, &cidr.addr)?;
    let addr = addr.as_str();
    let prefix = cidr.prefix;
    Text::of(alloc, format!(in alloc; "{addr}/{prefix}")?.as_str())
}

/// The text of the hardware address: its bytes in lower-case hex with colons between them, as `ip link` writes it.
pub fn write_mac(alloc: Global, mac: &Mac) -> Result<Text, NoMemory>
    ensures { IfOk result (λ t. t ≡ mac_text mac.now) }
{
    Text::of(alloc, join_pairs(alloc, &mac.bytes)?.as_str())
}

/// Each byte as two hex digits, with colons between them.
fn join_pairs(alloc: Global, bytes: &[u8]) -> Result<String, AllocError>
    ensures { IfOk result (λ t. string_bytes t ≡ join_with_byte colon (map byte_text bytes.now)) }
{
    let mut text = String::new(alloc);
    for (place, byte) in bytes.iter().enumerate() {
        if place > 0 {
            text.push(':')?;
        }
        text.push_str(hex::encode(alloc, [*byte])?.as_str())?;
    }
    Ok(text)
}
