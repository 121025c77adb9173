//! Readers of texts, each exactly its grammar.

ghost use Rattle.std.specs.Prelude.{◌≡◌, length};
ghost use Rattle.cni_addr.specs.AddrText.{addr_of_text};
ghost use Rattle.cni_addr.specs.CidrText.{is_slash, begins_plainly, prefix_of_text, cidr_of_text};
ghost use Rattle.cni_addr.specs.MacText.{has_colons, digits_in, mac_of_text};
ghost use Rattle.std.specs.List.{position};

use crate::address::{Addr, Cidr, Family};
use crate::mac::Mac;
use std::net::IpAddr;
use std::str;

/// The address that the text spells: of IPv4 four decimal numbers 0 to 255 without leading zeros, joined by dots (RFC
/// 3986, section 3.2.2, `IPv4address`); of IPv6 groups of hex digits of either case with colons, `::` for one or more
/// groups of zeros, and perhaps four decimal numbers at the end (RFC 4291, section 2.2). A zone (RFC 4007, section 11)
/// is not taken. None comes exactly outside the grammar. Takes no memory.
pub fn read_addr(text: &[u8]) -> Option<Addr>
    ensures { result ≡ addr_of_text text.now }
{
    match IpAddr::parse_ascii(text) {
        Ok(IpAddr::V4(ip)) => Some(Addr {
            family: Family::V4,
            bits: u128::from(ip.to_bits()),
        }),
        Ok(IpAddr::V6(ip)) => Some(Addr {
            family: Family::V6,
            bits: ip.to_bits(),
        }),
        Err(_) => None,
    }
}

/// The address, a slash, and the length of the prefix in decimal without leading zeros, at most the family's longest
/// (RFC 4632, section 3.1). Host bits are kept. None comes exactly outside the grammar. Takes no memory.
pub fn read_cidr(text: &[u8]) -> Option<Cidr>
    ensures { result ≡ cidr_of_text text.now }
{
    let slash = first_slash(text)?;
    let addr = read_addr(&text[..slash])?;
    let prefix = read_prefix(&text[slash + 1..])?;
    if prefix <= addr.family.longest_prefix() {
        Some(Cidr { addr, prefix })
    } else {
        None
    }
}

/// The hardware address that the text spells: six pairs of hex digits of either case, joined by colons. None comes
/// exactly outside the grammar. Takes no memory.
pub fn read_mac(text: &[u8]) -> Option<Mac>
    ensures { result ≡ mac_of_text text.now }
{
    if !has_colons(text) {
        return None;
    }
    let mut bytes = [0; 6];
    match hex::decode_to_slice(digits_in(text), &mut bytes) {
        Ok(()) => Some(Mac { bytes }),
        Err(_) => None,
    }
}

/// Whether the text has the length of six pairs with a colon between each two, and has the colons.
fn has_colons(text: &[u8]) -> bool
    ensures { result ≡ has_colons text.now }
{
    text.len() == 17
        && text[2] == b':'
        && text[5] == b':'
        && text[8] == b':'
        && text[11] == b':'
        && text[14] == b':'
}

/// What stands around the colons.
fn digits_in(text: &[u8]) -> [u8; 12]
    requires { length text.now ≡ 17 }
    ensures { result ≡ digits_in text.now }
{
    [
        text[0], text[1], text[3], text[4], text[6], text[7], text[9], text[10], text[12],
        text[13], text[15], text[16],
    ]
}

/// The place of the first slash.
fn first_slash(text: &[u8]) -> Option<usize>
    ensures { result ≡ position is_slash text.now }
{
    text.iter().position(|byte| *byte == b'/')
}

/// The number below 256 that the text writes in decimal.
fn read_prefix(text: &[u8]) -> Option<u8>
    ensures { result ≡ prefix_of_text text.now }
{
    if !begins_plainly(text) {
        return None;
    }
    match str::from_utf8(text) {
        Ok(digits) => digits.parse::<u8>().ok(),
        Err(_) => None,
    }
}

/// Whether the text begins as a plain number does. `parse` takes a sign and leading zeros too.
fn begins_plainly(text: &[u8]) -> bool
    ensures { result ≡ begins_plainly text.now }
{
    match text {
        [b'+', ..] => false,
        [b'0', ..] => text.len() == 1,
        _ => true,
    }
}
