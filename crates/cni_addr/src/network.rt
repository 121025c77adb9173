//! Networks as numbers. No call here takes memory.

ghost use Rattle.std.specs.Prelude.{◌≡◌, ◌+◌, ◌^◌, ◌≤◌};
ghost use Rattle.cni_addr.specs.Network as network;
ghost use Rattle.cni_addr.specs.Value.{bits_below, longest_prefix};

use crate::address::{Addr, Cidr, Family};

impl Family {
    /// The longest prefix of a network: the length of an address in bits.
    pub fn longest_prefix(self) -> u8
        ensures { result ≡ longest_prefix self }
    {
        match self {
            Family::V4 => 32,
            Family::V6 => 128,
        }
    }

    // The number of the family's last address.
    fn last_bits(self) -> u128
        ensures { result + 1 ≡ bits_below self }
    {
        match self {
            Family::V4 => u128::from(u32::MAX),
            Family::V6 => u128::MAX,
        }
    }
}

/// Whether the address is of the network: it has the same family, and the same bits as far as the prefix goes.
pub fn contains(cidr: &Cidr, addr: &Addr) -> bool
    ensures { result ≡ network.contains cidr.now addr.now }
{
    let own = cidr.addr;
    let first = first_bits(cidr);
    own.family == addr.family && first <= addr.bits && addr.bits - first <= host_ones(cidr)
}

/// The network itself: the host bits are cleared.
pub fn network_of(cidr: &Cidr) -> Cidr
    ensures { result ≡ network.network_of cidr.now }
{
    let addr = cidr.addr;
    Cidr {
        addr: Addr {
            family: addr.family,
            bits: first_bits(cidr),
        },
        prefix: cidr.prefix,
    }
}

/// The last address of the network: the host bits are set. In IPv4 it is the broadcast address.
pub fn last_of(cidr: &Cidr) -> Addr
    ensures { result ≡ network.last_of cidr.now }
{
    let addr = cidr.addr;
    Addr {
        family: addr.family,
        bits: first_bits(cidr) + host_ones(cidr),
    }
}

/// The number of the network's first address.
fn first_bits(cidr: &Cidr) -> u128
    ensures { result ≡ network.network_bits cidr.now }
{
    let addr = cidr.addr;
    addr.bits - (addr.bits & host_ones(cidr))
}

/// The number of which the host bits alone are set. The network's size is one more, which is no `u128` for all of IPv6.
fn host_ones(cidr: &Cidr) -> u128
    ensures { result + 1 ≡ network.network_size cidr.now }
{
    low_ones(cidr.addr.family.longest_prefix() - cidr.prefix)
}

/// The number of which so many bits, the lowest, are set.
fn low_ones(count: u8) -> u128
    requires { count ≤ 128 }
    ensures { result + 1 ≡ 2 ^ count }
{
    if count == 128 {
        u128::MAX
    } else {
        (1u128 << count) - 1
    }
}

/// The address with its family's full prefix: the network of this address alone.
pub fn whole(addr: &Addr) -> Cidr
    ensures { result ≡ network.whole addr.now }
{
    Cidr {
        addr: *addr,
        prefix: addr.family.longest_prefix(),
    }
}

/// The address one higher. None comes exactly at the family's last address.
pub fn next_addr(addr: &Addr) -> Option<Addr>
    ensures { result ≡ network.next_addr addr.now }
{
    if addr.bits == addr.family.last_bits() {
        return None;
    }
    Some(Addr {
        family: addr.family,
        bits: addr.bits + 1,
    })
}
