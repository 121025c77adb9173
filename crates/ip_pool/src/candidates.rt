//! Tests of addresses and ranges. None of them takes memory.

ghost use Rattle.std.specs.Prelude.{◌≡◌};
ghost use Rattle.std.specs.List.{list_all, position};
ghost use Rattle.ip_pool.specs.NextAddress.{is_between, is_in, is_candidate};
ghost use Rattle.ip_pool.specs.Pool.{is_apart, are_apart};

use cni_addr::{Addr, Range, RangeSet};

/// Whether the address is of the range's family, not below its start and not above its end. The gateway may be.
pub fn is_between(addr: &Addr, range: &Range) -> bool
    ensures { result ≡ is_between addr.now range.now }
{
    addr.family == range.start.family
        && range.start.bits <= addr.bits
        && addr.bits <= range.end.bits
}

/// Whether the address is a candidate of the range: between its start and its end, and not its gateway.
pub fn is_in_range(addr: &Addr, range: &Range) -> bool
    ensures { result ≡ is_in addr.now range.now }
{
    is_between(addr, range) && *addr != range.gateway
}

/// Whether the address is a candidate of the set, that is of one of its ranges. Takes a step a range.
pub fn contains_candidate(set: &RangeSet, addr: &Addr) -> bool
    ensures { result ≡ is_candidate set.now addr.now }
{
    set.ranges
        .as_slice()
        .iter()
        .any(|range| is_in_range(addr, range))
}

/// Whether no address is between start and end of both ranges. The gateways do not matter, and a range whose start
/// is above its end has no address. [`laws::apart_shares_none`](crate::laws::apart_shares_none) says it of all
/// addresses.
pub fn is_apart(range: &Range, other: &Range) -> bool
    ensures { result ≡ is_apart range.now other.now }
{
    range.start.family != other.start.family
        || range.end.bits.min(other.end.bits) < range.start.bits.max(other.start.bits)
}

/// Whether the range shares no address with any of the others.
fn is_apart_from_all(range: &Range, others: &[Range]) -> bool
    ensures { result ≡ list_all (is_apart range.now) others.now }
{
    others.iter().all(|other| is_apart(range, other))
}

/// Whether no two of the ranges share an address. The steps are the square of their number.
pub fn are_apart(ranges: &[Range]) -> bool
    ensures { result ≡ are_apart ranges.now }
{
    for (place, range) in ranges.iter().enumerate() {
        if !is_apart_from_all(range, &ranges[place + 1..]) {
            return false;
        }
    }
    true
}

/// The place of the range that has the address.
pub(crate) fn place_of(ranges: &[Range], addr: &Addr) -> Option<usize>
    ensures { result ≡ position (is_in addr.now) ranges.now }
{
    ranges.iter().position(|range| is_in_range(addr, range))
}
