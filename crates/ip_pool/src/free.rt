//! The search for a free candidate, one address after the other.

ghost use Rattle.std.specs.Prelude.{◌≡◌, not, ◌&&◌, ◌≤◌, ◌+◌, find};
ghost use Rattle.std.specs.List.{flat_map};
ghost use Rattle.cni_addr.specs.Equal.{addr_eq};
ghost use Rattle.ip_pool.specs.Pool.{candidates_between, candidates_in, is_free, after_last_first};
ghost use Rattle.ip_pool.specs.WayRound.{way_round};

use crate::Taken;
use crate::candidates::place_of;
use cni_addr::{Addr, Range};

/// The range's address with that number.
pub(crate) fn address_at(range: &Range, bits: u128) -> Addr
    requires { bits ≤ range.now.end.bits }
    ensures { result ≡ record { family = range.now.start.family; bits = bits } }
{
    Addr {
        family: range.end.family,
        bits,
    }
}

/// Whether the address is free and not the range's gateway.
fn may_lease<T: Taken>(range: &Range, addr: &Addr, taken: &T) -> bool
    ensures { result ≡ (not (addr_eq addr.now range.now.gateway)
        && is_free (T.taken taken.now) addr.now) }
{
    *addr != range.gateway && !taken.has(addr)
}

/// The first free candidate of the range from the number `low` to below `high`.
fn first_free_below<T: Taken>(range: &Range, low: u128, high: u128, taken: &T) -> Option<Addr>
    requires { high ≤ range.now.end.bits }
    ensures { result ≡ find (is_free (T.taken taken.now))
        (candidates_between range.now low high) }
{
    for bits in low..high {
        let addr = address_at(range, bits);
        if may_lease(range, &addr, taken) {
            return Some(addr);
        }
    }
    None
}

/// The first free candidate of the range from the number `low` to the number `high`. The last one is tried by itself,
/// since the number after it may be no `u128`.
fn first_free_within<T: Taken>(range: &Range, low: u128, high: u128, taken: &T) -> Option<Addr>
    requires { high ≤ range.now.end.bits }
    ensures { result ≡ find (is_free (T.taken taken.now))
        (candidates_between range.now low (high + 1)) }
{
    if high < low {
        return None;
    }
    if let Some(addr) = first_free_below(range, low, high, taken) {
        return Some(addr);
    }
    let last = address_at(range, high);
    if may_lease(range, &last, taken) {
        Some(last)
    } else {
        None
    }
}

/// The first free candidate of the range after the number `last`.
fn first_free_past<T: Taken>(range: &Range, last: u128, taken: &T) -> Option<Addr>
    ensures { result ≡ find (is_free (T.taken taken.now))
        (candidates_between range.now (last + 1) (range.now.end.bits + 1)) }
{
    if range.end.bits <= last {
        return None;
    }
    first_free_within(range, last + 1, range.end.bits, taken)
}

/// The first free candidate of the range.
fn first_free_in<T: Taken>(range: &Range, taken: &T) -> Option<Addr>
    ensures { result ≡ find (is_free (T.taken taken.now)) (candidates_in range.now) }
{
    first_free_within(range, range.start.bits, range.end.bits, taken)
}

/// The first free candidate of the ranges in order.
pub(crate) fn first_free<T: Taken>(ranges: &[Range], taken: &T) -> Option<Addr>
    ensures { result ≡ find (is_free (T.taken taken.now)) (flat_map candidates_in ranges.now) }
{
    for range in ranges {
        if let Some(addr) = first_free_in(range, taken) {
            return Some(addr);
        }
    }
    None
}

/// The first free candidate on the way round from `last`, which `range` has: the rest of that range, the later
/// ranges, the earlier ones, and that range up to `last`.
pub(crate) fn first_free_round<T: Taken>(
    range: &Range,
    earlier: &[Range],
    later: &[Range],
    last: &Addr,
    taken: &T,
) -> Option<Addr>
    requires { last.now.bits ≤ range.now.end.bits }
    ensures { result ≡ find (is_free (T.taken taken.now))
        (way_round range.now earlier.now later.now last.now.bits) }
{
    first_free_past(range, last.bits, taken)
        .or_else(|| first_free(later, taken))
        .or_else(|| first_free(earlier, taken))
        .or_else(|| first_free_within(range, range.start.bits, last.bits, taken))
}

/// The first free candidate of the ranges after `last`, going round at the end.
pub(crate) fn first_free_after<T: Taken>(ranges: &[Range], last: &Addr, taken: &T) -> Option<Addr>
    ensures { result ≡ find (is_free (T.taken taken.now))
        (after_last_first (Some last.now) (flat_map candidates_in ranges.now)) }
{
    match place_of(ranges, last) {
        Some(place) => first_free_round(
            &ranges[place],
            &ranges[..place],
            &ranges[place + 1..],
            last,
            taken,
        ),
        None => first_free(ranges, taken),
    }
}
