//! The same choice where the taken addresses are kept as runs: a run is passed in one step.

ghost use Rattle.std.specs.Prelude.{◌≡◌, ◌+◌, ◌-◌, ◌*◌, ◌≤◌, true, MatchBool, find, length};
ghost use Rattle.std.specs.List.{flat_map};
ghost use Rattle.ip_pool.specs.NextAddress.{is_candidate_or_none, HasFree, IsExhausted, IsPick};
ghost use Rattle.ip_pool.specs.Pool.{candidates_between, candidates_in, is_free, run_of, after_last_first};
ghost use Rattle.ip_pool.specs.Pool.{pick_of, has_free_of, are_apart};
ghost use Rattle.ip_pool.specs.WayRound.{is_gateway_within, way_round};

use crate::addr_runs::AddrRuns;
use crate::candidates::place_of;
use crate::free::address_at;
use crate::step_count::Steps;
use cni_addr::{Addr, Range, RangeSet};
use std::sync::ledger::Ledger;

/// The first free address of the range's family from the number `low` to the number `high`, be it the gateway or not.
fn first_free_address<L: Ledger>(
    range: &Range,
    low: u128,
    high: u128,
    runs: &AddrRuns,
    steps: &mut Steps<L>,
) -> Option<Addr>
    requires { high ≤ range.now.end.bits }
    ensures free { result ≡ find (is_free runs.now.addresses)
        (run_of range.now.start.family low (high + 1 - low)) }
    ensures cost { steps.new ≤ steps.old + 1 }
{
    if high < low {
        return None;
    }
    let addr = address_at(range, low);
    match runs.through(&addr, steps) {
        None => Some(addr),
        Some(end) if end.bits < high => Some(address_at(range, end.bits + 1)),
        Some(_) => None,
    }
}

/// The first free address of the range's family from the number `low` to below `end`.
fn first_free_below<L: Ledger>(
    range: &Range,
    low: u128,
    end: u128,
    runs: &AddrRuns,
    steps: &mut Steps<L>,
) -> Option<Addr>
    requires { end ≤ range.now.end.bits + 1 }
    ensures free { result ≡ find (is_free runs.now.addresses)
        (run_of range.now.start.family low (end - low)) }
    ensures cost { steps.new ≤ steps.old + 1 }
{
    if end <= low {
        return None;
    }
    first_free_address(range, low, end - 1, runs, steps)
}

/// The first free address of the range's family after the number `bits`, up to the number `high`.
fn first_free_above<L: Ledger>(
    range: &Range,
    bits: u128,
    high: u128,
    runs: &AddrRuns,
    steps: &mut Steps<L>,
) -> Option<Addr>
    requires { high ≤ range.now.end.bits }
    ensures free { result ≡ find (is_free runs.now.addresses)
        (run_of range.now.start.family (bits + 1) (high - bits)) }
    ensures cost { steps.new ≤ steps.old + 1 }
{
    if high <= bits {
        return None;
    }
    first_free_address(range, bits + 1, high, runs, steps)
}

/// Whether the gateway has the range's family and a number from `low` to `high`.
fn has_gateway(range: &Range, low: u128, high: u128) -> bool
    ensures { result ≡ is_gateway_within range.now low high }
{
    let gateway = range.gateway;
    gateway.family == range.start.family && low <= gateway.bits && gateway.bits <= high
}

/// The first free candidate of the range from the number `low` to the number `high`.
fn first_free_within<L: Ledger>(
    range: &Range,
    low: u128,
    high: u128,
    runs: &AddrRuns,
    steps: &mut Steps<L>,
) -> Option<Addr>
    requires { high ≤ range.now.end.bits }
    ensures free { result ≡ find (is_free runs.now.addresses)
        (candidates_between range.now low (high + 1)) }
    ensures cost { steps.new ≤ steps.old + 2 }
{
    if !has_gateway(range, low, high) {
        return first_free_address(range, low, high, runs, steps);
    }
    let gateway = range.gateway.bits;
    match first_free_below(range, low, gateway, runs, steps) {
        Some(addr) => Some(addr),
        None => first_free_above(range, gateway, high, runs, steps),
    }
}

/// The first free candidate of the range after the number `last`.
fn first_free_past<L: Ledger>(
    range: &Range,
    last: u128,
    runs: &AddrRuns,
    steps: &mut Steps<L>,
) -> Option<Addr>
    ensures free { result ≡ find (is_free runs.now.addresses)
        (candidates_between range.now (last + 1) (range.now.end.bits + 1)) }
    ensures cost { steps.new ≤ steps.old + 2 }
{
    if range.end.bits <= last {
        return None;
    }
    first_free_within(range, last + 1, range.end.bits, runs, steps)
}

/// The first free candidate of the ranges in order.
fn first_free_of<L: Ledger>(ranges: &[Range], runs: &AddrRuns, steps: &mut Steps<L>) -> Option<Addr>
    ensures free { result ≡ find (is_free runs.now.addresses) (flat_map candidates_in ranges.now) }
    ensures cost { steps.new ≤ steps.old + 2 * length ranges.now }
{
    for range in ranges {
        let low = range.start.bits;
        if let Some(addr) = first_free_within(range, low, range.end.bits, runs, steps) {
            return Some(addr);
        }
    }
    None
}

/// The first free candidate on the way round from `last`, which `range` has.
fn first_free_round<L: Ledger>(
    range: &Range,
    earlier: &[Range],
    later: &[Range],
    last: &Addr,
    runs: &AddrRuns,
    steps: &mut Steps<L>,
) -> Option<Addr>
    requires { last.now.bits ≤ range.now.end.bits }
    ensures free { result ≡ find (is_free runs.now.addresses)
        (way_round range.now earlier.now later.now last.now.bits) }
    ensures cost { steps.new ≤ steps.old + (2 * length later.now + 2 * length earlier.now + 4) }
{
    if let Some(addr) = first_free_past(range, last.bits, runs, steps) {
        return Some(addr);
    }
    if let Some(addr) = first_free_of(later, runs, steps) {
        return Some(addr);
    }
    if let Some(addr) = first_free_of(earlier, runs, steps) {
        return Some(addr);
    }
    first_free_within(range, range.start.bits, last.bits, runs, steps)
}

/// The first free candidate of the ranges after `last`, going round at the end.
fn first_free_after<L: Ledger>(
    ranges: &[Range],
    last: &Addr,
    runs: &AddrRuns,
    steps: &mut Steps<L>,
) -> Option<Addr>
    ensures free { result ≡ find (is_free runs.now.addresses)
        (after_last_first (Some last.now) (flat_map candidates_in ranges.now)) }
    ensures cost { steps.new ≤ steps.old + (2 * length ranges.now + 2) }
{
    match place_of(ranges, last) {
        Some(place) => first_free_round(
            &ranges[place],
            &ranges[..place],
            &ranges[place + 1..],
            last,
            runs,
            steps,
        ),
        None => first_free_of(ranges, runs, steps),
    }
}

/// The address that is leased next, as [`pick`](crate::pick) says, with the taken addresses in runs.
///
/// The steps are at most two for each range and two more, however many addresses are taken. Takes no memory.
pub fn pick_runs<L: Ledger>(
    set: &RangeSet,
    last: Option<Addr>,
    runs: &AddrRuns,
    steps: &mut Steps<L>,
) -> Option<Addr>
    requires apart { are_apart set.now.ranges ≡ true }
    requires last { is_candidate_or_none set.now last ≡ true }
    ensures picks { result ≡ pick_of set.now last runs.now.addresses }
    ensures next { IsPick set.now last runs.now.addresses result }
    ensures cost { steps.new ≤ steps.old + (2 * length set.now.ranges + 2) }
{
    let ranges = set.ranges.as_slice();
    match last {
        None => first_free_of(ranges, runs, steps),
        Some(last) => first_free_after(ranges, &last, runs, steps),
    }
}

/// Whether a candidate of the set is free, as [`has_free`](crate::has_free) says, with the taken addresses in runs.
///
/// The steps are at most two for each range. Takes no memory.
pub fn has_free_runs<L: Ledger>(set: &RangeSet, runs: &AddrRuns, steps: &mut Steps<L>) -> bool
    ensures free { result ≡ has_free_of set.now runs.now.addresses }
    ensures left { MatchBool result
        (HasFree set.now runs.now.addresses) (IsExhausted set.now runs.now.addresses) }
    ensures cost { steps.new ≤ steps.old + 2 * length set.now.ranges }
{
    first_free_of(set.ranges.as_slice(), runs, steps).is_some()
}
