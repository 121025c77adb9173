//! Whether ranges share an address.

ghost use Rattle.std.specs.Prelude.{◌≡◌, ◌<◌, filter, None};
ghost use Rattle.std.specs.List.Sorted.{IsNonDecreasingBy, IsPermutation};
ghost use Rattle.ip_pool.specs.Pool as pools;
ghost use Rattle.net_conf.specs.Apart as order;

use cni_addr::{Family, Range};

/// Whether no two of the ranges share an address. They are put in order, and in each family compared with their
/// neighbours alone, so that as many sets as an `ipam` may have take no time in proportion to their square. The order
/// in which it leaves the ranges is not specified: its caller drops them.
pub(crate) fn share_no_address(ranges: &mut [Range]) -> bool
    ensures { result ≡ pools.are_apart ranges.old }
{
    put_in_order(ranges);
    ascend(Family::V4, ranges) && ascend(Family::V6, ranges)
}

fn put_in_order(ranges: &mut [Range])
    ensures moved { IsPermutation ranges.old ranges.new }
    ensures ordered { IsNonDecreasingBy (λ r. r.start.bits) ranges.new }
{
    ranges.sort_unstable_by_key(|range| range.start.bits);
}

/// Whether each range that has addresses of the family starts after the end of the one before it.
fn ascend(family: Family, ranges: &[Range]) -> bool
    ensures { result ≡ order.ascend_after None (filter (order.has_address_of family) ranges.now) }
{
    let mut end = None;
    for range in ranges {
        if has_address_of(family, range) {
            if !starts_after(end, range) {
                return false;
            }
            end = Some(range.end.bits);
        }
    }
    true
}

fn has_address_of(family: Family, range: &Range) -> bool
    ensures { result ≡ order.has_address_of family range.now }
{
    range.start.family == family && range.start.bits <= range.end.bits
}

/// Whether the range starts after this end, where there is one.
fn starts_after(end: Option<u128>, range: &Range) -> bool
    ensures { result ≡ order.starts_after end range.now }
{
    match end {
        None => true,
        Some(end) => end < range.start.bits,
    }
}
