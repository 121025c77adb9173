//! Addresses and ranges by their numbers, and what is asked of ranges alone.

ghost use Rattle.std.specs.Prelude.{◌≡◌};

use cni_addr::{Addr, Cidr, Family, Items, Range, RangeSet};
use ip_pool::{contains_candidate, is_apart, is_in_range, laws};
use std::alloc::Global;
use std::process::Abort;

pub(crate) fn addr(bits: u32) -> Addr
    ensures { result.family ≡ Family.V4 }
{
    Addr {
        family: Family::V4,
        bits: u128::from(bits),
    }
}

/// A range. Its subnet plays no part in the choice.
pub(crate) fn range(start: u32, end: u32, gateway: u32) -> Range {
    Range {
        subnet: Cidr {
            addr: addr(start),
            prefix: 24,
        },
        start: addr(start),
        end: addr(end),
        gateway: addr(gateway),
    }
}

pub(crate) fn set_of(rt: &impl Abort, alloc: Global, ranges: &[Range]) -> RangeSet {
    let mut items = Items::new(alloc);
    for range in ranges {
        items.push(*range).expect(rt, "memory");
    }
    RangeSet { ranges: items }
}

#[test]
fn candidates_lack_the_gateway(rt: HostRuntime) {
    let ranges = [range(0x0a01_0001, 0x0a01_0006, 0x0a01_0001)];
    let set = set_of(&rt, rt.alloc(), &ranges);
    for (bits, inside) in [
        (0x0a01_0000, false),
        (0x0a01_0001, false),
        (0x0a01_0002, true),
        (0x0a01_0006, true),
        (0x0a01_0007, false),
    ] {
        assert_eq!(rt; contains_candidate(&set, &addr(bits)), inside, "at {bits}");
    }
    assert!(rt; is_in_range(&addr(3), &range(2, 4, 1)));
}

#[test]
fn ranges_that_touch_lie_apart(rt: HostRuntime) {
    assert!(rt; is_apart(&range(2, 4, 1), &range(5, 9, 1)));
    assert!(rt; !is_apart(&range(2, 5, 1), &range(5, 9, 1)));
    assert!(rt; !is_apart(&range(2, 9, 1), &range(5, 6, 1)));
    assert!(rt;
        is_apart(&range(6, 5, 1), &range(2, 9, 1)),
        "the first has no address"
    );
}

#[test]
fn laws_can_be_called() {
    laws::candidates_are_listed();
    laws::candidates_are_distinct();
    laws::apart_shares_none();
    laws::pick_is_the_next_address();
    laws::next_address_is_one();
    laws::pick_is_a_free_candidate();
    laws::none_where_exhausted();
    laws::choice_depends_on_taken_alone();
}
