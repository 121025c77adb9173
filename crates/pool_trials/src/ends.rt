//! Pools of IPv6, at both ends of the address space and large ones, and pools of both families.

ghost use Rattle.std.specs.Prelude.{◌≡◌, ◌<◌};

use crate::choice::lease_in_turn;
use crate::ranges::{addr, range, set_of};
use cni_addr::{Addr, Cidr, Family, Range};
use ip_pool::Steps;
use std::alloc::Global;
use std::marker::Brand;
use std::process::Abort;
use std::sync::ledger::{Blank, Ledger};

fn v6(bits: u128) -> Addr
    ensures { result.family ≡ Family.V6 }
{
    Addr {
        family: Family::V6,
        bits,
    }
}

fn v6_range(start: u128, end: u128, gateway: u128) -> Range {
    Range {
        subnet: Cidr {
            addr: v6(start),
            prefix: 8,
        },
        start: v6(start),
        end: v6(end),
        gateway: v6(gateway),
    }
}

/// Leases these addresses one after the other, each the next one, and tells which would be next.
fn next_after<L: Ledger>(
    rt: &impl Abort,
    alloc: Global,
    name: &str,
    ranges: &[Range],
    given: &[Addr],
    steps: &mut Steps<L>,
) -> Option<Addr> {
    let set = set_of(rt, alloc, ranges);
    lease_in_turn(rt, alloc, name, &set, None, &[], given, steps)
}

fn lease_all<L: Ledger>(rt: &impl Abort, alloc: Global, blank: Blank)
    requires name { blank.name ≡ L.name }
    requires parts { blank.parts ≡ L.parts }
    requires some { 0 < blank.parts }
{
    let mut steps = Steps::<L>::new(blank);

    let top = [v6_range(u128::MAX - 3, u128::MAX, u128::MAX - 2)];
    let given = [v6(u128::MAX - 3), v6(u128::MAX - 1), v6(u128::MAX)];
    let next = next_after(rt, alloc, "the last pool", &top, &given, &mut steps);
    assert_eq!(rt; next, None);

    let ends = [v6_range(u128::MAX, u128::MAX, 0), v6_range(0, 3, 1)];
    let given = [v6(u128::MAX), v6(0), v6(2)];
    let next = next_after(
        rt,
        alloc,
        "the last address and the first",
        &ends,
        &given,
        &mut steps,
    );
    assert_eq!(rt; next, Some(v6(3)));

    let large = [v6_range(1, (1 << 120) - 2, 1)];
    let given = [v6(2), v6(3)];
    let next = next_after(rt, alloc, "a large pool", &large, &given, &mut steps);
    assert_eq!(rt; next, Some(v6(4)));

    let families = [range(2, 3, 1), v6_range(2, 3, 1)];
    let given = [addr(2), addr(3), v6(2)];
    let next = next_after(rt, alloc, "both families", &families, &given, &mut steps);
    assert_eq!(rt; next, Some(v6(3)));
}

/// A pool reaches the last address, a set goes on after it, a pool is large, and families share no address.
#[test]
fn pools_at_the_ends(rt: HostRuntime) {
    lease_all::<Brand>(&rt, rt.alloc(), Blank::new(1));
}
