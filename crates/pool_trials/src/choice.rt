//! The choice from a set, by the list of the taken addresses and by their runs.

use crate::runs::{add_new, pick_runs_in};
use cni_addr::{Addr, Items, RangeSet};
use ip_pool::{AddrRuns, Steps, Taken, are_apart, contains_candidate, has_free, pick};
use std::alloc::Global;
use std::process::Abort;
use std::sync::ledger::Ledger;

/// The choice, where its conditions hold.
fn pick_in(
    rt: &impl Abort,
    set: &RangeSet,
    last: Option<Addr>,
    taken: &impl Taken,
) -> Option<Addr> {
    assert!(rt; are_apart(set.ranges.as_slice()));
    let picked = match last {
        None => pick(set, None, taken),
        Some(addr) => {
            assert!(rt; contains_candidate(set, &addr));
            pick(set, Some(addr), taken)
        }
    };
    assert_eq!(rt; has_free(set, taken), picked.is_some());
    picked
}

/// The choice, which is the same from the list and from the runs.
fn pick_both<L: Ledger>(
    rt: &impl Abort,
    set: &RangeSet,
    last: Option<&Addr>,
    taken: &Items<Addr>,
    runs: &AddrRuns,
    steps: &mut Steps<L>,
) -> Option<Addr> {
    let picked = pick_in(rt, set, last.copied(), taken);
    let by_runs = pick_runs_in(rt, set, last.copied(), runs, steps);
    assert_eq!(rt; by_runs, picked);
    picked
}

/// Leases the given addresses one after the other, each the next one, where the last one and what is taken are those
/// from before. Tells which address would be next.
pub(crate) fn lease_in_turn<L: Ledger>(
    rt: &impl Abort,
    alloc: Global,
    name: &str,
    set: &RangeSet,
    last: Option<Addr>,
    before: &[Addr],
    given: &[Addr],
    steps: &mut Steps<L>,
) -> Option<Addr> {
    let mut taken = Items::new(alloc);
    let mut runs = AddrRuns::new(alloc);
    for addr in before {
        taken.push(*addr).expect(rt, "memory");
        add_new(rt, &mut runs, addr, steps);
    }
    let mut last = last;
    for addr in given {
        let picked = pick_both(rt, set, last.as_ref(), &taken, &runs, steps);
        assert_eq!(rt; picked, Some(*addr), "in {name}");
        last = picked;
        taken.push(*addr).expect(rt, "memory");
        add_new(rt, &mut runs, addr, steps);
    }
    pick_both(rt, set, last.as_ref(), &taken, &runs, steps)
}
