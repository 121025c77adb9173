//! Addresses in runs, and the choice from them.

ghost use Rattle.std.specs.Prelude.{◌≡◌, ◌<◌};

use crate::ranges::addr;
use cni_addr::{Addr, RangeSet};
use ip_pool::{AddrRuns, Steps, are_apart, contains_candidate, has_free_runs, pick_runs};
use std::alloc::Global;
use std::marker::Brand;
use std::process::Abort;
use std::sync::ledger::{Blank, Ledger};

/// Adds an address, unless it is there.
pub(crate) fn add_new<L: Ledger>(
    rt: &impl Abort,
    runs: &mut AddrRuns,
    addr: &Addr,
    steps: &mut Steps<L>,
) {
    if runs.through(addr, steps).is_none() {
        runs.reserve_one().expect(rt, "memory");
        runs.add(addr);
    }
}

/// The choice from runs, where its conditions hold.
pub(crate) fn pick_runs_in<L: Ledger>(
    rt: &impl Abort,
    set: &RangeSet,
    last: Option<Addr>,
    runs: &AddrRuns,
    steps: &mut Steps<L>,
) -> Option<Addr> {
    assert!(rt; are_apart(set.ranges.as_slice()));
    let free = has_free_runs(set, runs, steps);
    let picked = match last {
        None => pick_runs(set, None, runs, steps),
        Some(addr) => {
            assert!(rt; contains_candidate(set, &addr));
            pick_runs(set, Some(addr), runs, steps)
        }
    };
    assert_eq!(rt; free, picked.is_some());
    picked
}

fn join_and_split<L: Ledger>(rt: &impl Abort, alloc: Global, blank: Blank)
    requires name { blank.name ≡ L.name }
    requires parts { blank.parts ≡ L.parts }
    requires some { 0 < blank.parts }
{
    let mut steps = Steps::<L>::new(blank);
    let mut runs = AddrRuns::new(alloc);
    for bits in [3, 5, 9, 4] {
        add_new(rt, &mut runs, &addr(bits), &mut steps);
    }
    for (from, end) in [(3, Some(5)), (5, Some(5)), (6, None), (9, Some(9))] {
        let through = runs.through(&addr(from), &mut steps);
        assert_eq!(rt; through, end.map(addr), "before the removal, from {from}");
    }
    let found = runs.remove(&addr(4));
    assert!(rt; found);
    let again = runs.remove(&addr(4));
    assert!(rt; !again);
    for (from, end) in [(3, Some(3)), (4, None), (5, Some(5)), (9, Some(9))] {
        let through = runs.through(&addr(from), &mut steps);
        assert_eq!(rt; through, end.map(addr), "after the removal, from {from}");
    }
}

#[test]
fn runs_join_and_split(rt: HostRuntime) {
    join_and_split::<Brand>(&rt, rt.alloc(), Blank::new(1));
}

#[test]
fn counting_takes_no_bytes(rt: HostRuntime) {
    assert_eq!(rt; size_of::<Steps<Brand>>(), 0);
    assert_eq!(rt; size_of::<(Addr, Steps<Brand>)>(), size_of::<Addr>());
}
