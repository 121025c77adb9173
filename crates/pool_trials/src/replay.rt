//! Sets of addresses as the tests of the real allocator have them.

ghost use Rattle.std.specs.Prelude.{◌≡◌, ◌<◌};

use crate::choice::lease_in_turn;
use crate::ranges::{addr, range};
use crate::rows::ROWS;
use cni_addr::{Addr, Items, RangeSet};
use ip_pool::Steps;
use std::alloc::Global;
use std::marker::Brand;
use std::process::Abort;
use std::sync::ledger::{Blank, Ledger};

/// What the real allocator does with one set, whose ranges are given by start, end and gateway.
pub(crate) struct Recording {
    pub(crate) name: &'static str,
    pub(crate) ranges: &'static [(u32, u32, u32)],
    /// The last address that was leased at the outset, if any was.
    pub(crate) last: Option<u32>,
    /// What is taken at the outset.
    pub(crate) taken: &'static [u32],
    /// What is leased then, in order.
    pub(crate) given: &'static [u32],
    /// No address is left at the end.
    pub(crate) is_full: bool,
}

/// The one range of 10.1.0.0/29 by the defaults, whose last address was leased last: with one address left, and with
/// none.
const SMALL: [Recording; 2] = [
    Recording {
        name: "one address left",
        ranges: &[(0x0a010002, 0x0a010006, 0x0a010001)],
        last: Some(0x0a010006),
        taken: &[0x0a010003, 0x0a010004, 0x0a010005, 0x0a010006],
        given: &[0x0a010002],
        is_full: true,
    },
    Recording {
        name: "no address left",
        ranges: &[(0x0a010002, 0x0a010006, 0x0a010001)],
        last: Some(0x0a010006),
        taken: &[0x0a010002, 0x0a010003, 0x0a010004, 0x0a010005, 0x0a010006],
        given: &[],
        is_full: true,
    },
];

fn set_of(rt: &impl Abort, alloc: Global, ranges: &[(u32, u32, u32)]) -> RangeSet {
    let mut items = Items::new(alloc);
    for (start, end, gateway) in ranges {
        items
            .push(range(*start, *end, *gateway))
            .expect(rt, "memory");
    }
    RangeSet { ranges: items }
}

fn addrs(rt: &impl Abort, alloc: Global, numbers: &[u32]) -> Items<Addr> {
    let mut items = Items::new(alloc);
    for bits in numbers {
        items.push(addr(*bits)).expect(rt, "memory");
    }
    items
}

fn replay<L: Ledger>(rt: &impl Abort, alloc: Global, recording: &Recording, steps: &mut Steps<L>) {
    let set = set_of(rt, alloc, recording.ranges);
    let taken = addrs(rt, alloc, recording.taken);
    let given = addrs(rt, alloc, recording.given);
    let next = lease_in_turn(
        rt,
        alloc,
        recording.name,
        &set,
        recording.last.map(addr),
        taken.as_slice(),
        given.as_slice(),
        steps,
    );
    if recording.is_full {
        assert_eq!(rt; next, None, "at the end of {}", recording.name);
    }
}

fn replay_all<L: Ledger>(rt: &impl Abort, alloc: Global, recordings: &[Recording], blank: Blank)
    requires name { blank.name ≡ L.name }
    requires parts { blank.parts ≡ L.parts }
    requires some { 0 < blank.parts }
{
    let mut steps = Steps::<L>::new(blank);
    for recording in recordings {
        replay(rt, alloc, recording, &mut steps);
    }
}

#[test]
fn rows_of_the_real_allocator(rt: HostRuntime) {
    replay_all::<Brand>(&rt, rt.alloc(), &ROWS, Blank::new(1));
}

#[test]
fn a_small_pool_to_its_end(rt: HostRuntime) {
    replay_all::<Brand>(&rt, rt.alloc(), &SMALL, Blank::new(1));
}
