//! Written by tests/peers/write_pool_recordings.py: the rows of the `host-local` plugin's own tests of its allocator.
//!
//! Left out:
//! fresh start, IPv6 (IPv6);
//! last out of range (its last address is no candidate);

use crate::replay::Recording;

pub(crate) const ROWS: [Recording; 16] = [
    Recording {
        name: "fresh start",
        ranges: &[(0x0a000001, 0x0a000006, 0x0a000001)],
        last: None,
        taken: &[],
        given: &[0x0a000002],
        is_full: false,
    },
    Recording {
        name: "fresh start /30",
        ranges: &[(0x0a000001, 0x0a000002, 0x0a000001)],
        last: None,
        taken: &[],
        given: &[0x0a000002],
        is_full: false,
    },
    Recording {
        name: "first taken",
        ranges: &[(0x0a000001, 0x0a000006, 0x0a000001)],
        last: None,
        taken: &[0x0a000002],
        given: &[0x0a000003],
        is_full: false,
    },
    Recording {
        name: "after the last",
        ranges: &[(0x0a000001, 0x0a000006, 0x0a000001)],
        last: Some(0x0a000005),
        taken: &[],
        given: &[0x0a000006],
        is_full: false,
    },
    Recording {
        name: "after the last, two taken",
        ranges: &[(0x0a000001, 0x0a000006, 0x0a000001)],
        last: Some(0x0a000003),
        taken: &[0x0a000004, 0x0a000005],
        given: &[0x0a000006],
        is_full: false,
    },
    Recording {
        name: "round to the beginning",
        ranges: &[(0x0a000001, 0x0a000006, 0x0a000001)],
        last: Some(0x0a000005),
        taken: &[0x0a000006],
        given: &[0x0a000002],
        is_full: false,
    },
    Recording {
        name: "full but for the last itself",
        ranges: &[(0x0a000001, 0x0a000006, 0x0a000001)],
        last: Some(0x0a000003),
        taken: &[0x0a000002, 0x0a000004, 0x0a000005, 0x0a000006],
        given: &[0x0a000003],
        is_full: false,
    },
    Recording {
        name: "two subnets",
        ranges: &[
            (0x0a000001, 0x0a000002, 0x0a000001),
            (0x0a000101, 0x0a000102, 0x0a000101),
        ],
        last: None,
        taken: &[],
        given: &[0x0a000002],
        is_full: false,
    },
    Recording {
        name: "on to the next subnet",
        ranges: &[
            (0x0a000001, 0x0a000002, 0x0a000001),
            (0x0a000101, 0x0a000102, 0x0a000101),
        ],
        last: Some(0x0a000002),
        taken: &[],
        given: &[0x0a000102],
        is_full: false,
    },
    Recording {
        name: "back to the first subnet",
        ranges: &[
            (0x0a000001, 0x0a000002, 0x0a000001),
            (0x0a000101, 0x0a000102, 0x0a000101),
            (0x0a000201, 0x0a000202, 0x0a000201),
        ],
        last: Some(0x0a000202),
        taken: &[],
        given: &[0x0a000002],
        is_full: false,
    },
    Recording {
        name: "out of addresses /30",
        ranges: &[(0x0a000001, 0x0a000002, 0x0a000001)],
        last: None,
        taken: &[0x0a000002],
        given: &[],
        is_full: true,
    },
    Recording {
        name: "out of addresses /29",
        ranges: &[(0x0a000001, 0x0a000006, 0x0a000001)],
        last: None,
        taken: &[0x0a000002, 0x0a000003, 0x0a000004, 0x0a000005, 0x0a000006],
        given: &[],
        is_full: true,
    },
    Recording {
        name: "out of addresses, two subnets",
        ranges: &[
            (0x0a000001, 0x0a000002, 0x0a000001),
            (0x0a000101, 0x0a000102, 0x0a000101),
        ],
        last: None,
        taken: &[0x0a000002, 0x0a000102],
        given: &[],
        is_full: true,
    },
    Recording {
        name: "loop from the beginning",
        ranges: &[(0xc0a80101, 0xc0a80106, 0xc0a80101)],
        last: None,
        taken: &[],
        given: &[0xc0a80102, 0xc0a80103, 0xc0a80104, 0xc0a80105, 0xc0a80106],
        is_full: true,
    },
    Recording {
        name: "loop from the end",
        ranges: &[(0xc0a80101, 0xc0a80106, 0xc0a80101)],
        last: Some(0xc0a80106),
        taken: &[],
        given: &[0xc0a80102, 0xc0a80103, 0xc0a80104, 0xc0a80105, 0xc0a80106],
        is_full: true,
    },
    Recording {
        name: "loop from the middle",
        ranges: &[(0xc0a80101, 0xc0a80106, 0xc0a80101)],
        last: Some(0xc0a80103),
        taken: &[],
        given: &[0xc0a80104, 0xc0a80105, 0xc0a80106, 0xc0a80102, 0xc0a80103],
        is_full: true,
    },
];
