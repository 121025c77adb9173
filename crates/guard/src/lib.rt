//! The plugin `guard`, as a plugin that a registry knows: it lets packets from one address through.
//!
//! It makes no link. For the attachment it appends one rule to the chain in which forwarded packets are judged: what
//! comes from the address of its option `from` is accepted. It is this project's own, and the example by which
//! `docs/REGISTRY.md` tells how such a plugin is written.
//!
//! What it promises above: needs, kinds, calls and result are those of the definitions in `specs/Guard.antt`, and the
//! calls make objects of the attachment alone, all of them rules.
//!
//! ```text
//! // asked for the attachment s/c1/eth0 with the option from=192.0.2.1
//! guard_calls(alloc, &ask)?   // RuleAppend: filter, CNI-FORWARD, from 192.0.2.1/32, ACCEPT, tagged s/c1/eth0
//! guard_result(alloc)?        // {"cniVersion":"1.1.0","interfaces":[]}
//! ```
#![tactic(auto)]

mod plugin;

pub use plugin::{guard_calls, guard_kinds, guard_needs, guard_result};
