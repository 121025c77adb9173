//! The `host-local` plugin: one address of each range set, and what it means by its range.
//!
//! To the verbs it promises the calls that lease, what a leased address is given with, and the part of the result that
//! the first plugin completes (`specs/Leases.antt`, `specs/Results.antt`). It holds no addresses
//! itself: leases live in the modelled kernel. The [`laws`] say that no candidate of a set is dropped
//! (`specs/Laws.antt`).
//!
//! ```text
//! lease_calls(alloc, &conf, &att)? // a LeaseNext of each range set
//! given(&conf, 0, &addr)           // 10.88.0.2/16, by the gateway 10.88.0.1, of the subnet 10.88.0.0/16
//! ```
#![tactic(auto)]

pub mod conf;
pub mod kinds;
pub mod laws;
pub mod leases;
pub mod results;

pub use conf::routes_of;
pub use kinds::interface_kinds;
pub use leases::{given, given_of, lease_at, lease_calls, release_kinds};
pub use results::{ipam_result, ipam_result_of, ips_of};
