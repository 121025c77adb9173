//! The plugins `bridge` and `ptp`: a veth pair between a container and the host.
//!
//! To the verbs each promises the calls before an address is leased, the calls after it, the result, and the kinds of
//! objects that DEL takes back. They are those of its record, `bridge_plugin` (`specs/Bridge.antt`) or `ptp_plugin`
//! (`specs/Ptp.antt`), which keeps the laws of a first plugin ([`laws`]).
//!
//! ```text
//! bridge_before(alloc, &conf, &att, &netns)?        // BridgeEnsure, VethAdd
//! bridge_after(alloc, &conf, &att, &netns, &given)? // AddrAdd for each address, and so on
//! ```
#![tactic(auto)]

pub mod bridge;
mod interfaces;
pub mod laws;
pub mod ptp;
mod veth;

pub use bridge::{bridge_after, bridge_before, bridge_kinds, bridge_result};
pub use ptp::{ptp_after, ptp_before, ptp_kinds, ptp_result};
