//! The plugins `firewall` and `tuning`: what is forwarded to and from a container, its kernel settings and the values
//! of its link.
//!
//! To the verbs each promises its calls, its result, which is that of `firewall` the one before, and the kinds of
//! objects that DEL takes back. They are those of its record, `firewall_plugin` (`specs/Firewall.antt`) or
//! `tuning_plugin` (`specs/Tuning.antt`), which keeps the laws of a chained plugin ([`laws`]).
//!
//! ```text
//! firewall_calls(alloc, &att, &prev)?       // two RuleAppend for each address
//! tuning_calls(alloc, &conf, &att, &netns)? // SettingSet for each sysctl, LinkSet where the link is changed
//! ```
#![tactic(auto)]

pub mod firewall;
pub mod laws;
pub mod tuning;

pub use firewall::{firewall_calls, firewall_kinds, firewall_result};
pub use tuning::{tuning_calls, tuning_kinds, tuning_result};
