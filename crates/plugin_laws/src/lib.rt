//! What holds of the plugins of every network list: their results and their rules.
//!
//! What it promises above (`specs/Laws.antt`): the result of an ADD is read again as it was printed, and the rules of
//! each plugin stand in its own chains.
//!
//! ```text
//! results_are_readable()         // a proof above gets the law by calling it
//! rules_stand_in_their_chains()
//! ```
#![tactic(auto)]

pub mod laws;

pub use laws::{results_are_readable, rules_stand_in_their_chains};
