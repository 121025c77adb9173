//! Rounds of a book by several threads, tried over gates that show who is at work.
//!
//! What `pod_threads` promises holds of any threads, also of one after another: that two are at work at one time, that
//! containers go to workers in turn, and how often the gate is passed, is tried here.
#![tactic(auto)]

#[cfg(test)]
mod tests;
