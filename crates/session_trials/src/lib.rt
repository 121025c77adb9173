//! A plugin that a caller brings, tried by a session: each verb, a stop and a fault.
//!
//! What a session promises is proved of any plugins. Here one is registered, and calls and answers are those that were
//! worked out by hand.
#![tactic(auto)]

#[cfg(test)]
mod suite;
#[cfg(test)]
mod tests;
