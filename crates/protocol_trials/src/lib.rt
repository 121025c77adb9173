//! Requests between a runtime and its plugins, tried on words, texts and lists that were worked out by hand.
//!
//! That a request is read again, and that the works of all plugins are together the ADD, is proved in `exec_protocol`.
//! What a reader is told and what a line looks like is tried here, and one ADD with both of its plugins.
//!
//! Values are let go by `drop`, and a test ends where memory is refused: the proof of a drop at the end of a scope, or
//! at a question mark, goes through all that the values may hold.
#![tactic(auto)]

#[cfg(test)]
mod chaining;
#[cfg(test)]
mod reading;
#[cfg(test)]
mod samples;
#[cfg(test)]
mod writing;
