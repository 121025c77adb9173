//! What comes in and goes out as texts, tried on values from outside: addresses, JSON, results and packets.
//!
//! That each reader and writer is equal to its definition is proved in `cni_addr`, `cni_json`, `cni_result` and
//! `packet_probe`. Which texts are read, and how they are written again, is shown by the rows of `tests/rows` and
//! `tests/readers`. What is tried here are the numbers that addresses stand for, and calls that no program makes.
//!
//! The proof of a test goes through all that is let go of, on each way out of it. So a test ends the process where a
//! call fails, and lets go of what holds much by `drop`.
#![tactic(auto)]

#[cfg(test)]
mod addresses;
#[cfg(test)]
mod json_values;
#[cfg(test)]
mod packets;
#[cfg(test)]
mod results;
