//! The choice of the next address, tried on what the real `host-local` plugin leased in its own tests, and on sets that
//! were worked out by hand.
//!
//! That the choice is the first free candidate is proved in `ip_pool`. That the real plugin makes the same one is tried
//! here, from the list of the taken addresses and from their runs. To what the plugin leased and freed when it was run,
//! the program is held by `tests/peers`.
//!
//! The proof of a test goes through all that is let go of, on each way out of it. So a test ends the process where
//! memory runs out.
#![tactic(auto)]

#[cfg(test)]
mod choice;
#[cfg(test)]
mod ends;
#[cfg(test)]
mod ranges;
#[cfg(test)]
mod replay;
#[cfg(test)]
mod rows;
#[cfg(test)]
mod runs;
