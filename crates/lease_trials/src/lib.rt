//! The leases of an attachment to a network of two sets, and what their addresses mean, tried on addresses and calls
//! that were worked out by hand.
#![tactic(auto)]

#[cfg(test)]
mod tests;
