//! Where packets go in a host that has all that its cached results want.
//!
//! To a reader of a host's rules the crate promises, of every legal history, that the rules mean for each packet what
//! the network lists and the cached results say (`specs/Packets.antt`): a packet to a published port is sent on to the
//! container, one that leaves a container is masqueraded as the container's list says, and one that is forwarded is let
//! through where the list has `firewall`. So it is where the host is complete (`specs/Complete.antt`): each attachment
//! that has an object has a cached result, and every rule and every lease that this wants is there. Of a host that
//! isn't complete, as after a crash in the midst of an ADD, nothing is promised. What becomes of a packet is defined
//! over the rules alone, in `packet_probe`.
//!
//! ```text
//! every_packet_goes_as_cached() // a proof above gets the law by calling it
//! checked_hosts_are_complete()  // where a CHECK of each attachment finds all that its cached result wants
//! ```
#![tactic(auto)]

pub mod laws;

pub use laws::{checked_hosts_are_complete, every_packet_goes_as_cached};
