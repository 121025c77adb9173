//! What becomes of a packet by the rules of a host.
//!
//! A packet goes by the chains in the order of its way: a rule of a port mapping may send it on, and with the
//! destination that it has then it may be let through, and may leave with an address of the host. In a chain the first
//! rule that matches decides. Jumps between chains, interfaces and the policy of a host aren't modelled.
//!
//! What it promises above:
//!
//! - [`fate`] gives `fate_of` of the host and the packet (`specs/Fate.antt`), for every host. It goes through the
//!   rules.
//! - A [`Ruleset`] is made of the rules of a host once. For each packet it gives what [`fate`] gives (`fate_by`), by
//!   look-ups that are no more where more rules are alike.
//! - [`read_packets`] gives exactly the packets that the definition `packets_of` of the bytes is
//!   (`specs/PacketFile.antt`), or its first refusal, for every byte string. The addresses of a [`Packet`] have one
//!   family.
//!
//! A worked example, of a host where the container 10.88.0.2 publishes its port 80 as the host's port 8080, and its
//! network masquerades:
//!
//! ```text
//! // [{"protocol":"tcp","src":"192.0.2.7","dst":"198.51.100.1","dport":8080}]
//! let packets = read_packets(alloc, bytes)?;
//! fate(&host, &packets.as_slice()[0])      // rewritten, to 10.88.0.2 port 80; neither accepted nor masqueraded
//! // to port 8081                             nothing becomes of it: it isn't rewritten
//! // from 10.88.0.2 to 198.51.100.9          accepted and masqueraded
//! read_packets(alloc, b"[{\"protocol\":\"icmp\"}]") // Err(PacketsError::Packet { at: 0 })
//! ```
#![tactic(auto)]

mod chains;
mod error;
mod host_rules;
mod kinds;
pub mod packet;
mod read;
mod rule;

pub use chains::fate;
pub use error::PacketsError;
pub use host_rules::Ruleset;
pub use packet::{Fate, Packet};
pub use read::read_packets;
