//! Texts, lists, shared values and network addresses, which every other crate uses.
//!
//! What it promises above:
//!
//! - A [`Text`] is the list of its bytes, an [`Items`] the list of its items and a [`RefCounted`] the value in it,
//!   whatever they share inside; a copy equals what was copied.
//! - An address is a family, IPv4 or IPv6, and a number below the family's bound.
//! - Each reader is equal to a definition, which [`laws`] tie to a grammar both ways: what is spelled is read, and what
//!   is read is spelled. What a writer writes is read again as the same value.
//! - A network has just the addresses of its family from its first to its last.
//! - Out of memory is [`NoMemory`] and nothing else, and only calls that take an allocator, that copy, or that push
//!   answer it.
//!
//! A worked example, of an address that a pool of 10.88.0.0/16 leased:
//!
//! ```text
//! let cidr = read_cidr(b"10.88.0.2/16")?;       // the address 10.88.0.2, bits 0x0a580002, and the prefix 16
//! write_cidr(alloc, &network_of(&cidr))?        // 10.88.0.0/16
//! write_addr(alloc, &last_of(&cidr))?           // 10.88.255.255
//! contains(&cidr, &read_addr(b"10.89.0.1")?)    // false
//! read_cidr(b"10.0.0.0/33")                     // None
//! write_addr(alloc, &read_addr(b"FD00:88:0:0::2")?)?    // fd00:88::2
//! ```
#![tactic(auto)]

pub mod address;
pub mod items;
pub mod laws;
pub mod mac;
pub mod macvlan;
pub mod memory;
pub mod network;
pub mod range;
pub mod read;
pub mod ref_counted;
pub mod text;
pub mod write;

pub use address::{Addr, Cidr, Family};
pub use items::{Items, copies};
pub use mac::Mac;
pub use macvlan::{MacvlanMode, mode_named, mode_text};
pub use memory::{Duplicate, NoMemory};
pub use network::{contains, last_of, network_of, next_addr, whole};
pub use range::{Range, RangeSet};
pub use read::{read_addr, read_cidr, read_mac};
pub use ref_counted::RefCounted;
pub use text::{Text, last_word};
pub use write::{write_addr, write_cidr, write_mac};
