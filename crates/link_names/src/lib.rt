//! Names and hardware addresses of links, derived by SHA-256 (FIPS 180-4).
//!
//! What it promises above:
//!
//! - A veth pair's name and addresses are parts of the digest of its attachment, which the crate `kernel_types` makes:
//!   [`host_name_by`], [`host_mac_by`] and [`inner_mac_by`] give them, each equal to a definition.
//! - [`link_mac`] gives the address of a link that no attachment owns, by its name alone. A [`BridgeName`] is a name
//!   that has this address with it.
//! - Each address is a locally administered one (IEEE 802), and only [`host_name_text`] takes memory.
//!
//! A worked example, of `c1` on the network `pods` as `eth0`, whose digest begins fce92e33 9ed3ca06 d62e7dc9 4bd9:
//!
//! ```text
//! host_name_by(&digest)           // vethfce92e33, the host's end
//! host_mac_by(&digest)            // 0a:2e:7d:c9:4b:d9
//! inner_mac_by(&digest)           // 0a:9e:d3:ca:06:d6, of eth0 in the container
//! BridgeName::of(name).mac()      // 0a:14:d5:c9:f9:b7, where the name is cni0
//! ```
#![tactic(auto)]

mod bridge_name;
mod host_name;
mod mac;

pub use bridge_name::BridgeName;
pub use host_name::{host_name_by, host_name_text};
pub use mac::{host_mac_by, inner_mac_by, link_mac};
