//! The plugins `dummy` and `vlan`, as plugins that a registry knows.
//!
//! Each makes one link of the container and puts the given addresses on it, as the CNI reference plugins of these names
//! do (CNI plugins documentation, `plugins/main/dummy` and `plugins/main/vlan`). `dummy` makes a link that leads
//! nowhere, `vlan` one that carries a VLAN of a link of the host.
//!
//! What they promise above, wherever the options meet the plugin's needs: the calls and the result are those of the
//! definitions in `specs/DummyVlan.antt`, and the calls make objects of the attachment alone, all of them links or what
//! lies on links ([`laws`]).
//!
//! A worked example, where the attachment `s/c1/eth0` of the namespace `/ns/a` is given the address 10.9.0.2/29:
//!
//! ```text
//! dummy_calls(alloc, &ask)?   // MacvlanAdd: the dummy link eth0 in /ns/a; AddrAdd: 10.9.0.2/29 on it
//! dummy_result(alloc, &ask)?  // eth0 with its hardware address, 1500 and /ns/a; 10.9.0.2/29 on it by 10.9.0.1
//!
//! // with the options master=eth1, vlanId=4094, mtu=68
//! vlan_calls(alloc, &ask)?    // MacvlanAdd: the VLAN link eth0 on eth1 in /ns/a, of 4094 and 68 bytes; AddrAdd
//! ```
#![tactic(auto)]

mod dummy;
mod inner;
pub mod laws;
mod vlan;

pub use dummy::{dummy_calls, dummy_needs, dummy_result};
pub use vlan::{vlan_calls, vlan_needs, vlan_result};
