//! Every call of the modelled kernel, tried once on its happy path and once on each refusal.
//!
//! A table has calls written as tokens, each with the reply that is expected of it; a test carries them out in order on
//! a [`TableKernel`](kernel_tables::TableKernel) and compares the replies as they are printed, so that the equations of
//! the calls are held against replies that were worked out by hand. Beside it a
//! [`ListKernel`](kernel_model::ListKernel) makes the same calls: after each row both have one reply and one host.
//! Another test draws the calls by chance.
//!
//! The proof of a test goes through all that is let go of, on each way out of it. So a test ends the process where a
//! call fails, what is put together lets go of nothing, and calls, replies and hosts are let go of by `drop`.
//!
//! What it promises: [`is_allowed`] tells exactly the calls that may be made in a host, so no row makes another one,
//! and [`the_mac_of_abc`] is a derived hardware address worked out.
//!
//! A worked example, of rows on a host that has the device `ens1` alone. A container stands for its attachment to the
//! network `pods` by `eth0`:
//!
//! ```text
//! NsAdd /ns/a => Done
//! Begin c1 /ns/x => NoNs
//! BridgeEnsure cni0 => Done
//! VethAdd c1 /ns/a eth0 veth1 cni0 => Done
//! Begin c1 /ns/a => Taken pods/c1/eth0
//! ```
#![tactic(auto)]

mod allowed;
#[cfg(test)]
mod calls;
#[cfg(test)]
mod objects;
#[cfg(test)]
mod table;
#[cfg(test)]
mod tests;
#[cfg(test)]
mod tokens;
pub mod worked;

pub use allowed::is_allowed;
pub use worked::the_mac_of_abc;
