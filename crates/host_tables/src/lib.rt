//! The tables of a host, in which each call looks up what it asks for.
//!
//! To the kernel above, [`Tables`] promises that each call of the kernel that isn't a fault is its equation in a sound
//! host (`kernel_types/specs/Apply/Calls.antt`), that a call takes all its memory before it changes anything, and that
//! those that never need memory take none.
//!
//! Each list of the host is a [`Table`](object_tables::Table), whose rows are found by the key that is distinct in a
//! sound host. Of each network the leased addresses are kept in runs beside its leases, so that the next free one is
//! found in two steps for each range.
//!
//! The tables hash under a key ([`TableKey`]), so that nobody who picks names and addresses makes a look-up slow. That
//! look-ups are used is no promise of a contract; `bench/README.md` has what they are worth.
//!
//! ```text
//! let mut tables = Tables::of_host(alloc, &TableKey::FIXED, opening)?;
//! tables.begin(&att, &netns)?                 // Reply::Done, Reply::NoNs or Reply::Taken
//! tables.lease_next(alloc, &att, 0, &set)?    // Reply::Leased or Reply::Empty
//! tables.copy_host(alloc)?                    // the host after them
//! ```
#![tactic(auto)]

mod table_key;
mod tables;

pub use table_key::TableKey;
pub use tables::Tables;
