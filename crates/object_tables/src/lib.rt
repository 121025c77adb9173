//! Tables of a host's objects, which are found by what they have.
//!
//! What the crate promises above: a [`Table`] means the list of its rows, in the order in which they came, and each
//! answer and each change is said of that list. A [`Row`] says what it is found by: a key and an alias, which no other
//! row of its table has, and an owner, a network and a site, which it may share; each kind of object is such a row.
//! Of each network the leased addresses are kept in runs ([`leased`]), which say what the list of leases says.
//!
//! A table keeps its rows at places, an index of the places by key, one by alias, and trails: of each owner, of each
//! network and of each site the places of its rows. A row that goes leaves its place empty, and a trail forgets that
//! where it is walked, so a table pays once for each of them. The indexes hash under a digest ([`KeyedState`]), so that
//! nobody who picks names and addresses makes a look-up slow. That they are used is no promise of a contract.
//!
//! ```text
//! let mut leases = Table::new(alloc, KeyedState::of(&digest));
//! leases.push(alloc, Lease::of(&att, addr)?)?;   // where no lease has the address
//! leases.has_owned(&att)                         // true
//! leases.take_first_owned(&att)                  // Some(lease), and the table means [] again
//! ```
#![tactic(auto)]

mod groups;
mod indexes;
mod keyed;
pub mod leased;
mod row;
mod rows;
mod table;
mod walks;

pub use keyed::{KeyedMap, KeyedState};
pub use row::{Change, Row, Test};
pub use table::Table;
