//! One round of a book, carried out by several threads.
//!
//! The book lies under one lock, in a `Shared` (`src/shared.rt`), and a step is one hold of it. Whenever the lock is
//! free, the invariant of `Shared` holds: the book goes on from the one that went in by allowed steps of the round's
//! commands, and each entry made since is counted.
//!
//! Each container of the round belongs to one worker, which steps the container's commands one after another; which
//! worker gets the lock when is left to the machine, so histories may differ from one call to the next. What
//! [`round_threads`] promises does not depend on it: the round is done as by `Book::round_alone`, which is to say that
//! the new book went on from the one that went in by allowed steps of the round's commands, that each of them is
//! answered and the next round is current; the counts of the workers sum up to the round's entries; and where memory is
//! refused, which comes before any worker is started, the book is handed back as it was. It is promised if the call
//! returns: no proof says that a thread gets on.
//!
//! ```text
//! match round_threads(rt, alloc, book, 4, &OpenGate) {     // four workers; the gate holds none back
//!     Ok(rounded) => rounded.counts,                       // four numbers: the entries that each worker made
//!     Err(mut book) => book.round_alone(),                 // no memory for the workers: the same book, by one thread
//! }
//! ```
#![tactic(auto)]

mod counts;
mod crew;
pub mod gate;
mod owners;
pub mod round;
mod shared;
mod workers;

pub use gate::{Gate, OpenGate};
pub use round::{Rounded, round_threads};
