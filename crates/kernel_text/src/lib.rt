//! The modelled kernel as it is printed: owners, calls and replies as texts, an entry of the history as JSON, and the
//! objects of a host as the lines of a dump.
//!
//! What it promises above: each call gives what a definition says, one equation a case. `push_dump` appends `dump_of`
//! of `specs/Dump.antt`: the lines of the host's nine lists, in the order of [`Host`](kernel_types::Host). Members that
//! are absent are left out, and keys stand in byte order. `trace_value` gives `trace_data` of `specs/Replies.antt`, and
//! `push_line` appends any value as a line of its own.
//!
//! ```text
//! tag_text(alloc, &tag)?              // "outside", "base" or "pods/c1/eth0"
//! reply_text(alloc, &Reply::Gone(true))? // "Gone true"
//! trace_value(alloc, 1, 1, &call, &reply)? // {"call":"Begin","i":1,"n":1,"reply":"Done"}
//! push_dump(alloc, &host, &mut lines)? // {"kind":"namespace","name":"/ns/a","tag":"outside"} ..
//! ```
#![tactic(auto)]

mod addresses;
mod bookkeeping;
pub mod dump;
mod links;
pub mod replies;
mod rules;
pub mod tags;
pub mod texts;

pub use dump::{push_dump, push_line};
pub use replies::{call_name, reply_text, trace_value};
pub use tags::{attachment_text, tag_text};
