//! What the words of the program `cnitool` and the files that they name come to, before anything runs.
//!
//! What it promises above: [`read_due`] gives a [`Due`], which is a plan or a session with what is to be printed of it,
//! or why there is nothing to carry out (`ComesToDue` of `specs/Dues.antt`). Where the files are told, both are those
//! that the definition `verdict_of` (`specs/Verdict.antt`) makes of words and files; a failed read names a file that
//! reading gets to. Where pods are generated no file is read, and the plan is the generator's whatever the files. Each
//! plan is well formed, and the requests that are to be printed are to the plugins of its lists. Each session keeps
//! what every session file keeps (`IsSessionConf` of `session_file`).
//!
//! ```text
//! // words: --threads 4 --requests pods.json net.json
//! let due = read_due(alloc, words, &mut files)?;    // Due::Plan(due)
//! due.threads               // 4
//! due.asked.commands        // CommandPart::Lines
//! due.asked.requests        // Some(..), with net.json's list and its plugins' objects
//! // reg:vlan.json: Due::Session(due), whose due.conf has the tasks of vlan.json
//! // without net.json: NoPlan::Line of {"error":"missing","file":"net.json"}
//! ```
#![tactic(auto)]

pub mod due;
mod generated;
mod laws;
pub mod lines;
pub mod plan;
mod refusals;
mod session;

pub use due::{Due, DuePlan, DueSession, read_due};
pub use lines::USAGE;
pub use plan::NoPlan;
