//! What a verb calls and what it answers.
//!
//! To the book above it promises definitions: the mappings that reach plugins (`specs/Mappings.antt`), the next call or
//! the end as a function of all replies so far (`specs/Script.antt`), and the answer of each end
//! (`specs/Endings.antt`). A [`Run`] follows the script one reply at a time and keeps no replies: it is seen as the
//! list, the command and the script's state (`specs/Progress.antt`), its next call and its answer are the script's, and
//! to take a reply takes no memory but for a copy of a text or a list that the reply holds: what takes more is made by
//! `prepare`, once after each reply. A command of no network runs too: it is one change from outside. A GC's run is
//! `gc_sweep::GcRun`.
//!
//! ```text
//! let mut run = Run::start(alloc, Some(&list), &add)?;
//! run.prepare()?;
//! run.next()?              // Begin
//! run.take(&Reply::NoNs)?;
//! run.prepare()?;
//! run.next()?              // None
//! run.answer()?            // Refused: code 100, "namespace missing", with the namespace as its details
//! ```
#![tactic(auto)]

mod advance;
mod ending;
pub mod laws;
pub mod mappings;
mod next;
mod over;
mod phase;
mod prepare;
pub mod run;
mod start;

pub use run::Run;
pub use start::early_ending;
