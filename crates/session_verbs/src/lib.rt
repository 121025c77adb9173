//! What the verbs do in a session of plugins that a caller brings, call by call.
//!
//! A [`Journal`] has the kernel, the calls that were made and where the task at hand is: [`add::add`],
//! [`check::check`], [`delete::take_back`] and [`collect::collect`] make the calls of a task on it. An ADD leases an
//! address of each range set, asks its plugin for calls and result, and makes them. Each task can be stopped after any
//! of its calls, and any call can fail.
//!
//! To the session above it promises how far each verb goes: to its end, to the task's stop, or to where memory is
//! refused, each time along the states of the task's course (`EndsAs` in `specs/Journal.antt`). The machine is that of
//! the verbs, `specs/Script.antt` of the crate `cni_verbs`, with what a row and a plugin give in place of a network
//! list. Of an ADD it says besides what was made and is to be kept, however it ends (`Adds` and `Fills` in
//! `specs/Adds.antt`), and that its plugin is asked only after an address of each range set was leased.
//!
//! ```text
//! let mut journal = Journal::new(alloc, kernel)?;
//! journal.turn_to(1, None, &[])?;                          // the first task, an ADD
//! add(&mut journal, &plugin, &conf, &task, &mut begun)?    // Over(Added): Begin, RuleAppend, CachePut
//! journal.turn_to(2, Some(1), &[])?;                       // a CHECK that is stopped after one call
//! check(&mut journal, &att, Some(&begun.row), &[])?        // Stopped: CacheGet
//! ```
#![tactic(auto)]

pub mod add;
mod ask;
mod begun;
pub mod check;
pub mod collect;
pub mod delete;
mod journal;
mod lease;
mod part;
mod step;

pub use begun::Begun;
pub use journal::Journal;
pub use part::PartEnd;
