//! What is said of a session of plugins that a caller brings: its definitions and its laws, without the code that runs
//! it.
//!
//! A session is seen by its entries, its rows and the answers of its tasks (`specs/Views.antt`). To who runs one the
//! crate says what is to hold after each task, whatever plugins are registered (`TaskHolds` in `specs/Holds.antt`): the
//! calls are those of the task's course (`specs/Course.antt`), each attachment has nothing but what its last row says,
//! what an ADD made is taken back by a DEL or a GC that succeeds, a CHECK is exact, and each refusal has its cause.
//!
//! To who reads one it promises what any entries by a course do to a host ([`laws`]), and what their answers say
//! ([`laws_of_answers`]); that all of the session's law holds after a task that went by its course ([`steps_hold`]);
//! and that what was there stays (`Grows`), so that it holds of every task of a session ([`each_task_holds`]).
//!
//! ```text
//! steps_hold::<P>()        // a proof above gets the law by calling it
//! each_task_holds::<P>()
//! ```
#![tactic(auto)]

mod answer;
mod entry;
pub mod laws;
pub mod laws_of_answers;
mod row;
mod step_laws;

pub use answer::TaskAnswer;
pub use entry::Entry;
pub use row::Row;
pub use step_laws::{
    each_task_holds, steps_are_seen, steps_grow, steps_hold, steps_keep, steps_keep_places,
    tasks_stay,
};
