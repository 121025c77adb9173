//! Plans, the book that carries them out, and what is true of every history.
//!
//! A world is a plan, its history, the answers given and the current round (`specs/World.antt`); the host and each
//! run's state follow from it. `Legal` says which worlds allowed steps reach, with stops, faults and rounds. A
//! [`Book`] is such a world, and takes the steps: what it promises above is that each step is the definition's, that a
//! refusal of memory changes neither host nor history, and that a round comes to its end. The laws speak of all legal
//! worlds.
//!
//! ```text
//! let plan = Plan::join(lists, pods, None)?;           // or the first refusal: a repeated name, or a missing network
//! let mut book = Book::begin(alloc, plan, kernel)?;    // nothing done, round 0
//! while !book.ended() {
//!     book.round_alone();                              // each command of the round to its answer, in file order
//! }
//! book.answer(1)                                       // what the first command came to
//! every_host_is_sound();                               // a proof above gets a law by calling it
//! ```
#![tactic(auto)]

pub mod book;
mod index;
mod join;
pub mod laws;
pub mod plan;
mod slots;
mod step;
mod task;

pub use book::Book;
pub use join::joined_plans_are_well_formed;
pub use laws::{
    each_answer_is_given, each_command_is_open_after_its_entry, each_entry_is_made,
    each_network_command_has_its_list, each_prefix_is_legal, each_stop_is_counted,
    each_world_of_the_clauses_is_legal, every_answer_is_due, every_call_may_be_made,
    every_entry_follows, every_host_is_sound, file_order_is_kept, legal_worlds_meet_each_clause,
    no_address_is_leased_twice, one_outcome, the_calls_of_an_add_make_the_wanted,
};
pub use plan::{Entry, Plan, PlanError, StepEnd};
