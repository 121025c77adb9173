//! What CHECK and STATUS ask of the kernel.
//!
//! To the runs of commands above it promises the questions in their order, each with the call that asks it and the
//! cause that a 'no' stands for (`specs/Questions.antt`): of a CHECK each object that the list makes for the attachment
//! with the addresses and mappings of its cached result, and of a STATUS a free address in each range set and the
//! plugin's master. The calls change nothing.
//!
//! ```text
//! status_questions(alloc, &list, &status)?            // PoolFree of the first range set, lack: NoFreeAddress(0)
//! check_questions(alloc, &list, &check, &cached)?     // HasObj of the bridge, each link, address, route, rule, ..
//! ```
#![tactic(auto)]

mod check;
mod status;

pub use check::{addresses_of_result, check_questions};
pub use status::status_questions;
