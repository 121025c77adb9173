//! What a verb answers, and why it refuses.
//!
//! To the crates above it promises definitions: the tests of a command's fields and the first that fails
//! (`specs/CommandFields.antt`), the code and the title of each kind of error (`specs/ErrorKinds.antt`), the error of
//! each cause (`specs/Answers.antt`), and what a check asks of one object, with the cause where it isn't there
//! (`specs/ObjectQuestions.antt`). Every error of the program has its code and its title from here. Nothing here knows
//! plugins, or which calls a verb makes.
//!
//! ```text
//! let cause = add_refusal(alloc, &add)?;                   // its netns is "": Some(BadFields(..))
//! plain_answer(alloc, Version::V1_1, &add, &Ending::Refused(cause))?
//!     // Refused: code 4, "invalid environment variables: CNI_NETNS", without details
//! ```
#![tactic(auto)]

pub mod answer;
pub mod error_kind;
mod errors;
pub mod fields;
mod missed;
pub mod object_questions;

pub use answer::{Answer, Cause, Ending, Missed, Question, Skip, WrongFields};
pub use error_kind::{ErrorKind, memory_error, message_of_field, plain_error, titled_error};
pub use errors::{joined_by_comma, plain_answer, variables_of};
