//! The execution protocol between a runtime and its plugins, as bytes (CNI specification 1.1.0, section 2).
//!
//! To the crates above it promises that [`read_request`] gives exactly what the definition `request_of_bytes` of the
//! words and the bytes is (`specs/Reading.antt`), or its first refusal in the stated order, for all words and every
//! byte string; that the line which [`request`] writes to a plugin is read again as what it was made of
//! (`specs/Laws.antt`); and that what the plugins of a list make of their requests at an ADD is together the ADD
//! (`specs/Work.antt`, `specs/Works.antt`).
//!
//! ```text
//! // env has the words ADD, c1, /ns/a, eth0 and no arguments
//! let bytes = b"{\"cniVersion\":\"1.1.0\",\"name\":\"pods\",\"type\":\"bridge\"}";
//! read_request(alloc, &env, bytes)?.name.as_str() // "pods"
//! read_request(alloc, &env, b"{}")                // Err(RequestError::Conf(ConfError::Version { found })),
//!                                                 // found empty
//! ```
#![tactic(auto)]

pub mod chaining;
pub mod env;
pub mod error;
pub mod laws;
mod members;
pub mod reading;
pub mod types;
pub mod working;
pub mod writing;

pub use chaining::chain;
pub use env::Env;
pub use error::RequestError;
pub use laws::{a_request_is_read_again, each_work_is_of_the_add};
pub use reading::read_request;
pub use types::{Chain, Request, Work};
pub use working::{chained_work, first_work, work};
pub use writing::{request, request_value};
