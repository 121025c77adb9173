//! Pod files: an opening, and rounds of commands for containers' attachments.
//!
//! What it promises above: [`read_pods`] gives exactly the pod file that the definition `pods_of` of the bytes is
//! (`specs/PodFile.antt`), or its first refusal with the place that is wrong, for every byte string. The types carry
//! every field of a command, also those that its verb doesn't use, and a copy of a command equals it. Every pod file
//! that is read is well formed ([`pod_file_laws`]): its opening is a sound host, and its commands are numbered from 1
//! in file order.
//!
//! Pieces are read by themselves where another file or a request has them: an opening ([`read_opening`]), and the
//! [`fields`] of a command at any [`Place`], which names what is wrong. [`Faults`] tells which calls are to fail.
//!
//! ```text
//! let pods = read_pods(alloc, b"{\"rounds\":[[{\"verb\":\"DEL\",\"network\":\"pods\",\"container\":\"c1\"}]]}")?;
//! pods.rounds.as_slice().len()                           // 1; the command's number is 1, its interface name eth0
//! read_pods(alloc, b"{\"rounds\":[[{\"verb\":\"FLY\"}]]}") // Err(PodError::Shape { path }) with rounds[0][0].verb
//! ```
#![tactic(auto)]

pub mod command;
mod commands;
mod copies;
mod error;
mod faults;
pub mod fields;
mod generated_list;
pub mod generator;
mod indexed;
pub mod laws;
mod links;
mod mappings;
mod opening;
mod place;
pub mod pods;
mod read;
mod rounds;

pub use command::{Command, RawMapping, ValidAtt, Verb, verb_named, verb_text};
pub use error::PodError;
pub use faults::Faults;
pub use generator::{Generated, generate};
pub use laws::{generator_laws, pod_file_laws};
pub use opening::read_opening;
pub use place::Place;
pub use pods::{Pods, Rounds};
pub use read::read_pods;
