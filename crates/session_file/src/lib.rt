//! Session files: a network with its pools, an opening, and the tasks of plugins that a caller brings.
//!
//! What it promises above: [`read_session`] gives exactly the session that the definition `session_of` of the bytes is
//! (`specs/SessionFile.antt`), or its first refusal with the place that is wrong, for every byte string. Every session
//! that is read is well formed ([`session_file_laws`]): its opening is a sound host, its pools are as a network list's,
//! and its tasks are at most 65,536, each of ADD, CHECK, DEL or GC. The types carry every field of a task, also those
//! that its verb doesn't use.
//!
//! The opening and the fields of a task are read as a pod file's are, and the pools as a plugin's `ipam` is.
//!
//! ```text
//! // {"network":"pods","tasks":[{"verb":"ADD","type":"guard","options":{"z":"1","a":"2"}}]}
//! let session = read_session(alloc, bytes)?;
//! session.tasks.as_slice()[0].ifname.as_str() // "eth0"; the options are a, and then z
//!
//! // {"network":"pods","tasks":[{"verb":"FLUSH"}]}
//! read_session(alloc, bytes)                  // Err(PodError::Shape { path }) with tasks[0].verb
//! ```
#![tactic(auto)]

pub mod laws;
mod options;
mod read;
mod session;
mod tasks;

pub use laws::session_file_laws;
pub use read::read_session;
pub use session::{SessionConf, Task};
