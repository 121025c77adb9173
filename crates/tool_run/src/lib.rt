//! The top call of the program `cnitool`: it reads words and files, carries out the plan or runs the session that they
//! come to on the modelled kernel, and writes the text.
//!
//! What it promises above: [`run`], by several threads and if it returns, and [`run_alone`], by one, are runs as
//! `IsRunOf` says (`specs/Runs.antt`). They end in one of the ways of `Ends` (`specs/Statuses.antt`): what was to be
//! reported was written, with its status; or the sink gave up after a prefix of it; or memory ran out outside the
//! commands, and nothing was written. What is reported is the text of a book or of a session, or one line: that the
//! words aren't taken, what is refused, or which read failed. The book is of the plan that words and files come to
//! (`tool_plan`), and has the guarantee `IsGuaranteed` of `pod_laws`, whatever the threads; where its host has all that
//! its cached results want, each packet goes as they say (`PacketsGoAsCached` of `packet_laws`). Where one thread makes
//! the rounds, the commands go in the order of the file, and words and files determine what is written and the status,
//! failed reads and writes and running out of memory aside (`IsDetermined`). Of a session each task holds what
//! `EachTaskHolds` of `session_laws` says, by the plugins of the registry that is handed in, each of which keeps what
//! its suite promises. Where the words name no file, none is read.
//!
//! ```text
//! // words: --threads 4 pods.json net.json
//! let outcome = run(&rt, alloc, words, &mut files, &mut sink, &OpenGate, &registry);
//! outcome.status            // 0, and {"n":1,"ok":true,"verb":"DEL"} was written
//! // without net.json: status 3, and {"error":"missing","file":"net.json"}
//! // reg:vlan.json: status 0, and outcome.session is Some(..)
//! // gen:1: status 0, and {"calls":47,"commands":4,"leases":1,"ok":4}
//! run_alone(alloc, words, &mut files, &mut sink, &registry)    // the same on this thread alone
//! ```
#![tactic(auto)]

mod carry;
pub mod kernel;
pub mod laws;
mod report;
mod rounds;
mod session;
mod settle;
pub mod top;

pub use kernel::{FromHost, NodeKernel};
pub use laws::{
    an_undisturbed_status_is_of_its_verdict, each_command_is_answered_at_the_end,
    each_outcome_is_of_its_verdict, refused_words_are_reported,
};
pub use pod_text::{MEMORY_STATUS, NO_WORDS_STATUS};
pub use top::{Ended, Outcome, run, run_alone, run_alone_over, run_over};
