//! What a program prints of a session, and the status that it ends with.
//!
//! What it promises above: [`session_text`] is `text_of_session` of the session and of what is asked for
//! (`specs/SessionText.antt`): a line for each task that has an answer, in order and numbered from 1; then, where they
//! are asked for, the history and the host's objects. A line has the form that it has in the text of a book, by the
//! crate `pod_text`. [`session_status`] is `status_of_session`: 8 where a task ran out of memory, else 1 where one was
//! refused or stopped, else 0.
//!
//! ```text
//! session_text(alloc, &session, SessionAsked { trace: true, dump: false })?
//!                                  // {"n":1,"result":{"cniVersion":"1.1.0", ..},"verb":"ADD"}
//!                                  // {"n":2,"ok":true,"verb":"DEL"}
//!                                  // {"call":"Begin","i":1,"n":1,"reply":"Done"} ..
//! session_status(&session)         // 0
//! ```
#![tactic(auto)]

mod answers;
mod status;
mod text;

pub use status::session_status;
pub use text::session_text;
