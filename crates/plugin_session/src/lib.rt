//! Sessions of plugins that a caller brings: tasks one after another on one network, over any kernel.
//!
//! A [`Session`] runs ADD, CHECK, DEL and GC by the plugins of a `plugin_registry::Registry`: the words of a task are
//! tested here, and its calls are made by `session_verbs`. A row keeps what a plugin gave to an ADD, and later tasks of
//! the attachment go by that. Each task can be stopped after any of its calls, and any call can fail.
//!
//! To its caller it promises after each task what `session_laws` says of a session (`TaskHolds` in the specs of that
//! crate), whatever plugins are registered: the calls are those of the task's course, each attachment has nothing but
//! what its last row says, what an ADD made is taken back by a DEL or a GC that succeeds, a CHECK is exact, and each
//! refusal has its cause. What was there stays (`Grows`), so that all of this holds of every task of a session
//! (`session_laws::each_task_holds`). A session names no registry: what is said of plugins is said of the registry that
//! the task was handed.
//!
//! ```text
//! let mut session = Session::begin(alloc, conf, kernel)?;  // ADD c1 by guard; CHECK c1; DEL c1
//! session.task(&registry);    // Begin, RuleAppend, CachePut
//! session.answer(1)           // Added
//! session.task(&registry);    // CacheGet, HasObj
//! session.task(&registry);    // CacheGet, RuleDel twice, CacheDel twice
//! session.history().len()     // 10
//! ```
#![tactic(auto)]

mod answer;
mod attachments;
mod laws;
mod run;
mod run_add;
mod session;
mod words;

pub use laws::views_are_kept;
pub use session::Session;
