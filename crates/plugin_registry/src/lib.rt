//! Plugins that a caller brings, and what each of them owes.
//!
//! A [`Plugin`] is a pair of closures: one gives the calls of an ADD, the other its result. It has a name, the options
//! that it needs and the kinds of objects that it makes. Whoever makes one proves that its closures may be called
//! wherever the needs are met, that each call makes objects of the attachment alone, of these kinds (`OwnCalls` in
//! `specs/Own.antt`), and that calls and result are as a [`Promise`] names them for the plugin.
//!
//! To the sessions above it promises just these facts of every plugin of a [`Registry`], and that a registry has each
//! name once where it was filled by [`Registry::add`].
//!
//! ```text
//! let mut registry: Registry<Suite> = Registry::new(alloc);
//! registry.add(Plugin::new(name, needs, kinds, calls, result))?;  // SameName hands it back
//! let plugin = registry.find("guard")?;
//! first_unmet(plugin.needs.as_slice(), task.options.as_slice())   // None, or the need that isn't met
//! plugin.ask_calls(alloc, &ask)?                                  // RuleAppend
//! ```
#![tactic(auto)]

mod ask;
mod laws;
mod needs;
mod plugin;
mod registry;

pub use ask::{Ask, Form, Need, Opt};
pub use laws::own_calls_are_plugins_calls;
pub use needs::{first_unmet, value_of};
pub use plugin::{Calls, Plugin, Promise, Results};
pub use registry::{AddEnd, Registry};
