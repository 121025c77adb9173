//! What the plugins of a list do one after another, each with the result of the one before.
//!
//! To the crates above it promises definitions: what each plugin does, by its configuration (`specs/Plugins.antt`), and
//! of all plugins of a list the calls of an ADD, its result, the objects that it wants, and the kinds of objects that a
//! DEL takes back (`specs/Wanted.antt`). Whatever its configuration, each plugin keeps what plugins owe
//! (`specs/Laws.antt`). What runs above this crate knows a plugin by its calls, its result and its laws; laws alone
//! tell plugins apart there.
//!
//! ```text
//! // `bridge` with `host-local`, then `tuning` with one `sysctl`, where 10.88.0.2 was leased
//! calls_before(alloc, &list.first, &att, &netns)?          // BridgeEnsure, VethAdd
//! plugin_calls(alloc, &list, &att, &netns, &[], &addrs)?   // calls: AddrAdd, SettingSet; result: that of `tuning`
//! kinds_of(alloc, &list)?                                  // Settings, Links, Leases, Cached
//! ```
#![tactic(auto)]

pub mod laws;
pub mod plugins;
pub mod share;
pub mod wanted;
