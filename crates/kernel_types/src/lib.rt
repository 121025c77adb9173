//! The objects, calls and replies of the modelled kernel, and what they mean.
//!
//! A [`Host`] is nine lists: eight of objects that carry an owner's [`Tag`], and the addresses that were leased last.
//! What a [`Call`] does to a host, and its [`Reply`], is the definition `apply` in `specs/Apply.antt`, one equation a
//! call. The plugins' crates make lists of calls; the crate `kernel_model` has a kernel that carries calls out.
//!
//! What it promises above, by the functions of [`laws`], over these definitions:
//!
//! - A call that may be made (`IsAllowed`) leaves a sound host sound (`IsSound`): keys stay distinct, and tags, places
//!   and peers go on to fit. [`opening_with`] gives a sound host to begin with.
//! - A call changes what is its attachment's, or adds what attachments share, and nothing else (`Touches`).
//! - A kernel never replies with a fault, and a leased address was free and is the next of its pool.
//!
//! Each question in [`terms`] and each text in [`texts`] is equal to a definition. Names and hardware addresses come of
//! an attachment alone, by SHA-256.
//!
//! A worked example, of a call in a host that has the namespace `/ns/a` and no link:
//!
//! ```text
//! let att = Att { network: pods, container: c1, ifname: eth0 };
//! Call::Begin { att, netns }                    // Reply::Done: /ns/a is there, and nothing is the attachment's yet
//! Call::BridgeEnsure { name, mtu, promisc }     // Reply::Done: the bridge cni0 is there, with the tag Base
//! Call::VethAdd { host_end, inner_end }         // Reply::Done: both ends are there, with the tag Own(att)
//! Call::Begin { att, netns }                    // Reply::Taken(Own(att))
//! Call::LinkDel { att }                         // Reply::Gone(true): both ends are gone, and the bridge stays
//! ```
#![tactic(auto)]

pub mod call;
mod call_copy;
pub mod keys;
pub mod laws;
pub mod link_values;
pub mod names;
pub mod object;
pub mod opening;
pub mod rule;
pub mod shared;
pub mod terms;
pub mod texts;

pub use call::{Call, Change, Given, Kind, Object, Probe, Reply};
pub use keys::{AddrKey, PoolKey, RouteKey, SettingKey};
pub use link_values::{LinkValues, set_links};
pub use names::{NamedAtt, host_name_bytes};
pub use object::{
    AddrObj, Att, CachedObj, Host, Last, Lease, Link, LinkKey, LinkKind, NsObj, RouteObj, Setting,
    Tag,
};
pub use opening::opening_with;
pub use rule::{Chain, Rule, Table, Target};
pub use texts::{link_kind_text, table_named, table_text};
