//! What a runtime hands to the plugins of a network list, as JSON.
//!
//! To the crates above it promises that the request to each plugin of a list is the plugin's own object with what the
//! runtime replaces in it (`specs/Request.antt`), whatever the list; that the requests of an ADD have each the result
//! of the plugin before (`specs/Adding.antt`); and that a [`RawList`] is the list that `net_conf` reads of the same
//! bytes, refused for the same causes (`specs/Raw.antt`).
//!
//! ```text
//! // the second plugin is {"type":"portmap","capabilities":{"portMappings":true}}
//! let raw = RawList::read(alloc, bytes)?;
//! request_to(alloc, raw.list().get(), raw.object(1), Some(&prev), &mappings, None)?
//! // {"capabilities":{"portMappings":true},"cniVersion":"1.1.0","name":"pods","prevResult":{..},
//! //  "runtimeConfig":{"portMappings":[{"containerPort":80,"hostPort":8080,"protocol":"tcp"}]},"type":"portmap"}
//! requests_of_add(alloc, &raw, &add, &addrs)?   // one to each plugin, as that one
//! ```
#![tactic(auto)]

pub mod adding;
pub mod laws;
pub mod raw_list;
pub mod writing;

pub use adding::requests_of_add;
pub use laws::a_raw_list_has_its_list;
pub use raw_list::RawList;
pub use writing::request_to;
