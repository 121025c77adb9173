//! Results, errors and cached results of the Container Network Interface, versions 1.1.0, 1.0.0 and 0.4.0.
//!
//! What it promises above: the types carry every field that the runtime's verbs speak of, each is compared by its
//! fields, and a copy equals what was copied. `to_value` and `error_value` are the specification's JSON, `read_result`
//! is exact with its first refusal, and a result that was printed is read again as the same result. `read_dns` reads
//! the `dns` of a result and that of a plugin's object, `version_named` the text of `cniVersion`, `read_texts` a list
//! of texts, `read_mapping` an entry of `portMappings`, which gives a printed mapping back.
//!
//! ```text
//! let added = read_result(alloc, b"{\"cniVersion\":\"1.0.0\",\"ips\":[{\"address\":\"10.0.0.2/8\"}]}")?;
//! result_line(alloc, &added)? // {"cniVersion":"1.0.0","interfaces":[],"ips":[{"address":"10.0.0.2/8"}]}
//! ```
#![tactic(auto)]

pub mod cached;
pub mod dns;
mod entries;
pub mod error;
mod fields;
pub mod laws;
pub mod mappings;
pub mod printing;
pub mod reading;
pub mod refusal;
pub mod result;
pub mod version;

pub use cached::{Cached, PortMapping, Proto, proto_named, proto_text};
pub use dns::{no_dns, read_dns, read_texts};
pub use error::CniError;
pub use mappings::read_mapping;
pub use printing::{error_value, result_line, to_value};
pub use reading::{read_result, result_of};
pub use refusal::ResultError;
pub use result::{AddResult, Dns, Interface, IpEntry, RouteEntry};
pub use version::{Version, mtu_since_1_1, version_named, version_text};
