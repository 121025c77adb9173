//! Network lists: the configuration of a network, as an engine wrote it.
//!
//! What it promises above: [`read_list`] gives exactly the network list that the definition `list_of` of the bytes is
//! (`specs/List.antt`), or its first refusal in the stated order, for every byte string; and a list that is read is
//! well formed ([`network_list_laws`]). Each line of the definition has one function here, one file a plugin.
//!
//! ```text
//! let list = read_list(alloc, b"{\"cniVersion\":\"1.1.0\",\"name\":\"pods\",\"plugins\":[{\"type\":\"bridge\"}]}")?;
//! list.name.as_str()                        // "pods"
//! read_list(alloc, b"{\"cniVersion\":\"9.9\"}") // Err(ConfError::Version { found }) with the text 9.9
//! ```
#![tactic(auto)]

mod accepted;
mod apart;
mod bridge;
mod bridge_modes;
pub mod chained;
mod error;
mod firewall;
pub mod first;
mod ipam;
pub mod laws;
pub mod list;
mod macvlan;
mod members;
pub mod names;
mod plugin;
mod plugins;
mod portmap;
mod ptp;
pub mod range_sets;
mod ranges;
mod read;
mod routes;
mod runtime_keys;
mod sets;
mod tuning;
mod versions;

pub use bridge_modes::{BridgeMode, GatewayRole};
pub use chained::{Chained, ChainedPlugins, FirewallConf, PortmapConf, Sysctl, TuningConf};
pub use error::{ConfError, invalid};
pub use first::{BridgeConf, First, HostLocalConf, MacvlanConf, PtpConf};
pub use ipam::read_ipam;
pub use laws::{network_list_laws, plugin_laws};
pub use list::{DISABLE_CHECK_KEY, DISABLE_GC_KEY, ListHeader, NetList};
pub use members::{DEFAULT_MTU, is_mtu};
pub use names::{is_container_id, is_interface_name, is_network_name};
pub use plugin::{Plugin, plugin_by_type, read_plugin};
pub use plugins::plugin_objects;
pub use range_sets::{MOST_SETS, RangeSets};
pub use read::{decode, list_header, network_list, read_list};
pub use runtime_keys::{asks_for_mappings, is_runtime_key};
