//! What a plugin is, and the terms that all plugins share: an attachment's objects, lists in which each key stands
//! once, the calls that ask for objects, and how the address plugin's result is completed.
//!
//! A plugin says in one record what it does (`specs/Plugins.antt`): its calls, the objects that they add, its result.
//! What it owes to the verbs is a record too (`specs/PluginLaws.antt`): above all that its calls add exactly its
//! objects. Both cite the objects' one definition, so that this is a fact about lists, and
//! [`plugins_add_their_shares`](laws::plugins_add_their_shares) is what follows in every host.
//!
//! ```text
//! let addresses = addresses_on(alloc, &att, &netns, &given)?; // each given address once, on the container's end
//! ask_all(&mut calls, addresses)?;                            // one AddrAdd for each
//! ```
#![tactic(auto)]

pub mod asked;
pub mod each_key_once;
pub mod families;
pub mod gateways;
pub mod laws;
pub mod results;
pub mod shapes;

pub use asked::{Asked, halves};
pub use each_key_once::{EachKeyOnce, ask_all};
pub use families::{first_given, first_of_family, has_family};
pub use gateways::Gateways;
pub use results::{completed, inner_interface};
pub use shapes::{
    address_at, address_on, addresses_on, ask_forward, default_route, host_end, host_key,
    inner_end, inner_key, macvlan_link, masquerade_rules, route_at, route_by, route_on, routes_on,
    rule_for_all,
};
