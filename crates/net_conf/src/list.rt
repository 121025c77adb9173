//! A network list.

use crate::chained::ChainedPlugins;
use crate::first::First;
use cni_addr::Text;
use cni_result::Version;

/// The key of a list that disables CHECK.
pub const DISABLE_CHECK_KEY: &str = "disableCheck";

/// The key of a list that disables GC.
pub const DISABLE_GC_KEY: &str = "disableGC";

/// What a list says of itself before its plugins: the version that they are asked in, and the network's name.
#[derive(PartialEq, Eq, Drop)]
pub struct ListHeader {
    pub version: Version,
    pub name: Text,
}

/// A network: its name, the version that its plugins are asked in, and the plugins in the order of ADD (CNI
/// specification 1.1.0, section 1, "Configuration format").
#[derive(PartialEq, Eq, Drop)]
pub struct NetList {
    pub version: Version,
    pub name: Text,
    pub disable_check: bool,
    pub disable_gc: bool,
    pub first: First,
    pub chained: ChainedPlugins,
}
