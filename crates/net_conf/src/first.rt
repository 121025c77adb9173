//! The first plugin of a list, which makes the interface.

use crate::bridge_modes::{BridgeMode, GatewayRole};
use crate::range_sets::RangeSets;
use cni_addr::{Items, MacvlanMode, Text};
use cni_result::{Dns, RouteEntry};
use link_names::BridgeName;

/// The configuration of `host-local`: an attachment gets one address of each set.
#[derive(PartialEq, Eq, Drop)]
pub struct HostLocalConf {
    pub sets: RangeSets,
    pub routes: Items<RouteEntry>,
}

/// The configuration of `bridge`. In a list that is read, the MTU passes [`is_mtu`](crate::is_mtu).
#[derive(PartialEq, Eq, Drop)]
pub struct BridgeConf {
    pub bridge: BridgeName,
    pub gateway: GatewayRole,
    pub ip_masq: bool,
    pub mtu: u32,
    pub mode: BridgeMode,
    pub ipam: Option<HostLocalConf>,
    pub dns: Dns,
}

/// The configuration of `ptp`. In a list that is read, the MTU passes [`is_mtu`](crate::is_mtu).
#[derive(PartialEq, Eq, Drop)]
pub struct PtpConf {
    pub ip_masq: bool,
    pub mtu: u32,
    pub ipam: HostLocalConf,
    pub dns: Dns,
}

/// The configuration of `macvlan`. In a list that is read, the MTU passes [`is_mtu`](crate::is_mtu).
#[derive(PartialEq, Eq, Drop)]
pub struct MacvlanConf {
    pub master: Text,
    pub mode: MacvlanMode,
    pub mtu: u32,
    pub ipam: Option<HostLocalConf>,
    pub dns: Dns,
}

/// The first plugin of a list.
#[derive(PartialEq, Eq, Drop)]
pub enum First {
    Bridge(BridgeConf),
    Ptp(PtpConf),
    Macvlan(MacvlanConf),
}
