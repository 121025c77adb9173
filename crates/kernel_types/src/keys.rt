//! The keys of objects: a sound host has at most one object of each key, in each of its lists.
//!
//! A link's key is its [`LinkKey`](crate::LinkKey), and a rule is its own.

ghost use Rattle.std.specs.Prelude.{◌≡◌, IfOk};
ghost use Rattle.kernel_types.specs.Keys.{addr_key, route_key, setting_key};

use crate::object::{AddrObj, RouteObj, Setting};
use cni_addr::{Addr, Cidr, Duplicate, NoMemory, Text};

/// The place of an address on a link, whatever its prefix.
#[derive(PartialEq, Eq, PartialOrd, Ord, Hash, Drop)]
pub struct AddrKey {
    pub ns: Text,
    pub link: Text,
    pub addr: Addr,
}

impl AddrKey {
    /// The key of this address.
    pub fn of(address: &AddrObj) -> Result<AddrKey, NoMemory>
        ensures { IfOk result (λ key. key ≡ addr_key address.now) }
    {
        Ok(AddrKey {
            ns: address.ns.copy()?,
            link: address.link.copy()?,
            addr: address.cidr.addr,
        })
    }
}

/// The place and the destination of a route, whatever its gateway.
#[derive(PartialEq, Eq, PartialOrd, Ord, Hash, Drop)]
pub struct RouteKey {
    pub ns: Text,
    pub dst: Cidr,
    pub link: Text,
}

impl RouteKey {
    /// The key of this route.
    pub fn of(route: &RouteObj) -> Result<RouteKey, NoMemory>
        ensures { IfOk result (λ key. key ≡ route_key route.now) }
    {
        Ok(RouteKey {
            ns: route.ns.copy()?,
            dst: route.dst,
            link: route.link.copy()?,
        })
    }
}

/// The name of a setting in its namespace.
#[derive(PartialEq, Eq, PartialOrd, Ord, Hash, Drop)]
pub struct SettingKey {
    pub ns: Text,
    pub key: Text,
}

impl SettingKey {
    /// The key of this setting.
    pub fn of(setting: &Setting) -> Result<SettingKey, NoMemory>
        ensures { IfOk result (λ key. key ≡ setting_key setting.now) }
    {
        Ok(SettingKey {
            ns: setting.ns.copy()?,
            key: setting.key.copy()?,
        })
    }
}

/// A range set of a network.
#[derive(PartialEq, Eq, PartialOrd, Ord, Hash, Drop)]
pub struct PoolKey {
    pub network: Text,
    /// The number of the range set in its network's list, from 0.
    pub set: u32,
}
