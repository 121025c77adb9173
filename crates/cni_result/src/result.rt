//! The result of an ADD (CNI specification 1.1.0, section 5, "Result Types": ADD Success).

use crate::version::Version;
use cni_addr::{Addr, Cidr, Duplicate, Items, Mac, NoMemory, Text};

/// A network interface that the plugins made or used. `sandbox` is the network namespace of a container's end and
/// absent on the host; `mtu` came with 1.1.0.
#[derive(PartialEq, Eq, Drop)]
pub struct Interface {
    pub name: Text,
    pub mac: Option<Mac>,
    pub mtu: Option<u32>,
    pub sandbox: Option<Text>,
}

impl Duplicate for Interface {
    fn copy(&self) -> Result<Interface, NoMemory> {
        Ok(Interface {
            name: self.name.copy()?,
            mac: self.mac,
            mtu: self.mtu,
            sandbox: self.sandbox.copy()?,
        })
    }
}

/// An address with its prefix, the gateway of its subnet, and the index of its interface in the result's list.
#[derive(Clone, Copy, PartialEq, Eq)]
pub struct IpEntry {
    pub address: Cidr,
    pub gateway: Option<Addr>,
    pub interface: Option<u32>,
}

impl Duplicate for IpEntry {
    fn copy(&self) -> Result<IpEntry, NoMemory> {
        Ok(*self)
    }
}

/// A route to a destination, by its own gateway or by that of the first address of its family.
#[derive(Clone, Copy, PartialEq, Eq)]
pub struct RouteEntry {
    pub dst: Cidr,
    pub gw: Option<Addr>,
}

impl Duplicate for RouteEntry {
    fn copy(&self) -> Result<RouteEntry, NoMemory> {
        Ok(*self)
    }
}

/// Configuration of name resolution that is handed on and not acted on.
#[derive(PartialEq, Eq, Drop)]
pub struct Dns {
    pub nameservers: Items<Text>,
    pub domain: Text,
    pub search: Items<Text>,
    pub options: Items<Text>,
}

impl Duplicate for Dns {
    fn copy(&self) -> Result<Dns, NoMemory> {
        Ok(Dns {
            nameservers: self.nameservers.copy()?,
            domain: self.domain.copy()?,
            search: self.search.copy()?,
            options: self.options.copy()?,
        })
    }
}

/// What an ADD answers, and what the next plugin of a list gets as `prevResult`.
#[derive(PartialEq, Eq, Drop)]
pub struct AddResult {
    pub version: Version,
    pub interfaces: Items<Interface>,
    pub ips: Items<IpEntry>,
    pub routes: Items<RouteEntry>,
    pub dns: Dns,
}

impl Duplicate for AddResult {
    fn copy(&self) -> Result<AddResult, NoMemory> {
        Ok(AddResult {
            version: self.version,
            interfaces: self.interfaces.copy()?,
            ips: self.ips.copy()?,
            routes: self.routes.copy()?,
            dns: self.dns.copy()?,
        })
    }
}
