//! The tables of a host.

ghost use Rattle.std.specs.Prelude.{◌≡◌, IfOk};

mod adds;
mod begin;
mod cached;
mod changes;
mod deletions;
mod forwards;
mod leaving;
mod namespaces;
mod opening;
mod outside;
mod own;
mod pool;
mod questions;
mod shared;

use self::forwards::Forwards;
use cni_addr::{NoMemory, RefCounted, Text};
use ip_pool::AddrRuns;
use kernel_types::{
    AddrKey, AddrObj, Att, CachedObj, Host, Last, Lease, Link, LinkKey, NsObj, PoolKey, RouteKey,
    RouteObj, Rule, Setting, SettingKey,
};
use object_tables::{KeyedMap, Table};
use std::alloc::Global;
use std::marker::Model;

/// The tables of a host, and beside the leases the addresses that are leased, network by network.
///
/// A method is named as the call that it carries out. The only error is out of memory, and then the host is as it was.
/// None of them is inlined: who carries out all calls would else clear a stack for all of them at each.
#[derive(Drop)]
pub struct Tables {
    namespaces: Table<Text, Text, Att, Text, NsObj>,
    links: Table<LinkKey, Text, Att, Text, Link>,
    addresses: Table<AddrKey, AddrObj, Att, LinkKey, AddrObj>,
    routes: Table<RouteKey, RouteObj, Att, LinkKey, RouteObj>,
    rules: Table<RefCounted<Rule>, Text, Att, kernel_types::Table, RefCounted<Rule>>,
    settings: Table<SettingKey, Setting, Att, Text, Setting>,
    leases: Table<Lease, Text, Att, Text, Lease>,
    cached: Table<Att, Text, Att, Text, CachedObj>,
    lasts: Table<PoolKey, Text, Att, Text, Last>,
    leased: KeyedMap<Text, AddrRuns>,
    forwards: Forwards,
}

impl Model for Tables {
    ghost use Rattle.kernel_types.specs.declared.object.Host.{Host};
    ghost use Rattle.object_tables.specs.Leased.{AreLeased};

    ghost Value = { Host };

    ghost view = { λ t. record {
      namespaces = t.namespaces;
      links = t.links;
      addresses = t.addresses;
      routes = t.routes;
      rules = t.rules;
      settings = t.settings;
      leases = t.leases;
      cached = t.cached;
      lasts = t.lasts;
    } };

    ghost invariant = { λ t. AreLeased t.leased t.leases };
}

impl Tables {
    /// A copy of the host.
    pub fn copy_host(&self, alloc: Global) -> Result<Host, NoMemory>
        ensures { IfOk result (λ host. host ≡ self.now) }
    {
        Ok(Host {
            namespaces: self.namespaces.copies(alloc)?,
            links: self.links.copies(alloc)?,
            addresses: self.addresses.copies(alloc)?,
            routes: self.routes.copies(alloc)?,
            rules: self.rules.copies(alloc)?,
            settings: self.settings.copies(alloc)?,
            leases: self.leases.copies(alloc)?,
            cached: self.cached.copies(alloc)?,
            lasts: self.lasts.copies(alloc)?,
        })
    }
}
