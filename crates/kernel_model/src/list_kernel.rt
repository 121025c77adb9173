//! The kernel over plain lists.

ghost use Rattle.std.specs.Prelude.{◌≡◌, true, IfOk, OnErr, IsOk};
ghost use Rattle.kernel_types.specs.Apply.{apply};
ghost use Rattle.kernel_types.specs.Allowed.{IsAllowed};
ghost use Rattle.kernel_types.specs.Replies.{needs_no_memory};
ghost use Rattle.kernel_types.specs.Sound.{IsSound};

mod adds;
mod begin;
mod cached;
mod changes;
mod deletions;
mod leaving;
mod outside;
mod pool;
mod questions;
mod shared;

use crate::kernel::Kernel;
use cni_addr::{NoMemory, RefCounted, copies};
use kernel_types::{
    AddrObj, CachedObj, Call, Host, Last, Lease, Link, NsObj, Reply, RouteObj, Rule, Setting,
};
use std::alloc::Global;
use std::marker::Model;

/// The lists of a host, with a method for each call that is its equation. They may be any: what the kernel over them
/// keeps is that they mean a sound host.
#[derive(Drop)]
struct HostLists {
    namespaces: Vec<NsObj>,
    links: Vec<Link>,
    addresses: Vec<AddrObj>,
    routes: Vec<RouteObj>,
    rules: Vec<RefCounted<Rule>>,
    settings: Vec<Setting>,
    leases: Vec<Lease>,
    cached: Vec<CachedObj>,
    lasts: Vec<Last>,
}

impl Model for HostLists {
    ghost use Rattle.kernel_types.specs.declared.object.Host.{Host};

    ghost Value = { Host };

    ghost view = { λ k. record {
      namespaces = k.namespaces.items;
      links = k.links.items;
      addresses = k.addresses.items;
      routes = k.routes.items;
      rules = k.rules.items;
      settings = k.settings.items;
      leases = k.leases.items;
      cached = k.cached.items;
      lasts = k.lasts.items;
    } };
}

impl HostLists {
    fn of_host(host: Host) -> HostLists
        ensures { result ≡ host }
    {
        HostLists {
            namespaces: host.namespaces.into_vec(),
            links: host.links.into_vec(),
            addresses: host.addresses.into_vec(),
            routes: host.routes.into_vec(),
            rules: host.rules.into_vec(),
            settings: host.settings.into_vec(),
            leases: host.leases.into_vec(),
            cached: host.cached.into_vec(),
            lasts: host.lasts.into_vec(),
        }
    }

    fn copy_host(&self, alloc: Global) -> Result<Host, NoMemory>
        ensures { IfOk result (λ h. h ≡ self.now) }
    {
        Ok(Host {
            namespaces: copies(alloc, &self.namespaces)?,
            links: copies(alloc, &self.links)?,
            addresses: copies(alloc, &self.addresses)?,
            routes: copies(alloc, &self.routes)?,
            rules: copies(alloc, &self.rules)?,
            settings: copies(alloc, &self.settings)?,
            leases: copies(alloc, &self.leases)?,
            cached: copies(alloc, &self.cached)?,
            lasts: copies(alloc, &self.lasts)?,
        })
    }

    /// Makes one call, by the method that is its equation.
    fn carry_out(&mut self, alloc: Global, call: &Call) -> Result<Reply, NoMemory>
        requires { IsAllowed self.old call.now }
        ensures ok { IfOk result (λ reply. (self.new, reply) ≡ apply self.old call.now) }
        ensures err { OnErr result (self.new ≡ self.old) }
        ensures frees { needs_no_memory call.now ≡ true → IsOk result }
    {
        match call {
            Call::Begin { att, netns } => self.begin(att, netns),
            Call::BridgeEnsure { name, mtu, promisc } => {
                self.bridge_ensure(alloc, name, *mtu, *promisc)
            }
            Call::GatewayEnsure { bridge, cidr } => self.gateway_ensure(alloc, bridge, *cidr),
            Call::ForwardEnsure { family } => self.forward_ensure(alloc, *family),
            Call::VethAdd {
                host_end,
                inner_end,
            } => self.veth_add(host_end.get(), inner_end.get()),
            Call::MacvlanAdd { link } => self.macvlan_add(link.get()),
            Call::LinkSet {
                att,
                key,
                mac,
                mtu,
                tx_qlen,
                promisc,
                allmulti,
            } => Ok(self.link_set(att, key, *mac, *mtu, *tx_qlen, *promisc, *allmulti)),
            Call::AddrAdd { obj } => self.addr_add(obj.get()),
            Call::RouteAdd { obj } => self.route_add(obj.get()),
            Call::RuleAppend { rule } => self.rule_append(rule),
            Call::SettingSet { setting } => self.setting_set(setting.get()),
            Call::LeaseNext { att, number, set } => self.lease_next(att, *number, set.get()),
            Call::CachePut { att, cached } => self.cache_put(att, cached),
            Call::LinkDel { att } => Ok(self.link_del(att)),
            Call::RuleDel { att } => Ok(self.rule_del(att)),
            Call::SettingDel { att } => Ok(self.setting_del(att)),
            Call::LeaseDel { att } => Ok(self.lease_del(att)),
            Call::CacheDel { att } => Ok(self.cache_del(att)),
            Call::HasObj { probe } => Ok(self.has_obj(probe)),
            Call::CacheGet { att } => self.cache_get(att),
            Call::OwnersOf { network, kind } => self.owners_of(alloc, network, *kind),
            Call::PoolFree { network, set } => Ok(self.pool_free(network, set.get())),
            Call::NsChange { name, add } => self.ns_change(name, *add),
            Call::Outside { change } => Ok(self.outside(change)),
        }
    }
}

/// A kernel that keeps the lists of its host.
///
/// A call is linear in them but for four: `LeaseNext` and `PoolFree` scan the leases for each address that they try,
/// `OwnersOf` the owners found so far for each object, and `NsChange` the addresses and routes for each link that goes
/// with the namespace.
#[derive(Drop)]
pub struct ListKernel {
    lists: HostLists,
}

impl Model for ListKernel {
    ghost use Rattle.kernel_types.specs.Sound.{IsSound};
    ghost use Rattle.kernel_types.specs.declared.object.Host.{Host};

    ghost Value = { Host };

    ghost view = { λ k. k.lists };

    ghost invariant = { λ k. IsSound k.lists };
}

impl ListKernel {
    /// The kernel that means this host. Takes no memory.
    pub fn of_host(host: Host) -> ListKernel
        requires { IsSound host }
        ensures { result ≡ host }
    {
        ListKernel {
            lists: HostLists::of_host(host),
        }
    }
}

impl Kernel for ListKernel {
    ghost host = { λ k. k };

    fn call(&mut self, alloc: Global, call: &Call) -> Result<Reply, NoMemory> {
        self.lists.carry_out(alloc, call)
    }

    /// Of as many steps and as much memory as the host has objects.
    fn host(&self, alloc: Global) -> Result<Host, NoMemory> {
        self.lists.copy_host(alloc)
    }
}
