//! The kernel over tables.

ghost use Rattle.std.specs.Prelude.{◌≡◌, true, IfOk, OnErr, IsOk};
ghost use Rattle.kernel_types.specs.Apply.{apply};
ghost use Rattle.kernel_types.specs.Allowed.{IsAllowed};
ghost use Rattle.kernel_types.specs.Replies.{needs_no_memory};
ghost use Rattle.kernel_types.specs.Sound.{IsSound};

use cni_addr::NoMemory;
use host_tables::{TableKey, Tables};
use kernel_model::Kernel;
use kernel_types::{Call, Host, Reply};
use std::alloc::Global;
use std::marker::Model;

/// Makes one call, by the method that is its equation.
fn carry_out(tables: &mut Tables, alloc: Global, call: &Call) -> Result<Reply, NoMemory>
    requires allowed { IsAllowed tables.old call.now }
    requires sound { IsSound tables.old }
    ensures ok { IfOk result (λ reply. (tables.new, reply) ≡ apply tables.old call.now) }
    ensures err { OnErr result (tables.new ≡ tables.old) }
    ensures frees { needs_no_memory call.now ≡ true → IsOk result }
{
    match call {
        Call::Begin { att, netns } => tables.begin(att, netns),
        Call::BridgeEnsure { name, mtu, promisc } => {
            tables.bridge_ensure(alloc, name, *mtu, *promisc)
        }
        Call::GatewayEnsure { bridge, cidr } => tables.gateway_ensure(alloc, bridge, *cidr),
        Call::ForwardEnsure { family } => tables.forward_ensure(alloc, *family),
        Call::VethAdd {
            host_end,
            inner_end,
        } => tables.veth_add(alloc, host_end.get(), inner_end.get()),
        Call::MacvlanAdd { link } => tables.macvlan_add(alloc, link.get()),
        Call::LinkSet {
            att,
            key,
            mac,
            mtu,
            tx_qlen,
            promisc,
            allmulti,
        } => Ok(tables.link_set(att, key, *mac, *mtu, *tx_qlen, *promisc, *allmulti)),
        Call::AddrAdd { obj } => tables.addr_add(alloc, obj.get()),
        Call::RouteAdd { obj } => tables.route_add(alloc, obj.get()),
        Call::RuleAppend { rule } => tables.rule_append(alloc, rule),
        Call::SettingSet { setting } => tables.setting_set(alloc, setting.get()),
        Call::LeaseNext { att, number, set } => tables.lease_next(alloc, att, *number, set.get()),
        Call::CachePut { att, cached } => tables.cache_put(alloc, att, cached),
        Call::LinkDel { att } => Ok(tables.link_del(att)),
        Call::RuleDel { att } => Ok(tables.rule_del(att)),
        Call::SettingDel { att } => Ok(tables.setting_del(att)),
        Call::LeaseDel { att } => Ok(tables.lease_del(att)),
        Call::CacheDel { att } => Ok(tables.cache_del(att)),
        Call::HasObj { probe } => Ok(tables.has_obj(probe)),
        Call::CacheGet { att } => tables.cache_get(att),
        Call::OwnersOf { network, kind } => tables.owners_of(alloc, network, *kind),
        Call::PoolFree { network, set } => Ok(tables.pool_free(alloc, network, set.get())),
        Call::NsChange { name, add } => tables.ns_change(alloc, name, *add),
        Call::Outside { change } => Ok(tables.outside(change)),
    }
}

/// A kernel that keeps its host in tables, which find each object by its key and the objects of an attachment by their
/// owner.
///
/// A call takes as many look-ups as it names objects, and as many steps as the attachment that it is about has objects.
/// Four go further, and never beyond their own: `OwnersOf` takes a step for each object of its kind and network;
/// `NsChange` that takes a namespace away, for each link and setting in it, and what is on the links; `Outside`, for
/// each rule of its table, or what is on its link; and `HasObj` of a link that nobody owns and that isn't in the host's
/// own namespace, for each link that ever was in the link's. Objects that went cost the first three one more step,
/// once.
/// `LeaseNext` and `PoolFree` take two steps for each range of the set, however many addresses are leased.
#[derive(Drop)]
pub struct TableKernel {
    // Boxed: a kernel is handed from function to function, and each would need room for all its maps on the stack.
    tables: Box<Tables>,
}

impl Model for TableKernel {
    ghost use Rattle.kernel_types.specs.Sound.{IsSound};
    ghost use Rattle.kernel_types.specs.declared.object.Host.{Host};

    ghost Value = { Host };

    ghost view = { λ k. k.tables.value };

    ghost invariant = { λ k. IsSound k.tables.value };
}

impl TableKernel {
    /// The kernel that means this host, of as many steps as the host has objects. The only error is out of memory.
    /// Its hasher has a fixed key: whoever picks names and addresses can make look-ups slow.
    pub fn of_host(alloc: Global, host: Host) -> Result<TableKernel, NoMemory>
        requires { IsSound host }
        ensures { IfOk result (λ kernel. kernel ≡ host) }
    {
        TableKernel::keyed(alloc, &TableKey::FIXED, host)
    }

    /// The same kernel under a hasher with this key. The only error is out of memory.
    pub fn keyed(alloc: Global, key: &TableKey, host: Host) -> Result<TableKernel, NoMemory>
        requires { IsSound host }
        ensures { IfOk result (λ kernel. kernel ≡ host) }
    {
        let tables = Tables::of_host(alloc, key, host)?;
        Ok(TableKernel {
            tables: Box::new(alloc, tables)?,
        })
    }
}

impl Kernel for TableKernel {
    ghost host = { λ k. k };

    fn call(&mut self, alloc: Global, call: &Call) -> Result<Reply, NoMemory> {
        carry_out(&mut *self.tables, alloc, call)
    }

    /// Of as many steps as there ever were objects.
    fn host(&self, alloc: Global) -> Result<Host, NoMemory> {
        self.tables.copy_host(alloc)
    }
}
