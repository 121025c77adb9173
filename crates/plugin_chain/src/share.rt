//! The objects of an attachment, gathered from the calls that make them.

ghost use Rattle.std.specs.Prelude.{◌≡◌, ◌++◌, ◌∷◌, [], map, OnOk};
ghost use Rattle.plugin_base.specs.Share.{no_objects, share_after_call, share_after_calls};
ghost use Rattle.kernel_types.specs.Terms.{lease_of};

use cni_addr::{Addr, Duplicate, Items, NoMemory, RefCounted};
use cni_result::Cached;
use kernel_types::{
    AddrObj, Att, CachedObj, Call, Lease, Link, LinkValues, RouteObj, Rule, Setting, Tag, set_links,
};
use std::alloc::Global;
use std::marker::Model;

/// Objects of one attachment, list by list. They are shared with the calls that make them, but for the links, which
/// later calls change in place.
#[derive(Drop)]
pub struct Objects {
    pub links: Vec<Link>,
    pub addresses: Vec<RefCounted<AddrObj>>,
    pub routes: Vec<RefCounted<RouteObj>>,
    pub rules: Vec<RefCounted<Rule>>,
    pub settings: Vec<RefCounted<Setting>>,
    pub leases: Vec<RefCounted<Lease>>,
    pub cached: Vec<CachedObj>,
}

impl Model for Objects {
    ghost use Rattle.plugin_base.specs.Share.{Share};

    ghost Value = { Share };

    ghost view = { λ o. record {
      links = o.links.items;
      addresses = o.addresses.items;
      routes = o.routes.items;
      rules = o.rules.items;
      settings = o.settings.items;
      leases = o.leases.items;
      cached = o.cached.items;
    } };
}

/// None of any kind. Takes no memory.
pub fn no_objects(alloc: Global) -> Objects
    ensures { result ≡ no_objects }
{
    Objects {
        links: Vec::new(alloc),
        addresses: Vec::new(alloc),
        routes: Vec::new(alloc),
        rules: Vec::new(alloc),
        settings: Vec::new(alloc),
        leases: Vec::new(alloc),
        cached: Vec::new(alloc),
    }
}

// ---- calls

fn push<T: Drop>(list: &mut Vec<T>, item: T) -> Result<(), NoMemory>
    ensures { OnOk result (list.new.items ≡ list.old.items ++ item ∷ []) }
{
    list.push(item)?;
    Ok(())
}

fn push_both(links: &mut Vec<Link>, first: &Link, second: &Link) -> Result<(), NoMemory>
    ensures { OnOk result (links.new.items ≡ links.old.items ++ first.now ∷ second.now ∷ []) }
{
    push(links, first.copy()?)?;
    push(links, second.copy()?)
}

fn push_cached(
    list: &mut Vec<CachedObj>,
    att: Att,
    cached: RefCounted<Cached>,
) -> Result<(), NoMemory>
    ensures { OnOk result
        (list.new.items ≡ list.old.items ++ record { cached = cached; tag = Tag.Own att } ∷ []) }
{
    let tag = Tag::Own(att);
    push(list, CachedObj { cached, tag })
}

impl Objects {
    /// Takes what the call makes of its attachment's objects. What a lease gives is in its reply, and not taken here.
    fn take_call(&mut self, call: Call) -> Result<(), NoMemory>
        ensures { OnOk result (self.new ≡ share_after_call self.old call) }
    {
        match call {
            Call::VethAdd {
                host_end,
                inner_end,
            } => push_both(&mut self.links, host_end.get(), inner_end.get()),
            Call::MacvlanAdd { link } => push(&mut self.links, link.get().copy()?),
            Call::LinkSet {
                att,
                key,
                mac,
                mtu,
                tx_qlen,
                promisc,
                allmulti,
            } => {
                let values = LinkValues {
                    mac,
                    mtu,
                    tx_qlen,
                    promisc,
                    allmulti,
                };
                set_links(&mut self.links, &att, &key, values);
                Ok(())
            }
            Call::AddrAdd { obj } => push(&mut self.addresses, obj),
            Call::RouteAdd { obj } => push(&mut self.routes, obj),
            Call::RuleAppend { rule } => push(&mut self.rules, rule),
            Call::SettingSet { setting } => push(&mut self.settings, setting),
            Call::CachePut { att, cached } => push_cached(&mut self.cached, att, cached),
            other => {
                drop(other);
                Ok(())
            }
        }
    }

    /// Takes what the calls make, one after another. Linear in the calls, where few of them set a link.
    pub fn take_calls(&mut self, calls: Items<Call>) -> Result<(), NoMemory>
        ensures { OnOk result (self.new ≡ share_after_calls self.old calls) }
    {
        for call in calls.into_vec() {
            self.take_call(call)?;
        }
        Ok(())
    }

    /// Takes the leases of the addresses, in place of the leases that were there.
    pub fn take_leases(&mut self, alloc: Global, att: &Att, addrs: &[Addr]) -> Result<(), NoMemory>
        ensures { OnOk result (self.new ≡ record self.old { leases = map (lease_of att.now) addrs.now }) }
    {
        let mut leases = Vec::with_capacity(alloc, addrs.len())?;
        for addr in addrs {
            let lease = Lease::of(att, *addr)?;
            leases.push(RefCounted::of(alloc, lease)?)?;
        }
        self.leases = leases;
        Ok(())
    }
}
