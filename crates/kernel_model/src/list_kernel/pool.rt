//! Addresses of a pool.

ghost use Rattle.std.specs.Prelude.{◌≡◌, true, [], ◌∷◌, ◌++◌, map, IfOk, OnOk, OnErr};
ghost use Rattle.std.specs.List.{list_any};
ghost use Rattle.ip_pool.specs.NextAddress.{is_candidate_or_none};
ghost use Rattle.kernel_types.specs.Allowed.{HasRangesApart};
ghost use Rattle.kernel_types.specs.Terms.{is_lease_at, is_of_pool, last_leased, lease_of, leased_addresses};
ghost use Rattle.kernel_types.specs.Apply.Calls.{moved_last, with_last, lease_next_of, pool_free_of};
ghost use Rattle.ip_pool.specs.Pool.{pick_of};

use super::HostLists;
use cni_addr::{Addr, Duplicate, NoMemory, RangeSet, Text};
use ip_pool::{Taken, has_free, pick};
use kernel_types::terms::last_in;
use kernel_types::{Att, Last, Lease, Reply};

/// The addresses that are leased in a network.
#[derive(Clone, Copy)]
struct NetworkLeases<'a> {
    leases: &'a [Lease],
    network: &'a Text,
}

impl Taken for NetworkLeases<'_> {
    ghost use Rattle.kernel_types.specs.Terms.{addresses_in};

    ghost taken = { λ t. addresses_in t.leases.now t.network.now };

    fn has(&self, addr: &Addr) -> bool {
        is_leased(self.leases, self.network, addr)
    }
}

fn is_leased(leases: &[Lease], network: &Text, addr: &Addr) -> bool
    ensures { result ≡ list_any (is_lease_at network.now addr.now) leases.now }
{
    leases
        .iter()
        .any(|l| l.network == *network && l.addr == *addr)
}

fn has_last(lasts: &[Last], network: &Text, number: u32) -> bool
    ensures { result ≡ list_any (is_of_pool network.now number) lasts.now }
{
    lasts.iter().any(|l| l.is_of_pool(network.as_str(), number))
}

fn move_last(last: &mut Last, network: &Text, number: u32, addr: Addr)
    ensures { last.new ≡ moved_last network.now number addr last.old }
{
    if last.is_of_pool(network.as_str(), number) {
        last.addr = addr;
    }
}

/// Sets the last address of a pool that has one.
fn move_lasts(lasts: &mut Vec<Last>, network: &Text, number: u32, addr: Addr)
    ensures { lasts.new.items ≡ map (moved_last network.now number addr) lasts.old.items }
{
    for last in lasts.iter_mut() {
        move_last(last, network, number, addr);
    }
}

impl HostLists {
    /// Leases the address, which becomes the last of its pool.
    fn lease(&mut self, att: &Att, number: u32, addr: Addr) -> Result<(), NoMemory>
        ensures ok { OnOk result (self.new
            ≡ with_last (record self.old { leases = self.old.leases ++ lease_of att.now addr ∷ [] })
            att.now.network number addr) }
        ensures err { OnErr result (self.new ≡ self.old) }
    {
        let lease = Lease::of(att, addr)?;
        if has_last(&self.lasts, &att.network, number) {
            self.leases.push(lease)?;
            move_lasts(&mut self.lasts, &att.network, number, addr);
            return Ok(());
        }
        let last = Last {
            network: att.network.copy()?,
            set: number,
            addr,
        };
        self.lasts.reserve(1)?;
        self.leases.push(lease)?;
        self.lasts.push(last)?;
        Ok(())
    }

    /// The address that is leased next.
    fn next_address(&self, network: &Text, number: u32, set: &RangeSet) -> Option<Addr>
        requires pool { HasRangesApart set.now }
        requires last { is_candidate_or_none set.now (last_leased self.now network.now number) ≡ true }
        ensures { result
            ≡ pick_of set.now (last_leased self.now network.now number) (leased_addresses self.now network.now) }
    {
        let taken = NetworkLeases {
            leases: &self.leases,
            network,
        };
        pick(set, last_in(&self.lasts, network.as_str(), number), &taken)
    }

    /// Linear in the leases for each address that is tried.
    pub(crate) fn lease_next(
        &mut self,
        att: &Att,
        number: u32,
        set: &RangeSet,
    ) -> Result<Reply, NoMemory>
        requires pool { HasRangesApart set.now }
        requires last { is_candidate_or_none set.now (last_leased self.old att.now.network number) ≡ true }
        ensures ok { IfOk result (λ reply. (self.new, reply) ≡ lease_next_of self.old att.now number set.now) }
        ensures err { OnErr result (self.new ≡ self.old) }
    {
        match self.next_address(&att.network, number, set) {
            Some(addr) => {
                self.lease(att, number, addr)?;
                Ok(Reply::Leased(addr))
            }
            None => Ok(Reply::Empty),
        }
    }

    /// Linear in the leases for each address that is tried.
    pub(crate) fn pool_free(&self, network: &Text, set: &RangeSet) -> Reply
        requires { HasRangesApart set.now }
        ensures { (self.now, result) ≡ pool_free_of self.now network.now set.now }
    {
        let taken = NetworkLeases {
            leases: &self.leases,
            network,
        };
        Reply::Has(has_free(set, &taken))
    }
}
