//! Addresses of a pool.

ghost use Rattle.std.specs.Prelude.{◌≡◌, ◌<◌, true, false, [], ◌∷◌, ◌++◌, map, if◌then◌else◌, IfOk, OnOk, OnErr};
ghost use Rattle.std.specs.List.{list_any};
ghost use Rattle.cni_addr.specs.declared.address.Addr.{Addr};
ghost use Rattle.ip_pool.specs.NextAddress.{is_candidate_or_none, is_taken};
ghost use Rattle.ip_pool.specs.Pool.{has_free_of, pick_of};
ghost use Rattle.kernel_types.specs.Allowed.{HasRangesApart};
ghost use Rattle.kernel_types.specs.Terms.{is_lease_at, is_of_pool, last_leased, lease_of, leased_addresses};
ghost use Rattle.kernel_types.specs.Apply.Calls.{moved_last, with_last, lease_next_of, pool_free_of};

use super::Tables;
use cni_addr::{Addr, Duplicate, NoMemory, RangeSet, Text};
use ip_pool::{AddrRuns, Steps, has_free_runs, pick_runs};
use kernel_types::{Att, Last, Lease, PoolKey, Reply};
use object_tables::leased::{add_leased, make_room};
use object_tables::{Change, Table};
use std::alloc::Global;
use std::marker::Brand;
use std::sync::ledger::{Blank, Ledger};

/// Whether a candidate is free. Nobody asks for the steps.
fn has_free<L: Ledger>(set: &RangeSet, runs: &AddrRuns, blank: Blank) -> bool
    requires name { blank.name ≡ L.name }
    requires parts { blank.parts ≡ L.parts }
    requires some { 0 < blank.parts }
    ensures { result ≡ has_free_of set.now runs.now.addresses }
{
    let mut steps = Steps::<L>::new(blank);
    has_free_runs(set, runs, &mut steps)
}

/// The address that is leased next. Nobody asks for the steps.
fn pick<L: Ledger>(
    set: &RangeSet,
    last: Option<Addr>,
    runs: &AddrRuns,
    blank: Blank,
) -> Option<Addr>
    requires name { blank.name ≡ L.name }
    requires parts { blank.parts ≡ L.parts }
    requires some { 0 < blank.parts }
    requires pool { HasRangesApart set.now }
    requires last { is_candidate_or_none set.now last ≡ true }
    ensures { result ≡ pick_of set.now last runs.now.addresses }
{
    let mut steps = Steps::<L>::new(blank);
    pick_runs(set, last, runs, &mut steps)
}

/// Sets the address of a last.
#[derive(Drop)]
struct MoveLast {
    addr: Addr,
}

impl Change<Last> for MoveLast {
    ghost changed = { λ m last. record last { addr = m.addr } };

    fn change(&self, row: &mut Last) {
        row.addr = self.addr;
    }
}

/// Adds a lease of a pool that has a last, which moves.
fn lease_again(
    alloc: Global,
    leases: &mut Table<Lease, Text, Att, Text, Lease>,
    lasts: &mut Table<PoolKey, Text, Att, Text, Last>,
    pool: &PoolKey,
    lease: Lease,
) -> Result<(), NoMemory>
    requires absent { list_any (is_lease_at lease.network lease.addr) leases.old ≡ false }
    ensures leases { OnOk result (leases.new ≡ leases.old ++ lease ∷ []) }
    ensures lasts { OnOk result (lasts.new
        ≡ map (moved_last pool.now.network pool.now.set lease.addr) lasts.old) }
    ensures err { OnErr result ((leases.new ≡ leases.old) × (lasts.new ≡ lasts.old)) }
{
    let addr = lease.addr;
    leases.push(alloc, lease)?;
    lasts.update(pool, &MoveLast { addr });
    Ok(())
}

/// Adds the first lease of a pool, which becomes its last.
fn lease_first(
    alloc: Global,
    leases: &mut Table<Lease, Text, Att, Text, Lease>,
    lasts: &mut Table<PoolKey, Text, Att, Text, Last>,
    pool: &PoolKey,
    lease: Lease,
) -> Result<(), NoMemory>
    requires absent { list_any (is_lease_at lease.network lease.addr) leases.old ≡ false }
    requires none { list_any (is_of_pool pool.now.network pool.now.set) lasts.old ≡ false }
    ensures leases { OnOk result (leases.new ≡ leases.old ++ lease ∷ []) }
    ensures lasts { OnOk result (lasts.new ≡ lasts.old
        ++ record { network = pool.now.network; set = pool.now.set; addr = lease.addr } ∷ []) }
    ensures err { OnErr result ((leases.new ≡ leases.old) × (lasts.new ≡ lasts.old)) }
{
    let last = Last {
        network: pool.network.copy()?,
        set: pool.set,
        addr: lease.addr,
    };
    lasts.push(alloc, last)?;
    let pushed = leases.push(alloc, lease);
    if pushed.is_err() {
        lasts.take(pool);
    }
    pushed
}

/// Adds a lease, whose address becomes the last of its pool.
fn push_lease(
    alloc: Global,
    leases: &mut Table<Lease, Text, Att, Text, Lease>,
    lasts: &mut Table<PoolKey, Text, Att, Text, Last>,
    pool: &PoolKey,
    lease: Lease,
) -> Result<(), NoMemory>
    requires absent { list_any (is_lease_at lease.network lease.addr) leases.old ≡ false }
    ensures leases { OnOk result (leases.new ≡ leases.old ++ lease ∷ []) }
    ensures lasts { OnOk result (lasts.new ≡ (if list_any (is_of_pool pool.now.network pool.now.set) lasts.old
        then map (moved_last pool.now.network pool.now.set lease.addr) lasts.old
        else lasts.old ++ record { network = pool.now.network; set = pool.now.set; addr = lease.addr } ∷ [])) }
    ensures err { OnErr result ((leases.new ≡ leases.old) × (lasts.new ≡ lasts.old)) }
{
    if lasts.find(pool).is_some() {
        lease_again(alloc, leases, lasts, pool, lease)
    } else {
        lease_first(alloc, leases, lasts, pool, lease)
    }
}

impl Tables {
    /// The addresses that are leased in the network: those that are kept for it, or none.
    fn runs_of<'a>(&'a self, network: &Text, none: &'a AddrRuns) -> &'a AddrRuns
        requires { none.now.addresses ≡ [] }
        ensures { (a : Addr) → is_taken result.now.addresses a
            ≡ is_taken (leased_addresses self.now network.now) a }
    {
        self.leased.get(network).unwrap_or(none)
    }

    /// The last address of the pool, if it has one.
    fn last_of(&self, pool: &PoolKey) -> Option<Addr>
        ensures { result ≡ last_leased self.now pool.now.network pool.now.set }
    {
        match self.lasts.find(pool) {
            Some(last) => Some(last.addr),
            None => None,
        }
    }

    /// The address that is leased next.
    fn next_address(&self, alloc: Global, pool: &PoolKey, set: &RangeSet) -> Option<Addr>
        requires pool { HasRangesApart set.now }
        requires last { is_candidate_or_none set.now (last_leased self.now pool.now.network pool.now.set) ≡ true }
        ensures { result ≡ pick_of set.now (last_leased self.now pool.now.network pool.now.set)
            (leased_addresses self.now pool.now.network) }
    {
        let none = AddrRuns::new(alloc);
        let runs = self.runs_of(&pool.network, &none);
        pick::<Brand>(set, self.last_of(pool), runs, Blank::new(1))
    }

    /// Leases the address, which becomes the last of its pool.
    fn lease(
        &mut self,
        alloc: Global,
        att: &Att,
        pool: &PoolKey,
        addr: Addr,
    ) -> Result<(), NoMemory>
        requires network { pool.now.network ≡ att.now.network }
        requires free { is_taken (leased_addresses self.old att.now.network) addr ≡ false }
        ensures ok { OnOk result (self.new
            ≡ with_last (record self.old { leases = self.old.leases ++ lease_of att.now addr ∷ [] })
            att.now.network pool.now.set addr) }
        ensures err { OnErr result (self.new ≡ self.old) }
    {
        let lease = Lease::of(att, addr)?;
        make_room(alloc, &mut self.leased, &att.network)?;
        push_lease(alloc, &mut self.leases, &mut self.lasts, pool, lease)?;
        add_leased(&mut self.leased, &att.network, &addr);
        Ok(())
    }

    /// Two steps for each range and two more at most, however many addresses are leased.
    #[inline(never)]
    pub fn lease_next(
        &mut self,
        alloc: Global,
        att: &Att,
        number: u32,
        set: &RangeSet,
    ) -> Result<Reply, NoMemory>
        requires pool { HasRangesApart set.now }
        requires last { is_candidate_or_none set.now (last_leased self.old att.now.network number) ≡ true }
        ensures ok { IfOk result (λ reply. (self.new, reply) ≡ lease_next_of self.old att.now number set.now) }
        ensures err { OnErr result (self.new ≡ self.old) }
    {
        let pool = PoolKey {
            network: att.network.copy()?,
            set: number,
        };
        match self.next_address(alloc, &pool, set) {
            Some(addr) => {
                self.lease(alloc, att, &pool, addr)?;
                Ok(Reply::Leased(addr))
            }
            None => Ok(Reply::Empty),
        }
    }

    /// Two steps for each range at most, however many addresses are leased. Takes no memory.
    #[inline(never)]
    pub fn pool_free(&self, alloc: Global, network: &Text, set: &RangeSet) -> Reply
        ensures { (self.now, result) ≡ pool_free_of self.now network.now set.now }
    {
        let none = AddrRuns::new(alloc);
        let runs = self.runs_of(network, &none);
        Reply::Has(has_free::<Brand>(set, runs, Blank::new(1)))
    }
}
