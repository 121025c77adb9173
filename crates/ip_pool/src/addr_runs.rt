//! A set of addresses that is kept as runs.

use crate::runs::{Run, add_addr, remove_addr, run_with};
use crate::step_count::Steps;
use cni_addr::{Addr, NoMemory};
use std::alloc::Global;
use std::marker::Model;
use std::sync::ledger::Ledger;

/// A set of addresses, IPv4 and IPv6. Contracts see the list of its addresses from the lowest up, and its room: how
/// many more addresses may be added without memory.
///
/// It is kept as runs of neighbouring addresses, each as long as can be, so that one step passes all of a run.
/// Memory is taken by [`AddrRuns::reserve_one`] alone, in which the place of a run is kept for each address: so no
/// removal needs memory, though it may split a run.
#[derive(Drop)]
pub struct AddrRuns {
    runs: Vec<Run>,
    count: usize,
}

impl Model for AddrRuns {
    ghost use Rattle.std.specs.Prelude.{◌-◌};
    ghost use Rattle.std.specs.Vec.{vec_capacity};
    ghost use Rattle.ip_pool.specs.AddrSets.{AddrSet};
    ghost use Rattle.ip_pool.specs.Runs.{addresses_of, AreKept};

    ghost Value = { AddrSet };

    ghost view = { λ s. record {
      addresses = addresses_of s.runs.items;
      room = vec_capacity s.runs - s.count;
    } };

    // a place for each address, and so for each run that a removal can leave
    ghost invariant = { λ s. AreKept s.runs.items s.count (vec_capacity s.runs) };
}

impl AddrRuns {
    ghost use Rattle.std.specs.Prelude.{◌≡◌, ◌+◌, ◌<◌, ◌≤◌, true, false, not, ◌&&◌, ◌||◌, if◌then◌else◌, []};
    ghost use Rattle.std.specs.Prelude.{IsOk, MatchOption, OnErr, OnOk};
    ghost use Rattle.cni_addr.specs.declared.address.Addr.{Addr};
    ghost use Rattle.cni_addr.specs.Equal.{addr_eq};
    ghost use Rattle.ip_pool.specs.NextAddress.{is_taken};
    ghost use Rattle.ip_pool.specs.AddrSets.{ascends, IsRunEnd};

    /// The set of no addresses, without room. Takes no memory.
    pub fn new(alloc: Global) -> AddrRuns
        ensures { result ≡ record { addresses = []; room = 0 } }
    {
        AddrRuns {
            runs: Vec::new(alloc),
            count: 0,
        }
    }

    /// The addresses of every set ascend, so that each is there once.
    pub fn addresses_ascend(&self)
        ensures { ascends self.now.addresses ≡ true }
    {
        let _runs = &self.runs;
    }

    /// Makes room for one more address, where there is none. Takes memory by doubling, and none where there is room.
    pub fn reserve_one(&mut self) -> Result<(), NoMemory>
        ensures same { self.new.addresses ≡ self.old.addresses }
        ensures ok { OnOk result (0 < self.new.room) }
        ensures grows { self.old.room ≤ self.new.room }
        ensures had_room { 0 < self.old.room → IsOk result }
        ensures err { OnErr result (self.new ≡ self.old) }
    {
        let wanted = self.count - self.runs.len() + 1;
        self.runs.reserve(wanted)?;
        Ok(())
    }

    /// Adds an address that is not in the set. Takes no memory, since there is room. The runs that it touches become
    /// one: a binary search, and a move of the later runs where their number changes, as it doesn't where one run is
    /// made longer.
    pub fn add(&mut self, addr: &Addr)
        requires absent { is_taken self.old.addresses addr.now ≡ false }
        requires room { 0 < self.old.room }
        ensures members { (a : Addr) → is_taken self.new.addresses a
            ≡ (addr_eq a addr.now || is_taken self.old.addresses a) }
        ensures ascends { ascends self.new.addresses ≡ true }
        ensures room { self.new.room + 1 ≡ self.old.room }
    {
        add_addr(&mut self.runs, addr);
        self.count += 1;
    }

    /// Takes an address out of the set, and says whether it was there: then its place is room. Takes no memory. It
    /// may split a run: a binary search, and a move of the later runs where their number changes, as it doesn't where
    /// one run is made shorter.
    pub fn remove(&mut self, addr: &Addr) -> bool
        ensures found { result ≡ is_taken self.old.addresses addr.now }
        ensures absent { result ≡ false → self.new ≡ self.old }
        ensures members { (a : Addr) → is_taken self.new.addresses a
            ≡ (is_taken self.old.addresses a && not (addr_eq a addr.now)) }
        ensures ascends { ascends self.new.addresses ≡ true }
        ensures room { self.new.room ≡ self.old.room + (if result then 1 else 0) }
    {
        let found = remove_addr(&mut self.runs, addr);
        if found {
            self.count -= 1;
        }
        found
    }

    /// The last of the addresses from `addr` on that are in the set without a gap, or none where `addr` is not in the
    /// set. Counts one step: a binary search over the runs.
    pub fn through<L: Ledger>(&self, addr: &Addr, steps: &mut Steps<L>) -> Option<Addr>
        ensures end { MatchOption result
            (is_taken self.now.addresses addr.now ≡ false)
            (λ end. IsRunEnd self.now.addresses addr.now end) }
        ensures cost { steps.new ≡ steps.old + 1 }
    {
        steps.tick();
        match run_with(self.runs.as_slice(), addr) {
            Some(run) => Some(run.last),
            None => None,
        }
    }
}
