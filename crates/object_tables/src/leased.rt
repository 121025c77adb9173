//! The addresses that are leased, network by network.

ghost use Rattle.std.specs.Prelude.{◌≡◌, ℕ, List, ◌<◌, ◌&&◌, ◌||◌, false, not, IfOk, OnOk};
ghost use Rattle.std.specs.Str.{bytes_eq};
ghost use Rattle.cni_addr.specs.declared.address.Addr.{Addr};
ghost use Rattle.cni_addr.specs.Equal.{addr_eq};
ghost use Rattle.ip_pool.specs.NextAddress.{is_taken};
ghost use Rattle.kernel_types.specs.Keys.{is_same_lease};
ghost use Rattle.kernel_types.specs.Sound.{HasDistinctKeys};
ghost use Rattle.object_tables.specs.Leased.{AreLeased, kept_for, room_for};

use crate::keyed::{KeyedMap, KeyedState};
use cni_addr::{Addr, Duplicate, NoMemory, Text};
use ip_pool::AddrRuns;
use kernel_types::Lease;
use std::alloc::Global;

/// The addresses of these leases.
pub fn leased_of(
    alloc: Global,
    state: KeyedState,
    leases: &[Lease],
) -> Result<KeyedMap<Text, AddrRuns>, NoMemory>
    requires { HasDistinctKeys is_same_lease leases.now }
    ensures { IfOk result (λ leased. AreLeased leased leases.now) }
{
    let mut leased = KeyedMap::with_hasher(alloc, state);
    for lease in leases {
        make_room(alloc, &mut leased, &lease.network)?;
        add_leased(&mut leased, &lease.network, &lease.addr);
    }
    Ok(leased)
}

/// Makes room for one more address of the network.
pub fn make_room(
    alloc: Global,
    leased: &mut KeyedMap<Text, AddrRuns>,
    network: &Text,
) -> Result<(), NoMemory>
    ensures same { (n : List ℕ) → (a : Addr) → is_taken (kept_for leased.new n) a
        ≡ is_taken (kept_for leased.old n) a }
    ensures ok { OnOk result (0 < room_for leased.new network.now) }
{
    if let Some(runs) = leased.get_mut(network) {
        return runs.reserve_one();
    }
    let mut runs = AddrRuns::new(alloc);
    runs.reserve_one()?;
    leased.insert(network.copy()?, runs)?;
    Ok(())
}

/// Adds an address that is not leased in the network. Takes no memory, since there is room.
pub fn add_leased(leased: &mut KeyedMap<Text, AddrRuns>, network: &Text, addr: &Addr)
    requires absent { is_taken (kept_for leased.old network.now) addr.now ≡ false }
    requires room { 0 < room_for leased.old network.now }
    ensures { (n : List ℕ) → (a : Addr) → is_taken (kept_for leased.new n) a
        ≡ (bytes_eq network.now n && addr_eq addr.now a || is_taken (kept_for leased.old n) a) }
{
    if let Some(runs) = leased.get_mut(network) {
        runs.add(addr);
    }
}

/// Takes an address of the network out. Takes no memory.
pub fn remove_leased(leased: &mut KeyedMap<Text, AddrRuns>, network: &Text, addr: &Addr)
    ensures { (n : List ℕ) → (a : Addr) → is_taken (kept_for leased.new n) a
        ≡ (is_taken (kept_for leased.old n) a && not (bytes_eq network.now n && addr_eq addr.now a)) }
{
    if let Some(runs) = leased.get_mut(network) {
        runs.remove(addr);
    }
}
