//! Leases and given addresses.

ghost use Rattle.std.specs.Prelude.{◌≡◌, true, find, option_map, slice_get, IfOk};
ghost use Rattle.std.specs.Option.{option_copied};
ghost use Rattle.ip_pool.specs.NextAddress.{is_between, is_candidate};
ghost use Rattle.kernel_types.specs.declared.call.Call.TheVariants.{LeaseNext};
ghost use Rattle.host_local.specs.Leases as leases;

use cni_addr::{Addr, Cidr, Duplicate, Items, NoMemory, Range, RangeSet, RefCounted};
use ip_pool::is_between;
use kernel_types::{Att, Call, Given, Kind};
use net_conf::HostLocalConf;
use std::alloc::Global;

/// The lease from the set at this place, if there is one. It shares the set, so its ranges cost nothing.
pub fn lease_at(
    sets: &[RefCounted<RangeSet>],
    att: Att,
    place: u32,
) -> Result<Option<Call>, NoMemory>
    ensures { IfOk result (λ next. next ≡ option_map (LeaseNext att place) (slice_get sets.now place)) }
{
    match sets.get(place as usize) {
        Some(set) => Ok(Some(Call::LeaseNext {
            att,
            number: place,
            set: set.copy()?,
        })),
        None => Ok(None),
    }
}

fn lease_from(att: &Att, number: u32, set: &RefCounted<RangeSet>) -> Result<Call, NoMemory>
    ensures { IfOk result (λ lease. lease ≡ LeaseNext att.now number set.now) }
{
    Ok(Call::LeaseNext {
        att: att.copy()?,
        number,
        set: set.copy()?,
    })
}

/// One lease of each range set, in order. Linear in the sets, which the calls share.
pub fn lease_calls(alloc: Global, conf: &HostLocalConf, att: &Att) -> Result<Items<Call>, NoMemory>
    ensures { IfOk result (λ calls. calls ≡ leases.lease_calls_of conf.now.sets att.now) }
{
    let sets = conf.sets.as_slice();
    let mut calls = Vec::with_capacity(alloc, sets.len())?;
    for (place, set) in sets.iter().enumerate() {
        let lease = lease_from(att, place as u32, set)?;
        calls.push(lease)?;
    }
    Ok(Items::of_vec(calls))
}

fn range_with<'a>(ranges: &'a [Range], addr: &Addr) -> Option<&'a Range>
    ensures { option_copied result ≡ find (is_between addr.now) ranges.now }
{
    ranges.iter().find(|range| is_between(addr, range))
}

fn given_by(addr: &Addr, range: &Range) -> Given
    requires { is_between addr.now range.now ≡ true }
    ensures { result ≡ leases.given_by addr.now range.now }
{
    let _families = (addr.family, range.gateway.family, range.subnet.addr.family);
    Given {
        address: Cidr {
            addr: *addr,
            prefix: range.subnet.prefix,
        },
        gateway: range.gateway,
        subnet: range.subnet,
    }
}

/// What the address means by the first range of the set that holds it, if one does.
fn find_given(set: &RefCounted<RangeSet>, addr: &Addr) -> Option<Given>
    ensures { result ≡ leases.given_by_set set.now addr.now }
{
    match range_with(set.get().ranges.as_slice(), addr) {
        Some(range) => Some(given_by(addr, range)),
        None => None,
    }
}

/// The k-th address by the k-th set. An address that no range of its set holds is left out, and no candidate is: see
/// [`candidates_are_given`](crate::laws::candidates_are_given). Linear in the ranges of the sets.
pub fn given_of(
    alloc: Global,
    sets: &[RefCounted<RangeSet>],
    addrs: &[Addr],
) -> Result<Vec<Given>, NoMemory>
    ensures { IfOk result (λ given. given.items ≡ leases.given_of sets.now addrs.now) }
{
    let mut given = Vec::new(alloc);
    for (set, addr) in sets.iter().zip(addrs) {
        if let Some(found) = find_given(set, addr) {
            given.push(found)?;
        }
    }
    Ok(given)
}

fn given_by_set(set: &RefCounted<RangeSet>, addr: &Addr) -> Given
    requires { is_candidate set.now addr.now ≡ true }
    ensures { leases.given_by_set set.now addr.now ≡ Some result }
{
    match find_given(set, addr) {
        Some(given) => given,
        None => unreachable!(),
    }
}

/// What a candidate of the set of this number means: its subnet's prefix, and its range's gateway and subnet. Takes no
/// memory. Linear in the ranges of the set.
pub fn given(conf: &HostLocalConf, set: u32, addr: &Addr) -> Given
    requires { leases.IsCandidateOf conf.now.sets set addr.now }
    ensures { leases.given_at conf.now.sets set addr.now ≡ Some result }
{
    match conf.sets.as_slice().get(set as usize) {
        Some(set) => given_by_set(set, addr),
        None => unreachable!(),
    }
}

/// The kinds of objects that DEL takes back.
pub fn release_kinds() -> [Kind; 1]
    ensures { result ≡ leases.host_local_kinds }
{
    [Kind::Leases]
}
