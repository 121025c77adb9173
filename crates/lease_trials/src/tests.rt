//! The leases of an attachment to a network of two sets, and what their addresses mean.

ghost use Rattle.std.specs.Prelude.{◌≡◌};
ghost use Rattle.cni_addr.specs.declared.address.Family.TheVariants.{V4};

use cni_addr::{Addr, Cidr, Family, NoMemory, RangeSet, RefCounted, Text};
use cni_json::read;
use cni_result::Version;
use host_local::{given, ipam_result, lease_calls, release_kinds};
use ip_pool::contains_candidate;
use kernel_types::{Att, Call, Given, Kind};
use net_conf::{HostLocalConf, read_ipam};
use std::alloc::Global;
use std::test::Fail;

const TEN_88: u32 = 0x0a58_0000;

/// The address of this number in the network.
fn address(network: u32, number: u32) -> Addr
    ensures { result.family ≡ V4 }
{
    Addr {
        family: Family::V4,
        bits: u128::from(network.wrapping_add(number)),
    }
}

fn subnet(network: u32) -> Cidr
    ensures { result.addr.family ≡ V4 }
{
    Cidr {
        addr: address(network, 0),
        prefix: 16,
    }
}

/// Two sets, each from the address 2 to the address 9, by the gateway 1.
const TWO_SETS: &str =
    r#"{"type":"host-local","ranges":[[{"subnet":"10.88.0.0/16","rangeStart":"10.88.0.2","rangeEnd":"10.88.0.9","gateway":"10.88.0.1"}],[{"subnet":"10.89.0.0/16","rangeStart":"10.89.0.2","rangeEnd":"10.89.0.9","gateway":"10.89.0.1"}]]}"#;

fn two_sets(alloc: Global) -> Result<HostLocalConf, Fail> {
    let Ok(value) = read(alloc, TWO_SETS.as_bytes()) else {
        return Err("no JSON".into());
    };
    match read_ipam(alloc, &value) {
        Ok(Some(conf)) => Ok(conf),
        _ => Err("no addresses".into()),
    }
}

fn container(alloc: Global) -> Result<Att, NoMemory> {
    Ok(Att {
        network: Text::of(alloc, "podman")?,
        container: Text::of(alloc, "c1")?,
        ifname: Text::of(alloc, "eth0")?,
    })
}

fn means(network: u32, number: u32) -> Given {
    Given {
        address: Cidr {
            addr: address(network, number),
            prefix: 16,
        },
        gateway: address(network, 1),
        subnet: subnet(network),
    }
}

/// Whether the call leases from this set for the container.
fn is_lease(call: &Call, att: &Att, number: u32, set: &RefCounted<RangeSet>) -> bool {
    match call {
        Call::LeaseNext {
            att: owner,
            number: place,
            set: from,
        } => owner == att && *place == number && from == set,
        _ => false,
    }
}

/// Whether there are two sets, and two calls that lease from one after the other.
fn leases_from_two(alloc: Global, conf: &HostLocalConf, att: &Att) -> Result<bool, NoMemory> {
    let calls = lease_calls(alloc, conf, att)?;
    Ok(match (calls.as_slice(), conf.sets.as_slice()) {
        ([first, second], [one, other]) => {
            is_lease(first, att, 0, one) && is_lease(second, att, 1, other)
        }
        _ => false,
    })
}

#[test]
fn each_set_is_leased_from_once(rt: HostRuntime) -> Result<(), Fail> {
    let conf = two_sets(rt.alloc())?;
    let att = container(rt.alloc())?;
    let both = leases_from_two(rt.alloc(), &conf, &att)?;
    assert!(rt; both && release_kinds() == [Kind::Leases]);
    Ok(())
}

/// What the address means by the first set, where it is a candidate of it.
fn given_by_first(conf: &HostLocalConf, addr: &Addr) -> Option<Given> {
    match conf.sets.as_slice().get(0) {
        Some(set) => {
            if contains_candidate(set.get(), addr) {
                Some(given(conf, 0, addr))
            } else {
                None
            }
        }
        None => None,
    }
}

#[test]
fn a_candidate_is_given(rt: HostRuntime) -> Result<(), Fail> {
    let conf = two_sets(rt.alloc())?;
    let one = given_by_first(&conf, &address(TEN_88, 9));
    assert!(rt; one == Some(means(TEN_88, 9)));
    assert!(rt; given_by_first(&conf, &address(TEN_88, 1)).is_none());
    Ok(())
}

/// The gateways that the result has for this address.
fn gateways_for(
    alloc: Global,
    conf: &HostLocalConf,
    given: Given,
) -> Result<Vec<Option<Addr>>, Fail> {
    let found = ipam_result(alloc, conf, &[given], Version::V1_0)?;
    let ips = found.ips.as_slice().iter();
    Ok(ips.map(|ip| ip.gateway).collect(alloc)?)
}

#[test]
fn a_given_address_has_the_gateway_of_its_range(rt: HostRuntime) -> Result<(), Fail> {
    let conf = two_sets(rt.alloc())?;
    let gateways = gateways_for(rt.alloc(), &conf, means(TEN_88, 9))?;
    let meant = [Some(address(TEN_88, 1))];
    assert!(rt; gateways.as_slice() == meant.as_slice());
    Ok(())
}
