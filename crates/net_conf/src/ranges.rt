//! The reader of one range of addresses.

ghost use Rattle.std.specs.Prelude.{◌≡◌, Bool, true, IfOk};
ghost use Rattle.serde_json.specs.View.{view};
ghost use Rattle.cni_addr.specs.Codes.{family_eq};
ghost use Rattle.cni_addr.specs.declared.address.Addr.{Addr};
ghost use Rattle.cni_json.specs.Outcome.{Gives};
ghost use Rattle.net_conf.specs.Members.{IsTest};
ghost use Rattle.net_conf.specs.Ranges as ranges;
ghost use Rattle.net_conf.specs.Refusals.{is_out_of_memory};

use crate::error::{ConfError, invalid};
use crate::members::addr_if;
use cni_addr::{Addr, Cidr, Family, Range, contains, last_of, network_of, read_cidr};
use cni_json::{Field, Value, field_str};
use std::alloc::Global;

/// The range that an object gives by `subnet`, `rangeStart`, `rangeEnd` and `gateway`.
#[tactic(auto, using(cni_json::proofs::Steps::steps), unfolding(crate::specs::Ranges::range_at))]
pub fn range(alloc: Global, object: &Value) -> Result<Range, ConfError>
    ensures { Gives is_out_of_memory result (ranges.range_at (view object.now)) }
{
    let subnet = subnet(alloc, object)?;
    let first = first_host(&subnet);
    let start = addr_or(
        alloc,
        object,
        "rangeStart",
        first,
        |addr| contains(&subnet, addr),
    )?;
    let end = addr_or(
        alloc,
        object,
        "rangeEnd",
        last_host(&subnet),
        |addr| contains(&subnet, addr),
    )?;
    in_order(alloc, &start, &end)?;
    let gateway = addr_or(
        alloc,
        object,
        "gateway",
        first,
        |addr| shares_family(addr, &subnet),
    )?;
    Ok(Range {
        subnet,
        start,
        end,
        gateway,
    })
}

#[tactic(auto, using(cni_json::proofs::Steps::steps), unfolding(crate::specs::Ranges::subnet_at))]
fn subnet(alloc: Global, object: &Value) -> Result<Cidr, ConfError>
    ensures read { Gives is_out_of_memory result (ranges.subnet_at (view object.now)) }
    ensures tested { IfOk result (λ subnet. ranges.is_subnet subnet ≡ true) }
{
    let Field::Here(text) = field_str(object, "subnet") else {
        return Err(invalid(alloc, "subnet"));
    };
    match read_cidr(text.as_bytes()) {
        Some(subnet) if is_subnet(&subnet) => Ok(subnet),
        _ => Err(invalid(alloc, "subnet")),
    }
}

#[tactic(auto, unfolding(crate::specs::Ranges::is_subnet))]
fn is_subnet(subnet: &Cidr) -> bool
    ensures { result ≡ ranges.is_subnet subnet.now }
{
    *subnet == network_of(subnet)
        && 8 <= subnet.prefix
        && subnet.prefix <= longest_subnet(subnet.addr.family)
}

/// The longest prefix of a subnet, which has room for four addresses.
fn longest_subnet(family: Family) -> u8
    ensures { result ≡ ranges.longest_subnet family }
{
    match family {
        Family::V4 => 30,
        Family::V6 => 126,
    }
}

/// The address after the subnet's own.
#[tactic(auto, using(crate::proofs::RangeLemmas::rooms), unfolding(crate::specs::Ranges::first_host))]
fn first_host(subnet: &Cidr) -> Addr
    requires { ranges.is_subnet subnet.now ≡ true }
    ensures { result ≡ ranges.first_host subnet.now }
{
    let last = last_of(subnet);
    let own = subnet.addr;
    Addr {
        family: last.family,
        bits: own.bits + 1,
    }
}

/// The address before the subnet's last.
#[tactic(auto, using(crate::proofs::RangeLemmas::rooms), unfolding(crate::specs::Ranges::last_host))]
fn last_host(subnet: &Cidr) -> Addr
    requires { ranges.is_subnet subnet.now ≡ true }
    ensures { result ≡ ranges.last_host subnet.now }
{
    let last = last_of(subnet);
    Addr {
        family: last.family,
        bits: last.bits - 1,
    }
}

/// The address under the key, which must pass the test, or the default where none is given.
#[tactic(auto, using(cni_json::proofs::Steps::steps), unfolding(crate::specs::Ranges::addr_or_at))]
fn addr_or<P: Fn(&Addr) -> bool>(
    alloc: Global,
    object: &Value,
    key: &str,
    default: Addr,
    passes: P,
) -> Result<Addr, ConfError>
    requires { P.IsAlwaysCallable passes }
    ensures { (test : Addr → Bool) → IsTest P.Fn passes test
        → Gives is_out_of_memory result (ranges.addr_or_at key.now default test (view object.now)) }
{
    let given = addr_if(alloc, object, key, key, passes)?;
    Ok(given.unwrap_or(default))
}

#[tactic(auto, using(cni_json::proofs::Steps::steps), unfolding(crate::specs::Ranges::in_order))]
fn in_order(alloc: Global, start: &Addr, end: &Addr) -> Result<(), ConfError>
    ensures { Gives is_out_of_memory result (ranges.in_order start.now end.now) }
{
    (start.bits <= end.bits)
        .then_some(())
        .ok_or_else(|| invalid(alloc, "rangeStart"))
}

fn shares_family(addr: &Addr, subnet: &Cidr) -> bool
    ensures { result ≡ family_eq addr.now.family subnet.now.addr.family }
{
    addr.family == subnet.addr.family
}
