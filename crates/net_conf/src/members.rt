//! Members of a plugin's object that several types have.

ghost use Rattle.std.specs.Prelude.{◌≡◌, Bool};
ghost use Rattle.serde_json.specs.View.{view};
ghost use Rattle.cni_addr.specs.declared.address.Addr.{Addr};
ghost use Rattle.cni_json.specs.Outcome.{Gives};
ghost use Rattle.net_conf.specs.Members as members;
ghost use Rattle.net_conf.specs.Members.{IsTest};
ghost use Rattle.net_conf.specs.Refusals.{is_out_of_memory};

use crate::error::{ConfError, invalid};
use cni_addr::{Addr, read_addr};
use cni_json::{Field, Value, field_bool, field_str, field_u64};
use std::alloc::Global;

/// A truth value, or the default where it is absent.
#[tactic(auto, unfolding(crate::specs::Members::flag_at))]
pub fn flag(alloc: Global, object: &Value, key: &str, default: bool) -> Result<bool, ConfError>
    ensures { Gives is_out_of_memory result (members.flag_at key.now default (view object.now)) }
{
    flag_within(alloc, object, key, key, default)
}

/// A truth value in the value of the key `outer`, which is to blame, or the default where it is absent.
#[tactic(auto, using(cni_json::proofs::Steps::steps))]
pub fn flag_within(
    alloc: Global,
    object: &Value,
    outer: &str,
    key: &str,
    default: bool,
) -> Result<bool, ConfError>
    ensures { Gives is_out_of_memory result (members.flag_within outer.now key.now default (view object.now)) }
{
    match field_bool(object, key) {
        Field::Absent => Ok(default),
        Field::WrongKind => Err(invalid(alloc, outer)),
        Field::Here(flag) => Ok(flag),
    }
}

/// The address under the key, which must pass the test, if one is given; else `blamed` is to blame.
#[tactic(auto, using(cni_json::proofs::Steps::steps), unfolding(crate::specs::Members::addr_if_at))]
pub fn addr_if<P: Fn(&Addr) -> bool>(
    alloc: Global,
    object: &Value,
    blamed: &str,
    key: &str,
    passes: P,
) -> Result<Option<Addr>, ConfError>
    requires { P.IsAlwaysCallable passes }
    ensures { (test : Addr → Bool) → IsTest P.Fn passes test
        → Gives is_out_of_memory result (members.addr_if_at blamed.now key.now test (view object.now)) }
{
    match field_str(object, key) {
        Field::Absent => Ok(None),
        Field::WrongKind => Err(invalid(alloc, blamed)),
        Field::Here(text) => match read_addr(text.as_bytes()) {
            Some(addr) if passes(&addr) => Ok(Some(addr)),
            _ => Err(invalid(alloc, blamed)),
        },
    }
}

/// Whether a link may have an MTU of so many bytes: from 68, the least of IPv4 (RFC 791, section 3.2), to 65,535, the
/// greatest length of a packet. The 1,280 bytes that IPv6 asks of a link (RFC 8200, section 5) aren't asked for.
pub fn is_mtu(number: u64) -> bool
    ensures { result ≡ members.is_mtu number }
{
    matches!(number, 68..=65535)
}

/// The MTU of links whose own is not given, in bytes.
pub const DEFAULT_MTU: u32 = 1500;

/// The MTU that the object gives, in bytes. 0 stands for none, as does an absent one.
#[tactic(auto, using(cni_json::proofs::Steps::steps), unfolding(crate::specs::Members::given_mtu_at))]
pub fn given_mtu(alloc: Global, object: &Value) -> Result<Option<u32>, ConfError>
    ensures { Gives is_out_of_memory result (members.given_mtu_at (view object.now)) }
{
    match field_u64(object, "mtu") {
        Field::Absent | Field::Here(0) => Ok(None),
        Field::Here(number) if is_mtu(number) => Ok(Some(number as u32)),
        Field::Here(_) | Field::WrongKind => Err(invalid(alloc, "mtu")),
    }
}

/// The MTU of links, in bytes, which is the default where none is given.
#[tactic(auto, using(cni_json::proofs::Steps::steps), unfolding(crate::specs::Members::mtu_at))]
pub fn mtu(alloc: Global, object: &Value) -> Result<u32, ConfError>
    ensures { Gives is_out_of_memory result (members.mtu_at (view object.now)) }
{
    let given = given_mtu(alloc, object)?;
    Ok(given.unwrap_or(DEFAULT_MTU))
}
