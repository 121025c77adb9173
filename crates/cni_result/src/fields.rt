//! Members of an object that is read. Each takes the key that is to blame where the member is wrong.

ghost use Rattle.serde_json.specs.View.{view};
ghost use Rattle.cni_json.specs.Outcome.{Gives};
ghost use Rattle.cni_result.specs.Reading.{text_at, text_if_at, cidr_at, addr_if_at, mac_if_at, number_if_at};
ghost use Rattle.cni_result.specs.Refusals.{is_out_of_memory};

use crate::refusal::{ResultError, invalid};
use cni_addr::{Addr, Cidr, Mac, Text, read_addr, read_cidr, read_mac};
use cni_json::{Field, Value, field_str, field_u32};
use std::alloc::Global;

/// A text that must be there.
#[tactic(auto, using(cni_json::proofs::Steps::steps), unfolding(crate::specs::Reading::text_at))]
pub(crate) fn text(
    alloc: Global,
    object: &Value,
    key: &str,
    blamed: &str,
) -> Result<Text, ResultError>
    ensures { Gives is_out_of_memory result (text_at blamed.now key.now (view object.now)) }
{
    match field_str(object, key) {
        Field::Absent | Field::WrongKind => Err(invalid(alloc, blamed)),
        Field::Here(text) => Ok(Text::of(alloc, text)?),
    }
}

/// A text that may be absent.
#[tactic(auto, using(cni_json::proofs::Steps::steps), unfolding(crate::specs::Reading::text_if_at))]
pub(crate) fn text_if(
    alloc: Global,
    object: &Value,
    key: &str,
    blamed: &str,
) -> Result<Option<Text>, ResultError>
    ensures { Gives is_out_of_memory result (text_if_at blamed.now key.now (view object.now)) }
{
    match field_str(object, key) {
        Field::Absent => Ok(None),
        Field::WrongKind => Err(invalid(alloc, blamed)),
        Field::Here(text) => Ok(Some(Text::of(alloc, text)?)),
    }
}

/// A network that must be there.
#[tactic(auto, using(cni_json::proofs::Steps::steps), unfolding(crate::specs::Reading::cidr_at))]
pub(crate) fn cidr(
    alloc: Global,
    object: &Value,
    key: &str,
    blamed: &str,
) -> Result<Cidr, ResultError>
    ensures { Gives is_out_of_memory result (cidr_at blamed.now key.now (view object.now)) }
{
    let Field::Here(text) = field_str(object, key) else {
        return Err(invalid(alloc, blamed));
    };
    read_cidr(text.as_bytes()).ok_or_else(|| invalid(alloc, blamed))
}

/// An address that may be absent.
#[tactic(auto, using(cni_json::proofs::Steps::steps), unfolding(crate::specs::Reading::addr_if_at))]
pub(crate) fn addr_if(
    alloc: Global,
    object: &Value,
    key: &str,
    blamed: &str,
) -> Result<Option<Addr>, ResultError>
    ensures { Gives is_out_of_memory result (addr_if_at blamed.now key.now (view object.now)) }
{
    match field_str(object, key) {
        Field::Absent => Ok(None),
        Field::WrongKind => Err(invalid(alloc, blamed)),
        Field::Here(text) => match read_addr(text.as_bytes()) {
            Some(addr) => Ok(Some(addr)),
            None => Err(invalid(alloc, blamed)),
        },
    }
}

/// A hardware address that may be absent.
#[tactic(auto, using(cni_json::proofs::Steps::steps), unfolding(crate::specs::Reading::mac_if_at))]
pub(crate) fn mac_if(
    alloc: Global,
    object: &Value,
    key: &str,
    blamed: &str,
) -> Result<Option<Mac>, ResultError>
    ensures { Gives is_out_of_memory result (mac_if_at blamed.now key.now (view object.now)) }
{
    match field_str(object, key) {
        Field::Absent => Ok(None),
        Field::WrongKind => Err(invalid(alloc, blamed)),
        Field::Here(text) => match read_mac(text.as_bytes()) {
            Some(mac) => Ok(Some(mac)),
            None => Err(invalid(alloc, blamed)),
        },
    }
}

/// A number below 2^32 that may be absent.
#[tactic(auto, using(cni_json::proofs::Steps::steps), unfolding(crate::specs::Reading::number_if_at))]
pub(crate) fn number_if(
    alloc: Global,
    object: &Value,
    key: &str,
    blamed: &str,
) -> Result<Option<u32>, ResultError>
    ensures { Gives is_out_of_memory result (number_if_at blamed.now key.now (view object.now)) }
{
    match field_u32(object, key) {
        Field::Absent => Ok(None),
        Field::WrongKind => Err(invalid(alloc, blamed)),
        Field::Here(number) => Ok(Some(number)),
    }
}
