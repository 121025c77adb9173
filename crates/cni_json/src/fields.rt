//! Members of an object, each asked for by its key and the kind that it is to have.

ghost use Rattle.std.specs.Prelude.{◌≡◌, Err, option_map};
ghost use Rattle.serde_json.specs.View.{view, items_view};
ghost use Rattle.cni_json.specs.Fields.{field_map, member_at, of_kind, text_field, bool_field, u64_field, u32_field};
ghost use Rattle.cni_json.specs.Fields.{u32_of, list_field, object_field, object_or};
ghost use Rattle.cni_json.specs.Outcome.{Gives};
ghost use Rattle.cni_json.specs.Readers.{IsRefusal};

use crate::refusal::Refusal;
use serde_json::Value;

/// What an object has under a key, by the kind that was asked for.
#[derive(Clone, Copy, Debug, PartialEq, Eq, Drop)]
pub enum Field<T> {
    /// The value that was asked is no object, has no such key, or has null there.
    Absent,
    /// The member is there and of another kind.
    WrongKind,
    /// The member, of the kind that was asked for.
    Here(T),
}

/// The member under the key. One that is null is as an absent one.
pub fn member<'a>(object: &'a Value, key: &str) -> Option<&'a Value>
    ensures { option_map (λ v. view v.now) result ≡ member_at key.now (view object.entry.now) }
{
    match object.get(key) {
        None | Some(Value::Null) => None,
        there => there,
    }
}

/// A value that is there, of the kind that is asked for or of another.
fn of_kind<T>(found: Option<T>) -> Field<T>
    ensures { result ≡ of_kind found }
{
    match found {
        Some(value) => Field::Here(value),
        None => Field::WrongKind,
    }
}

/// The member that is a text. It is one look-up of the key and takes no memory, as its kin.
pub fn field_str<'a>(object: &'a Value, key: &str) -> Field<&'a str>
    ensures { field_map (λ s. s.now) result ≡ text_field key.now (view object.entry.now) }
{
    match member(object, key) {
        None => Field::Absent,
        Some(Value::String(text)) => Field::Here(text.as_str()),
        Some(_) => Field::WrongKind,
    }
}

/// The member that is a boolean.
pub fn field_bool(object: &Value, key: &str) -> Field<bool>
    ensures { result ≡ bool_field key.now (view object.now) }
{
    match member(object, key) {
        None => Field::Absent,
        Some(Value::Bool(flag)) => Field::Here(*flag),
        Some(_) => Field::WrongKind,
    }
}

/// The member that is a whole number from 0 to 2^64 - 1. A number below 0 is another kind.
pub fn field_u64(object: &Value, key: &str) -> Field<u64>
    ensures { result ≡ u64_field key.now (view object.now) }
{
    match member(object, key) {
        None => Field::Absent,
        Some(value) => of_kind(value.as_u64()),
    }
}

/// The member that is a whole number of 32 bits. A greater number is another kind.
pub fn field_u32(object: &Value, key: &str) -> Field<u32>
    ensures { result ≡ u32_field key.now (view object.now) }
{
    match member(object, key) {
        None => Field::Absent,
        Some(value) => of_kind(u32_of(value)),
    }
}

/// The value as a whole number of 32 bits, where it is one.
pub fn u32_of(value: &Value) -> Option<u32>
    ensures { result ≡ u32_of (view value.now) }
{
    u32::try_from(value.as_u64()?).ok()
}

/// The member that is a list, as the slice of its items.
pub fn field_list<'a>(object: &'a Value, key: &str) -> Field<&'a [Value]>
    ensures { field_map (λ s. items_view s.now) result ≡ list_field key.now (view object.entry.now) }
{
    match member(object, key) {
        None => Field::Absent,
        Some(Value::Array(items)) => Field::Here(items.as_slice()),
        Some(_) => Field::WrongKind,
    }
}

/// The member that is an object.
pub fn field_object<'a>(object: &'a Value, key: &str) -> Field<&'a Value>
    ensures { field_map (λ v. view v.now) result ≡ object_field key.now (view object.entry.now) }
{
    match member(object, key) {
        None => Field::Absent,
        Some(value) if value.is_object() => Field::Here(value),
        Some(_) => Field::WrongKind,
    }
}

/// Refuses a value that is no object.
#[tactic(auto, using(crate::proofs::Steps::steps))]
pub fn need_object<E: Refusal, W: FnOnce() -> E>(value: &Value, refusal: W) -> Result<(), E>
    requires { W.IsAlwaysCallable refusal }
    ensures { (wanted : E) → IsRefusal E.is_out_of_memory W.FnOnce refusal wanted
        → Gives E.is_out_of_memory result (object_or (Err wanted) (view value.now)) }
{
    value.is_object().then_some(()).ok_or_else(refusal)
}
