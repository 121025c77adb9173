//! Reading bytes as one JSON value whose numbers are whole and have 64 bits.

ghost use Rattle.std.specs.Prelude.{◌≡◌, ◌≤◌, false, IfOk};
ghost use Rattle.serde_json.specs.Data.{depth};
ghost use Rattle.serde_json.specs.Read.{max_depth};
ghost use Rattle.serde_json.specs.View.{view, items_view, members_view};
ghost use Rattle.serde_json.specs.Written.{has_float, items_have_float, members_have_float};
ghost use Rattle.cni_json.specs.Json.{json_of};
ghost use Rattle.cni_json.specs.Outcome.{GivesAs};
ghost use Rattle.cni_json.specs.ReadEnds.{is_out_of_memory};

use serde_json::{Map, Value};
use std::alloc::Global;

/// Why bytes were not read.
#[derive(Clone, Copy, Debug, PartialEq, Eq)]
pub enum ReadEnd {
    /// The bytes are no JSON text (RFC 8259) in UTF-8, have a number too large for an `f64`, or
    /// nest more than 127 lists and objects into one another.
    Decode,
    /// They are JSON, and some number that stays in the value is neither a `u64` nor an `i64`.
    Number,
    /// Memory ran out.
    NoMemory,
}

/// The value that the bytes are.
///
/// Of two members with one name the last stands, and the number in the other is not looked at. `-0`,
/// a fraction, an exponent and an integer of more than 64 bits are each `Number`. It takes time and
/// memory in proportion to the bytes.
pub fn read(alloc: Global, bytes: &[u8]) -> Result<Value, ReadEnd>
    ensures outcome { GivesAs is_out_of_memory view result (json_of bytes.now) }

    // What `line` and its reading again ask for.
    ensures numbers { IfOk result (λ value. has_float (view value) ≡ false) }
    ensures nests { IfOk result (λ value. depth (view value) ≤ max_depth) }
{
    match Value::from_slice(alloc, bytes) {
        Ok(value) if has_other_number(&value) => Err(ReadEnd::Number),
        Ok(value) => Ok(value),
        Err(error) if error.is_memory() => Err(ReadEnd::NoMemory),
        Err(_) => Err(ReadEnd::Decode),
    }
}

/// Whether some number in the value is neither a `u64` nor an `i64`.
#[cycle(other_number)]
fn has_other_number(value: &Value) -> bool
    ensures { result ≡ has_float (view value.now) }
{
    match value {
        Value::Number(number) => number.is_f64(),
        Value::Array(items) => items_have_other_number(items),
        Value::Object(members) => members_have_other_number(members),
        Value::Null | Value::Bool(_) | Value::String(_) => false,
    }
}

#[cycle(other_number)]
fn items_have_other_number(items: &Vec<Value>) -> bool
    ensures { result ≡ items_have_float (items_view items.now.items) }
{
    for item in items {
        if has_other_number(item) {
            return true;
        }
    }
    false
}

#[cycle(other_number)]
fn members_have_other_number(members: &Map<String, Value>) -> bool
    ensures { result ≡ members_have_float (members_view members.now.entries) }
{
    for (_, member) in members.iter() {
        if has_other_number(member) {
            return true;
        }
    }
    false
}
