//! JSON that can be printed as a line.

ghost use Rattle.std.specs.Prelude.{◌≡◌, ◌++◌, false, map, All, IfOk, OnOk};
ghost use Rattle.std.specs.List.{flat_map};
ghost use Rattle.cni_json.specs.Json.{line_of};
ghost use Rattle.serde_json.specs.View.{view as data_of};
ghost use Rattle.serde_json.specs.Written.{has_float};

use cni_addr::NoMemory;
use kernel_text::push_line;
use serde_json::Value;
use std::alloc::Global;
use std::marker::Model;

/// A value each number of which is a `u64` or an `i64`. Contracts see what is printed.
#[derive(Drop)]
pub(crate) struct Printable {
    value: Value,
}

impl Model for Printable {
    ghost use Rattle.std.specs.Prelude.{◌≡◌, false};
    ghost use Rattle.serde_json.specs.Data.{Data};
    ghost use Rattle.serde_json.specs.View.{view as data_of};
    ghost use Rattle.serde_json.specs.Written.{has_float};
    ghost use Rattle.plugin_requests.specs.DataCode.{data_code};

    ghost Value = { Data };

    ghost coded = { data_code };

    ghost view = { λ p. data_of p.value };

    ghost invariant = { λ p. has_float (data_of p.value) ≡ false };
}

impl Printable {
    /// Takes no memory.
    pub(crate) fn new(value: Value) -> Printable
        requires { has_float (data_of value) ≡ false }
        ensures { result ≡ data_of value }
    {
        Printable { value }
    }

    /// The value as it is read. Takes no memory.
    pub(crate) fn value(&self) -> &Value
        ensures data { data_of result.now ≡ self.now }
        ensures numbers { has_float self.now ≡ false }
    {
        &self.value
    }

    /// The value itself. Takes no memory.
    pub(crate) fn into_value(self) -> Value
        ensures data { data_of result ≡ self }
        ensures numbers { has_float self ≡ false }
    {
        let Printable { value } = self;
        value
    }
}

/// The values as they can be printed. Takes no memory but for the list.
pub(crate) fn printables(alloc: Global, values: Vec<Value>) -> Result<Vec<Printable>, NoMemory>
    requires { All (λ v. has_float (data_of v) ≡ false) values.items }
    ensures { IfOk result (λ made. made.items ≡ map data_of values.items) }
{
    let mut made = Vec::with_capacity(alloc, values.len())?;
    for value in values {
        made.push(Printable::new(value))?;
    }
    Ok(made)
}

/// Appends each on a line of its own.
pub(crate) fn push_lines(
    alloc: Global,
    values: &[Printable],
    lines: &mut Vec<u8>,
) -> Result<(), NoMemory>
    ensures { OnOk result (lines.new.items ≡ lines.old.items ++ flat_map line_of values.now) }
{
    for value in values {
        push_line(alloc, value.value(), lines)?;
    }
    Ok(())
}
