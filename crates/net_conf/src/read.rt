//! The reader of network lists.

ghost use Rattle.std.specs.Prelude.{◌≡◌, ◌≤◌, false, IfOk};
ghost use Rattle.serde_json.specs.Data.{depth};
ghost use Rattle.serde_json.specs.Read.{max_depth};
ghost use Rattle.serde_json.specs.View.{view};
ghost use Rattle.serde_json.specs.Written.{has_float};
ghost use Rattle.cni_json.specs.Json.{json_of};
ghost use Rattle.cni_json.specs.Outcome.{Gives, GivesAs};
ghost use Rattle.net_conf.specs.List as defined;
ghost use Rattle.net_conf.specs.Refusals.{is_out_of_memory};

use crate::error::{ConfError, invalid};
use crate::list::{DISABLE_CHECK_KEY, DISABLE_GC_KEY, ListHeader, NetList};
use crate::names::is_network_name;
use crate::plugins::plugin_chain;
use crate::versions::version;
use cni_addr::Text;
use cni_json::{Field, ReadEnd, Value, field_str, member, need_object};
use std::alloc::Global;

/// The network list that the bytes spell (CNI specification 1.1.0, section 1), or the first refusal in the order of its
/// parts. It takes time in proportion to the bytes, and that of a sort of the ranges.
#[tactic(auto, using(cni_json::proofs::Steps::steps), unfolding(crate::specs::List::list_of))]
pub fn read_list(alloc: Global, bytes: &[u8]) -> Result<NetList, ConfError>
    ensures { Gives is_out_of_memory result (defined.list_of bytes.now) }
{
    let top = decode(alloc, bytes)?;
    network_list(alloc, &top)
}

/// The JSON value that the bytes spell, or [`ConfError::Decode`], or that its numbers are [`ConfError::Invalid`]: one
/// is neither a `u64` nor an `i64`.
pub fn decode(alloc: Global, bytes: &[u8]) -> Result<Value, ConfError>
    ensures outcome { GivesAs is_out_of_memory view result (defined.read_or_refused (json_of bytes.now)) }

    // What the other readers ask of a value, and what a line of it needs to be read again.
    ensures numbers { IfOk result (λ value. has_float (view value) ≡ false) }
    ensures nests { IfOk result (λ value. depth (view value) ≤ max_depth) }
{
    match cni_json::read(alloc, bytes) {
        Ok(value) => Ok(value),
        Err(ReadEnd::Decode) => Err(ConfError::Decode),
        Err(ReadEnd::Number) => Err(invalid(alloc, "number")),
        Err(ReadEnd::NoMemory) => Err(ConfError::NoMemory),
    }
}

/// The network list that the value is, or the first refusal in the order of its parts.
#[tactic(auto, using(cni_json::proofs::Steps::steps), unfolding(crate::specs::List::network_list_at))]
pub fn network_list(alloc: Global, top: &Value) -> Result<NetList, ConfError>
    requires { has_float (view top.now) ≡ false }
    ensures { Gives is_out_of_memory result (defined.network_list_at (view top.now)) }
{
    let header = list_header(alloc, top)?;
    let disable_check = check_disabled(alloc, top)?;
    let disable_gc = gc_disabled(alloc, top)?;
    let plugins = plugin_chain(alloc, top)?;
    Ok(NetList {
        version: header.version,
        name: header.name,
        disable_check,
        disable_gc,
        first: plugins.first,
        chained: plugins.chained,
    })
}

/// What the list that the value is says of itself, or the first refusal: no object (`list`), the version, the name.
/// Nothing else of the value is looked at.
#[tactic(auto, using(cni_json::proofs::Steps::steps), unfolding(crate::specs::List::header_at))]
pub fn list_header(alloc: Global, top: &Value) -> Result<ListHeader, ConfError>
    ensures { Gives is_out_of_memory result (defined.header_at (view top.now)) }
{
    need_object(top, || invalid(alloc, "list"))?;
    let version = version(alloc, top)?;
    let name = name(alloc, top)?;
    Ok(ListHeader { version, name })
}

#[tactic(auto, using(cni_json::proofs::Steps::steps), unfolding(crate::specs::List::name_at))]
fn name(alloc: Global, top: &Value) -> Result<Text, ConfError>
    ensures { Gives is_out_of_memory result (defined.name_at (view top.now)) }
{
    match field_str(top, "name") {
        Field::Here(name) if is_network_name(name) => Ok(Text::of(alloc, name)?),
        Field::Here(_) | Field::Absent | Field::WrongKind => Err(invalid(alloc, "name")),
    }
}

fn check_disabled(alloc: Global, top: &Value) -> Result<bool, ConfError>
    ensures { Gives is_out_of_memory result (defined.switch_at defined.disable_check_key (view top.now)) }
{
    switch(alloc, top, DISABLE_CHECK_KEY)
}

fn gc_disabled(alloc: Global, top: &Value) -> Result<bool, ConfError>
    ensures { Gives is_out_of_memory result (defined.switch_at defined.disable_gc_key (view top.now)) }
{
    switch(alloc, top, DISABLE_GC_KEY)
}

/// A truth value, or the text of one. Absent is false.
#[tactic(auto, using(cni_json::proofs::Steps::steps), unfolding(crate::specs::List::switch_at))]
fn switch(alloc: Global, top: &Value, key: &str) -> Result<bool, ConfError>
    ensures { Gives is_out_of_memory result (defined.switch_at key.now (view top.now)) }
{
    match member(top, key) {
        None => Ok(false),
        Some(Value::Bool(flag)) => Ok(*flag),
        Some(Value::String(text)) => match text.as_str() {
            "true" => Ok(true),
            "false" => Ok(false),
            _ => Err(invalid(alloc, key)),
        },
        Some(_) => Err(invalid(alloc, key)),
    }
}
