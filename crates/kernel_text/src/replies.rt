//! Calls, replies, and entries of the history.

ghost use Rattle.std.specs.Prelude.{◌≡◌, false, IfOk};
ghost use Rattle.serde_json.specs.View.{view};
ghost use Rattle.serde_json.specs.Written.{has_float};
ghost use Rattle.kernel_text.specs.Replies.{call_name, reply_text, trace_data};

use crate::tags::tag_text;
use cni_addr::{NoMemory, Text, write_addr};
use cni_json::JsonObject;
use kernel_types::{Call, Reply};
use serde_json::Value;
use std::alloc::Global;

/// The kind of the call. Takes no memory.
pub fn call_name(call: &Call) -> &'static str
    ensures { result.now ≡ call_name call.now }
{
    match call {
        Call::Begin { .. } => "Begin",
        Call::BridgeEnsure { .. } => "BridgeEnsure",
        Call::GatewayEnsure { .. } => "GatewayEnsure",
        Call::ForwardEnsure { .. } => "ForwardEnsure",
        Call::VethAdd { .. } => "VethAdd",
        Call::MacvlanAdd { .. } => "MacvlanAdd",
        Call::LinkSet { .. } => "LinkSet",
        Call::AddrAdd { .. } => "AddrAdd",
        Call::RouteAdd { .. } => "RouteAdd",
        Call::RuleAppend { .. } => "RuleAppend",
        Call::SettingSet { .. } => "SettingSet",
        Call::LeaseNext { .. } => "LeaseNext",
        Call::CachePut { .. } => "CachePut",
        Call::LinkDel { .. } => "LinkDel",
        Call::RuleDel { .. } => "RuleDel",
        Call::SettingDel { .. } => "SettingDel",
        Call::LeaseDel { .. } => "LeaseDel",
        Call::CacheDel { .. } => "CacheDel",
        Call::HasObj { .. } => "HasObj",
        Call::CacheGet { .. } => "CacheGet",
        Call::OwnersOf { .. } => "OwnersOf",
        Call::PoolFree { .. } => "PoolFree",
        Call::NsChange { .. } => "NsChange",
        Call::Outside { .. } => "Outside",
    }
}

/// The reply as a text: of owners their number, of a cached result whether there is one.
pub fn reply_text(alloc: Global, reply: &Reply) -> Result<Text, NoMemory>
    ensures { IfOk result (λ text. text ≡ reply_text reply.now) }
{
    match reply {
        Reply::Done => Text::of(alloc, "Done"),
        Reply::NoNs => Text::of(alloc, "NoNs"),
        Reply::NoLink => Text::of(alloc, "NoLink"),
        Reply::Taken(tag) => {
            let owner = tag_text(alloc, tag)?;
            let owner = owner.as_str();
            Text::of(alloc, format!(in alloc; "Taken {owner}")?.as_str())
        }
        Reply::Empty => Text::of(alloc, "Empty"),
        Reply::Leased(addr) => {
            let address = write_addr(alloc, addr)?;
            let address = address.as_str();
            Text::of(alloc, format!(in alloc; "Leased {address}")?.as_str())
        }
        Reply::Gone(true) => Text::of(alloc, "Gone true"),
        Reply::Gone(false) => Text::of(alloc, "Gone false"),
        Reply::Has(true) => Text::of(alloc, "Has true"),
        Reply::Has(false) => Text::of(alloc, "Has false"),
        Reply::Owners(owners) => {
            let count = owners.as_slice().len();
            Text::of(alloc, format!(in alloc; "Owners {count}")?.as_str())
        }
        Reply::Entry(None) => Text::of(alloc, "Entry none"),
        Reply::Entry(Some(_)) => Text::of(alloc, "Entry some"),
        Reply::Fault => Text::of(alloc, "Fault"),
    }
}

/// An entry of the history as JSON: its number, counted from 1, the number of its command, the name of the call, and
/// the reply.
#[tactic(auto, unfolding(crate::specs::Replies::trace_data))]
pub fn trace_value(
    alloc: Global,
    index: u64,
    command: u32,
    call: &Call,
    reply: &Reply,
) -> Result<Value, NoMemory>
    ensures json { IfOk result (λ v. view v ≡ trace_data index command call.now reply.now) }
    ensures numbers { IfOk result (λ v. has_float (view v) ≡ false) }
{
    let mut object = JsonObject::new(alloc);
    object.put_text("call", call_name(call))?;
    object.put("i", &index)?;
    object.put("n", &command)?;
    object.put("reply", &reply_text(alloc, reply)?)?;
    Ok(object.into_value())
}
