//! The members of a request, each with its refusal.

ghost use Rattle.std.specs.Prelude.{◌≡◌, IfErr, false};
ghost use Rattle.serde_json.specs.View.{items_view, view};
ghost use Rattle.serde_json.specs.Written.{has_float};
ghost use Rattle.cni_json.specs.Each.{each};
ghost use Rattle.cni_json.specs.Outcome.{Gives};
ghost use Rattle.net_conf.specs.Refusals.{is_out_of_memory};
ghost use Rattle.exec_protocol.specs.Reading as defined;
ghost use Rattle.exec_protocol.specs.Refusals as requests;

use crate::error::RequestError;
use cni_addr::{Items, Text};
use cni_json::{
    Field, Value, field_list, field_object, field_str, member, read_each, read_list_or,
};
use cni_result::{AddResult, PortMapping, read_mapping, result_of};
use net_conf::{ConfError, ListHeader, Plugin, invalid, list_header, plugin_by_type};
use pod_file::{ValidAtt, Verb};
use std::alloc::Global;

/// The key of the attachments that a GC is to keep.
const VALID_KEY: &str = "cni.dev/valid-attachments";

// ---- the network and the plugin

/// What a request says of the network and of its plugin.
#[derive(Drop)]
pub(crate) struct RequestHead {
    pub header: ListHeader,
    pub plugin: Plugin,
}

#[tactic(auto, using(cni_json::proofs::Steps::steps), unfolding(crate::specs::Reading::head_at))]
pub(crate) fn head(alloc: Global, request: &Value) -> Result<RequestHead, ConfError>
    requires { has_float (view request.now) ≡ false }
    ensures { Gives is_out_of_memory result (defined.head_at (view request.now)) }
{
    let header = list_header(alloc, request)?;
    let plugin = plugin_by_type(alloc, request)?;
    Ok(RequestHead { header, plugin })
}

// ---- the result before it

#[tactic(auto, using(cni_json::proofs::Steps::steps, crate::proofs::Steps::refusals), unfolding(crate::specs::Reading::prev_at))]
fn prev(alloc: Global, request: &Value) -> Result<Option<AddResult>, RequestError>
    ensures exact { Gives requests.is_out_of_memory result (defined.prev_at (view request.now)) }
    ensures memory { IfErr result requests.TellsNoMemoryOnce }
{
    match member(request, "prevResult") {
        None => Ok(None),
        Some(value) => {
            let result = result_of(alloc, value)?;
            Ok(Some(result))
        }
    }
}

fn lacks_prev(verb: Verb, plugin: &Plugin, prev: &Option<AddResult>) -> bool
    ensures { result ≡ defined.lacks_prev verb plugin.now prev.now }
{
    matches!((verb, plugin, prev), (Verb::Add, Plugin::Chained(_), None))
}

#[tactic(auto, using(cni_json::proofs::Steps::steps), unfolding(crate::specs::Reading::prev_needed))]
fn prev_needed(
    alloc: Global,
    verb: Verb,
    plugin: &Plugin,
    prev: &Option<AddResult>,
) -> Result<(), ConfError>
    ensures { Gives is_out_of_memory result (defined.prev_needed verb plugin.now prev.now) }
{
    (!lacks_prev(verb, plugin, prev))
        .then_some(())
        .ok_or_else(|| invalid(alloc, "prevResult"))
}

/// The result of the plugin before, which must be there where a chained plugin is to add.
#[tactic(auto, using(cni_json::proofs::Steps::steps, crate::proofs::Steps::refusals), unfolding(crate::specs::Reading::needed_prev_at))]
pub(crate) fn needed_prev(
    alloc: Global,
    verb: Verb,
    plugin: &Plugin,
    request: &Value,
) -> Result<Option<AddResult>, RequestError>
    ensures exact { Gives requests.is_out_of_memory result
        (defined.needed_prev_at verb plugin.now (view request.now)) }
    ensures memory { IfErr result requests.TellsNoMemoryOnce }
{
    let prev = prev(alloc, request)?;
    prev_needed(alloc, verb, plugin, &prev)?;
    Ok(prev)
}

// ---- the port mappings

#[tactic(auto, using(cni_json::proofs::Steps::steps), unfolding(crate::specs::Reading::mapping_at))]
fn mapping(alloc: Global, entry: &Value) -> Result<PortMapping, ConfError>
    ensures { Gives is_out_of_memory result (defined.mapping_at (view entry.now)) }
{
    read_mapping(entry).ok_or_else(|| invalid(alloc, "runtimeConfig"))
}

#[tactic(auto, using(cni_json::proofs::Steps::steps), unfolding(crate::specs::Reading::runtime_mappings_at))]
fn runtime_mappings(alloc: Global, config: &Value) -> Result<Items<PortMapping>, ConfError>
    ensures { Gives is_out_of_memory result (defined.runtime_mappings_at (view config.now)) }
{
    read_list_or(
        alloc,
        config,
        "portMappings",
        || invalid(alloc, "runtimeConfig"),
        |entry| mapping(alloc, entry),
    )
}

#[tactic(auto, using(cni_json::proofs::Steps::steps), unfolding(crate::specs::Reading::mappings_at))]
fn mappings(alloc: Global, request: &Value) -> Result<Items<PortMapping>, ConfError>
    ensures { Gives is_out_of_memory result (defined.mappings_at (view request.now)) }
{
    match field_object(request, "runtimeConfig") {
        Field::Absent => Ok(Items::new(alloc)),
        Field::WrongKind => Err(invalid(alloc, "runtimeConfig")),
        Field::Here(config) => runtime_mappings(alloc, config),
    }
}

// ---- the attachments that a GC keeps

#[tactic(auto, using(cni_json::proofs::Steps::steps), unfolding(crate::specs::Reading::valid_text_at))]
fn valid_text(alloc: Global, key: &str, attachment: &Value) -> Result<Text, ConfError>
    ensures { Gives is_out_of_memory result (defined.valid_text_at key.now (view attachment.now)) }
{
    match field_str(attachment, key) {
        Field::Absent | Field::WrongKind => Err(invalid(alloc, VALID_KEY)),
        Field::Here(text) => Ok(Text::of(alloc, text)?),
    }
}

#[tactic(auto, using(cni_json::proofs::Steps::steps), unfolding(crate::specs::Reading::valid_attachment_at))]
fn valid_attachment(alloc: Global, attachment: &Value) -> Result<ValidAtt, ConfError>
    ensures { Gives is_out_of_memory result (defined.valid_attachment_at (view attachment.now)) }
{
    let container = valid_text(alloc, "containerID", attachment)?;
    let ifname = valid_text(alloc, "ifname", attachment)?;
    Ok(ValidAtt { container, ifname })
}

#[tactic(auto, using(cni_json::proofs::Steps::steps))]
fn valid_attachments(alloc: Global, list: &[Value]) -> Result<Items<ValidAtt>, ConfError>
    ensures { Gives is_out_of_memory result (each defined.valid_attachment_at (items_view list.now)) }
{
    read_each(
        alloc,
        list,
        |attachment| valid_attachment(alloc, attachment),
    )
}

#[tactic(auto, using(cni_json::proofs::Steps::steps), unfolding(crate::specs::Reading::valid_at))]
fn valid(alloc: Global, request: &Value) -> Result<Option<Items<ValidAtt>>, ConfError>
    ensures { Gives is_out_of_memory result (defined.valid_at (view request.now)) }
{
    match field_list(request, VALID_KEY) {
        Field::Absent => Ok(None),
        Field::WrongKind => Err(invalid(alloc, VALID_KEY)),
        Field::Here(list) => {
            let valid = valid_attachments(alloc, list)?;
            Ok(Some(valid))
        }
    }
}

// ---- both

/// What a runtime adds to a request, but for a result.
#[derive(Drop)]
pub(crate) struct RuntimeParts {
    pub mappings: Items<PortMapping>,
    pub valid: Option<Items<ValidAtt>>,
}

#[tactic(auto, using(cni_json::proofs::Steps::steps), unfolding(crate::specs::Reading::runtime_parts_at))]
pub(crate) fn runtime_parts(alloc: Global, request: &Value) -> Result<RuntimeParts, ConfError>
    ensures { Gives is_out_of_memory result (defined.runtime_parts_at (view request.now)) }
{
    let mappings = mappings(alloc, request)?;
    let valid = valid(alloc, request)?;
    Ok(RuntimeParts { mappings, valid })
}
