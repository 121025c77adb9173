//! The port mappings of a command.

ghost use Rattle.serde_json.specs.View.{view};
ghost use Rattle.cni_json.specs.Fields.{object_or};
ghost use Rattle.cni_json.specs.Outcome.{Gives};
ghost use Rattle.pod_file.specs.Members as defined;
ghost use Rattle.pod_file.specs.Refusals.{is_out_of_memory, wrong_key};

use crate::command::RawMapping;
use crate::error::{PodError, wrong_key};
use crate::fields::{inner_text, list};
use crate::place::Place;
use cni_addr::{Items, Text};
use cni_json::{Field, Value, field_u64, need_object};
use std::alloc::Global;

/// The port mappings, as they are written.
#[tactic(auto, using(cni_json::proofs::Steps::steps), unfolding(crate::specs::Members::mappings_at))]
pub(crate) fn mappings(
    alloc: Global,
    place: Place,
    command: &Value,
) -> Result<Items<RawMapping>, PodError>
    ensures { Gives is_out_of_memory result (defined.mappings_at place (view command.now)) }
{
    list(
        alloc,
        place,
        "portMappings",
        command,
        |member| mapping(alloc, place, member),
    )
}

#[tactic(auto, using(cni_json::proofs::Steps::steps), unfolding(crate::specs::Members::mapping_at))]
fn mapping(alloc: Global, place: Place, member: &Value) -> Result<RawMapping, PodError>
    ensures { Gives is_out_of_memory result (defined.mapping_at place (view member.now)) }
{
    need_object_in(alloc, place, "portMappings", member)?;
    let host_port = port(alloc, place, "hostPort", member)?;
    let container_port = port(alloc, place, "containerPort", member)?;
    let protocol = mapping_text(alloc, place, "protocol", member)?;
    let host_ip = mapping_text(alloc, place, "hostIP", member)?;
    Ok(RawMapping {
        host_port,
        container_port,
        protocol,
        host_ip,
    })
}

#[tactic(auto, using(cni_json::proofs::Steps::steps))]
fn need_object_in(alloc: Global, place: Place, outer: &str, member: &Value) -> Result<(), PodError>
    ensures { Gives is_out_of_memory result (object_or (wrong_key place outer.now) (view member.now)) }
{
    need_object(member, || wrong_key(alloc, place, outer))
}

#[tactic(auto, using(cni_json::proofs::Steps::steps), unfolding(crate::specs::Members::port_at))]
fn port(alloc: Global, place: Place, key: &str, mapping: &Value) -> Result<u64, PodError>
    ensures { Gives is_out_of_memory result (defined.port_at place key.now (view mapping.now)) }
{
    match field_u64(mapping, key) {
        Field::Absent => Ok(0),
        Field::WrongKind => Err(wrong_key(alloc, place, "portMappings")),
        Field::Here(port) => Ok(port),
    }
}

#[tactic(auto, unfolding(crate::specs::Members::mapping_text_at))]
fn mapping_text(alloc: Global, place: Place, key: &str, mapping: &Value) -> Result<Text, PodError>
    ensures { Gives is_out_of_memory result (defined.mapping_text_at place key.now (view mapping.now)) }
{
    inner_text(alloc, place, "portMappings", key, "", mapping)
}
