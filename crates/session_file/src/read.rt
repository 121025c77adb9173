//! The reader of session files.

ghost use Rattle.std.specs.Prelude.{◌≡◌, false, IfErr, IfOk};
ghost use Rattle.serde_json.specs.View.{view};
ghost use Rattle.serde_json.specs.Written.{has_float};
ghost use Rattle.cni_json.specs.Outcome.{Gives};
ghost use Rattle.pod_file.specs.Opening.{opening_at};
ghost use Rattle.pod_file.specs.Refusals.{is_out_of_memory};
ghost use Rattle.session_file.specs.SessionFile as defined;
ghost use Rattle.session_file.specs.WellFormed.{IsSessionConf};

use crate::laws::session_file_laws;
use crate::session::SessionConf;
use crate::tasks::tasks;
use cni_addr::Text;
use cni_json::{Field, ReadEnd, Value, field_str, member, need_object};
use kernel_types::Host;
use net_conf::{ConfError, HostLocalConf, is_network_name, read_ipam};
use pod_file::fields::wrong;
use pod_file::{PodError, read_opening};
use std::alloc::Global;

/// The session that the bytes spell, or the first refusal: an object with `network`, `ipam`, `opening` and `tasks`,
/// which are looked at in this order.
///
/// The `network` must be there, and be a name as a network list has it. Whatever is wrong in the `ipam` has the path
/// `ipam`. More than 65,536 tasks are wrong at `tasks`, before any of them is looked at, and what is wrong in one has
/// the path of its key, as `tasks[2].options`. A member that is null is as an absent one, and unnamed members are
/// ignored.
///
/// It takes time and memory in proportion to the bytes, beside sorts of the ranges and of the opening's names.
#[tactic(auto, using(cni_json::proofs::Steps::steps), unfolding(crate::specs::SessionFile::session_of))]
pub fn read_session(alloc: Global, bytes: &[u8]) -> Result<SessionConf, PodError>
    ensures exact { Gives is_out_of_memory result (defined.session_of bytes.now) }
    ensures well_formed { IfOk result IsSessionConf }
    ensures never_alone { IfErr result (λ e. defined.is_of_round e ≡ false) }
{
    session_file_laws();
    match cni_json::read(alloc, bytes) {
        Ok(top) => session(alloc, &top),
        Err(ReadEnd::Decode) => Err(PodError::Decode),
        Err(ReadEnd::Number) => Err(PodError::Number),
        Err(ReadEnd::NoMemory) => Err(PodError::NoMemory),
    }
}

#[tactic(auto, using(cni_json::proofs::Steps::steps), unfolding(crate::specs::SessionFile::session_at))]
fn session(alloc: Global, top: &Value) -> Result<SessionConf, PodError>
    requires { has_float (view top.now) ≡ false }
    ensures { Gives is_out_of_memory result (defined.session_at (view top.now)) }
{
    need_object(top, || wrong(alloc, ""))?;
    let network = network(alloc, top)?;
    let ipam = pools(alloc, top)?;
    let opening = opening(alloc, top)?;
    let tasks = tasks(alloc, top)?;
    Ok(SessionConf {
        network,
        ipam,
        opening,
        tasks,
    })
}

#[tactic(auto, using(cni_json::proofs::Steps::steps), unfolding(crate::specs::SessionFile::network_at))]
fn network(alloc: Global, top: &Value) -> Result<Text, PodError>
    ensures { Gives is_out_of_memory result (defined.network_at (view top.now)) }
{
    match field_str(top, "network") {
        Field::Here(name) if is_network_name(name) => Ok(Text::of(alloc, name)?),
        Field::Here(_) | Field::Absent | Field::WrongKind => Err(wrong(alloc, "network")),
    }
}

#[tactic(auto, using(cni_json::proofs::Steps::steps, cni_json::proofs::WholeNumbers::parts_are_whole), unfolding(crate::specs::SessionFile::pools_at))]
fn pools(alloc: Global, top: &Value) -> Result<Option<HostLocalConf>, PodError>
    requires { has_float (view top.now) ≡ false }
    ensures { Gives is_out_of_memory result (defined.pools_at (view top.now)) }
{
    match member(top, "ipam") {
        Some(value) => read_pools(alloc, value),
        None => read_pools(alloc, &Value::Null),
    }
}

#[tactic(auto, using(cni_json::proofs::Steps::steps), unfolding(crate::specs::SessionFile::pools_of))]
fn read_pools(alloc: Global, value: &Value) -> Result<Option<HostLocalConf>, PodError>
    requires { has_float (view value.now) ≡ false }
    ensures { Gives is_out_of_memory result (defined.pools_of (view value.now)) }
{
    match read_ipam(alloc, value) {
        Ok(pools) => Ok(pools),
        Err(ConfError::NoMemory) => Err(PodError::NoMemory),
        Err(_) => Err(wrong(alloc, "ipam")),
    }
}

#[tactic(auto, using(cni_json::proofs::Steps::steps), unfolding(pod_file::specs::Opening::opening_at))]
fn opening(alloc: Global, top: &Value) -> Result<Host, PodError>
    ensures { Gives is_out_of_memory result (opening_at (view top.now)) }
{
    match member(top, "opening") {
        Some(value) => read_opening(alloc, value),
        None => read_opening(alloc, &Value::Null),
    }
}
