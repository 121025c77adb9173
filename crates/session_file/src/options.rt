//! The reader of a task's options.

ghost use Rattle.serde_json.specs.View.{view, members_view};
ghost use Rattle.cni_json.specs.Outcome.{Gives};
ghost use Rattle.pod_file.specs.Refusals.{is_out_of_memory};
ghost use Rattle.session_file.specs.Tasks as defined;

use cni_addr::{Items, Text};
use cni_json::{Map, Value, member};
use plugin_registry::Opt;
use pod_file::fields::wrong_key;
use pod_file::{Place, PodError};
use std::alloc::Global;

/// The options of the task at this place, none where there is no object of them. It takes time and memory in proportion
/// to them.
#[tactic(auto, using(cni_json::proofs::Steps::steps), unfolding(crate::specs::Tasks::options_at))]
pub(crate) fn options(alloc: Global, place: Place, task: &Value) -> Result<Items<Opt>, PodError>
    ensures { Gives is_out_of_memory result (defined.options_at place (view task.now)) }
{
    match member(task, "options") {
        None => Ok(Items::new(alloc)),
        Some(Value::Object(members)) => all_options(alloc, place, members),
        Some(_) => Err(wrong_key(alloc, place, "options")),
    }
}

#[tactic(auto, using(cni_json::proofs::Steps::steps, crate::proofs::Steps::found))]
fn all_options(
    alloc: Global,
    place: Place,
    members: &Map<String, Value>,
) -> Result<Items<Opt>, PodError>
    ensures { Gives is_out_of_memory result (defined.options_of place (members_view members.now.entries)) }
{
    let mut found = Items::new(alloc);
    for (key, member) in members.iter() {
        if !member.is_null() {
            let option = option(alloc, place, key.as_str(), member)?;
            found.push(option)?;
        }
    }
    Ok(found)
}

#[tactic(auto, using(cni_json::proofs::Steps::steps))]
fn option(alloc: Global, place: Place, key: &str, member: &Value) -> Result<Opt, PodError>
    ensures { Gives is_out_of_memory result (defined.option_of place key.now (view member.now)) }
{
    match member {
        Value::String(value) => Ok(Opt {
            key: Text::of(alloc, key)?,
            value: Text::of(alloc, value.as_str())?,
        }),
        _ => Err(wrong_key(alloc, place, "options")),
    }
}
