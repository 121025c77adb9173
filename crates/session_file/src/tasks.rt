//! The reader of tasks.

ghost use Rattle.std.specs.Prelude.{◌≡◌};
ghost use Rattle.serde_json.specs.View.{view, items_view};
ghost use Rattle.cni_json.specs.Outcome.{Gives};
ghost use Rattle.pod_file.specs.Refusals.{is_out_of_memory};
ghost use Rattle.session_file.specs.Tasks as defined;
ghost use Rattle.session_file.specs.WellFormed.{is_of_session};

use crate::options::options;
use crate::session::Task;
use cni_addr::Items;
use cni_json::{Field, Value, field_list, need_object, read_each_placed};
use pod_file::fields::{
    faults, stop, text, valid_attachments, verb, wrong, wrong_command, wrong_key,
};
use pod_file::{Place, PodError, Verb};
use std::alloc::Global;

/// The most tasks that a file may have.
const MOST_TASKS: usize = 65_536;

/// The tasks of a file, whose list must be there.
#[tactic(auto, using(cni_json::proofs::Steps::steps), unfolding(crate::specs::Tasks::tasks_at))]
pub(crate) fn tasks(alloc: Global, top: &Value) -> Result<Items<Task>, PodError>
    ensures { Gives is_out_of_memory result (defined.tasks_at (view top.now)) }
{
    match field_list(top, "tasks") {
        Field::Absent | Field::WrongKind => Err(wrong(alloc, "tasks")),
        Field::Here(list) => few_tasks(alloc, list),
    }
}

#[tactic(auto, using(cni_json::proofs::Steps::steps, crate::proofs::Steps::counted))]
fn few_tasks(alloc: Global, list: &[Value]) -> Result<Items<Task>, PodError>
    ensures { Gives is_out_of_memory result (defined.few_tasks (items_view list.now)) }
{
    if list.len() <= MOST_TASKS {
        read_each_placed(
            alloc,
            list,
            |index, member| task(alloc, Place::InTasks { index }, member),
        )
    } else {
        Err(wrong(alloc, "tasks"))
    }
}

#[tactic(auto, using(cni_json::proofs::Steps::steps), unfolding(crate::specs::Tasks::task_at))]
fn task(alloc: Global, place: Place, value: &Value) -> Result<Task, PodError>
    ensures { Gives is_out_of_memory result (defined.task_at place (view value.now)) }
{
    need_object(value, || wrong_command(alloc, place))?;
    let verb = task_verb(alloc, place, value)?;
    let kind_name = text(alloc, place, "type", "", value)?;
    let container = text(alloc, place, "container", "", value)?;
    let netns = text(alloc, place, "netns", "", value)?;
    let ifname = text(alloc, place, "ifname", "eth0", value)?;
    let options = options(alloc, place, value)?;
    let valid = valid_attachments(alloc, place, value)?;
    let stop = stop(alloc, place, value)?;
    let faults = faults(alloc, place, value)?;
    Ok(Task {
        verb,
        kind_name,
        container,
        netns,
        ifname,
        options,
        valid,
        stop,
        faults,
    })
}

#[tactic(auto, using(cni_json::proofs::Steps::steps), unfolding(crate::specs::Tasks::task_verb_at))]
fn task_verb(alloc: Global, place: Place, task: &Value) -> Result<Verb, PodError>
    ensures { Gives is_out_of_memory result (defined.task_verb_at place (view task.now)) }
{
    let verb = verb(alloc, place, task)?;
    if is_of_session(verb) {
        Ok(verb)
    } else {
        Err(wrong_key(alloc, place, "verb"))
    }
}

/// Whether a task may have the verb.
fn is_of_session(verb: Verb) -> bool
    ensures { result ≡ is_of_session verb }
{
    matches!(verb, Verb::Add | Verb::Check | Verb::Del | Verb::Gc)
}
