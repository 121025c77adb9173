//! The reader of one command.

ghost use Rattle.std.specs.Prelude.{◌≡◌};
ghost use Rattle.serde_json.specs.View.{view};
ghost use Rattle.cni_json.specs.Outcome.{Gives};
ghost use Rattle.pod_file.specs.Commands as defined;
ghost use Rattle.pod_file.specs.Refusals.{is_out_of_memory};

use crate::command::{Command, Verb};
use crate::error::{PodError, wrong_command, wrong_key};
use crate::fields::{faults, needed_text, stop, text, valid_attachments, verb};
use crate::mappings::mappings;
use crate::place::Place;
use cni_addr::Text;
use cni_json::{Field, Value, field_str, need_object};
use kernel_types::{Table, table_named};
use std::alloc::Global;

/// The texts that name what a command is about.
#[derive(Drop)]
pub(crate) struct CommandTexts {
    pub network: Text,
    pub container: Text,
    pub netns: Text,
    pub ifname: Text,
    pub args: Text,
}

/// The command at this place, which has no number yet.
#[tactic(auto, using(cni_json::proofs::Steps::steps), unfolding(crate::specs::Commands::command_at))]
pub(crate) fn read_command(alloc: Global, place: Place, value: &Value) -> Result<Command, PodError>
    ensures { Gives is_out_of_memory result (defined.command_at place (view value.now)) }
{
    need_object(value, || wrong_command(alloc, place))?;
    let verb = verb(alloc, place, value)?;
    let texts = texts(alloc, place, verb, value)?;
    let mappings = mappings(alloc, place, value)?;
    let valid = valid_attachments(alloc, place, value)?;
    let table = table(alloc, place, verb, value)?;
    let stop = stop(alloc, place, value)?;
    let faults = faults(alloc, place, value)?;
    Ok(Command {
        number: 0,
        verb,
        network: texts.network,
        container: texts.container,
        netns: texts.netns,
        ifname: texts.ifname,
        args: texts.args,
        mappings,
        valid,
        table,
        stop,
        faults,
    })
}

#[tactic(auto, using(cni_json::proofs::Steps::steps), unfolding(crate::specs::Commands::texts_at))]
fn texts(alloc: Global, place: Place, verb: Verb, command: &Value) -> Result<CommandTexts, PodError>
    ensures { Gives is_out_of_memory result (defined.texts_at place verb (view command.now)) }
{
    let network = network(alloc, place, verb, command)?;
    let container = text(alloc, place, "container", "", command)?;
    let netns = text(alloc, place, "netns", "", command)?;
    let ifname = text(alloc, place, "ifname", "eth0", command)?;
    let args = text(alloc, place, "args", "", command)?;
    Ok(CommandTexts {
        network,
        container,
        netns,
        ifname,
        args,
    })
}

#[tactic(auto, using(cni_json::proofs::Steps::steps), unfolding(crate::specs::Commands::network_at))]
fn network(alloc: Global, place: Place, verb: Verb, command: &Value) -> Result<Text, PodError>
    ensures { Gives is_out_of_memory result (defined.network_at place verb (view command.now)) }
{
    if verb.is_of_network() {
        needed_text(alloc, place, "network", "network", command)
    } else {
        text(alloc, place, "network", "", command)
    }
}

#[tactic(auto, using(cni_json::proofs::Steps::steps), unfolding(crate::specs::Commands::table_at))]
fn table(
    alloc: Global,
    place: Place,
    verb: Verb,
    command: &Value,
) -> Result<Option<Table>, PodError>
    ensures { Gives is_out_of_memory result (defined.table_at place verb (view command.now)) }
{
    match field_str(command, "table") {
        Field::Absent if verb.needs_table() => Err(wrong_key(alloc, place, "table")),
        Field::Absent => Ok(None),
        Field::WrongKind => Err(wrong_key(alloc, place, "table")),
        Field::Here(found) => table_named(found)
            .map(Some)
            .ok_or_else(|| wrong_key(alloc, place, "table")),
    }
}
