//! The fields of a command, each read by itself: those of a pod file's commands, and of whatever else has such fields.
//!
//! A reader is given the place of the command. Whatever is wrong in the value of a key has the path of that key, as
//! `rounds[1][0].faults`, and none deeper. A member that is null is as an absent one.

ghost use Rattle.std.specs.Prelude.{Result};
ghost use Rattle.serde_json.specs.Data.{Data};
ghost use Rattle.serde_json.specs.View.{view};
ghost use Rattle.cni_json.specs.Outcome.{Gives};
ghost use Rattle.cni_json.specs.Readers.{IsReader};
ghost use Rattle.pod_file.specs.Commands as commands;
ghost use Rattle.pod_file.specs.Members as members;
ghost use Rattle.pod_file.specs.Refusals.{is_out_of_memory};
ghost use Rattle.pod_file.specs.declared.error.PodError.{PodError};

use crate::command::{ValidAtt, Verb, verb_named};
use crate::error::PodError;
pub use crate::error::{wrong, wrong_command, wrong_key, wrong_member};
use crate::place::Place;
use cni_addr::{Items, Text};
use cni_json::{Field, Value, field_str, field_u32, read_list_or, u32_of};
use std::alloc::Global;

/// A text of the command itself, or the default where it is absent. Another kind is wrong.
pub fn text(
    alloc: Global,
    place: Place,
    key: &str,
    default: &str,
    command: &Value,
) -> Result<Text, PodError>
    ensures { Gives is_out_of_memory result (members.text_at place key.now default.now (view command.now)) }
{
    inner_text(alloc, place, key, key, default, command)
}

/// A text in the value of the command's key `outer`, or the default where it is absent.
#[tactic(auto, using(cni_json::proofs::Steps::steps), unfolding(crate::specs::Members::inner_text_at))]
pub(crate) fn inner_text(
    alloc: Global,
    place: Place,
    outer: &str,
    key: &str,
    default: &str,
    object: &Value,
) -> Result<Text, PodError>
    ensures { Gives is_out_of_memory result
        (members.inner_text_at place outer.now key.now default.now (view object.now)) }
{
    match field_str(object, key) {
        Field::Absent => Ok(Text::of(alloc, default)?),
        Field::WrongKind => Err(wrong_key(alloc, place, outer)),
        Field::Here(text) => Ok(Text::of(alloc, text)?),
    }
}

/// A text in the value of the command's key `outer`, or of the command itself where `outer` is the key. It must be
/// there.
#[tactic(auto, using(cni_json::proofs::Steps::steps), unfolding(crate::specs::Members::needed_text_at))]
pub fn needed_text(
    alloc: Global,
    place: Place,
    outer: &str,
    key: &str,
    object: &Value,
) -> Result<Text, PodError>
    ensures { Gives is_out_of_memory result (members.needed_text_at place outer.now key.now (view object.now)) }
{
    match field_str(object, key) {
        Field::Absent | Field::WrongKind => Err(wrong_key(alloc, place, outer)),
        Field::Here(text) => Ok(Text::of(alloc, text)?),
    }
}

/// The list under the command's key, each member as the function reads it; it is empty where it is absent. Its first
/// member that is refused refuses all.
#[tactic(auto, using(cni_json::proofs::Steps::steps), unfolding(crate::specs::Members::list_at))]
pub fn list<T: Drop, R: Fn(&Value) -> Result<T, PodError>>(
    alloc: Global,
    place: Place,
    key: &str,
    command: &Value,
    read: R,
) -> Result<Items<T>, PodError>
    requires { R.IsAlwaysCallable read }
    ensures { (read_as : Data → Result T PodError) → IsReader is_out_of_memory R.Fn read read_as
        → Gives is_out_of_memory result (members.list_at place key.now read_as (view command.now)) }
{
    read_list_or(alloc, command, key, || wrong_key(alloc, place, key), read)
}

/// What the command does, under `verb`. It must be there, and name one of the verbs of a pod file.
#[tactic(auto, using(cni_json::proofs::Steps::steps), unfolding(crate::specs::Commands::verb_at))]
pub fn verb(alloc: Global, place: Place, command: &Value) -> Result<Verb, PodError>
    ensures { Gives is_out_of_memory result (commands.verb_at place (view command.now)) }
{
    match field_str(command, "verb") {
        Field::Absent | Field::WrongKind => Err(wrong_key(alloc, place, "verb")),
        Field::Here(found) => verb_named(found).ok_or_else(|| wrong_key(alloc, place, "verb")),
    }
}

/// The attachments that a GC keeps, under `valid`; none where it is absent. Each must have both texts.
#[tactic(auto, using(cni_json::proofs::Steps::steps), unfolding(crate::specs::Members::valid_at))]
pub fn valid_attachments(
    alloc: Global,
    place: Place,
    command: &Value,
) -> Result<Items<ValidAtt>, PodError>
    ensures { Gives is_out_of_memory result (members.valid_at place (view command.now)) }
{
    list(
        alloc,
        place,
        "valid",
        command,
        |member| valid_attachment(alloc, place, member),
    )
}

#[tactic(auto, using(cni_json::proofs::Steps::steps), unfolding(crate::specs::Members::valid_attachment_at))]
fn valid_attachment(alloc: Global, place: Place, member: &Value) -> Result<ValidAtt, PodError>
    ensures { Gives is_out_of_memory result (members.valid_attachment_at place (view member.now)) }
{
    let container = needed_text(alloc, place, "valid", "containerID", member)?;
    let ifname = needed_text(alloc, place, "valid", "ifname", member)?;
    Ok(ValidAtt { container, ifname })
}

/// After how many of its calls the command ends, under `stop`, a number of 32 bits. None where it is absent.
#[tactic(auto, using(cni_json::proofs::Steps::steps), unfolding(crate::specs::Commands::stop_at))]
pub fn stop(alloc: Global, place: Place, command: &Value) -> Result<Option<u32>, PodError>
    ensures { Gives is_out_of_memory result (commands.stop_at place (view command.now)) }
{
    match field_u32(command, "stop") {
        Field::Absent => Ok(None),
        Field::WrongKind => Err(wrong_key(alloc, place, "stop")),
        Field::Here(number) => Ok(Some(number)),
    }
}

/// Which calls are to fail, under `faults`: numbers from 1 in 32 bits, in the order of the file, maybe one twice.
#[tactic(auto, using(cni_json::proofs::Steps::steps), unfolding(crate::specs::Commands::faults_at))]
pub fn faults(alloc: Global, place: Place, command: &Value) -> Result<Items<u32>, PodError>
    ensures { Gives is_out_of_memory result (commands.faults_at place (view command.now)) }
{
    list(
        alloc,
        place,
        "faults",
        command,
        |member| fault(alloc, place, member),
    )
}

#[tactic(auto, using(cni_json::proofs::Steps::steps))]
fn fault(alloc: Global, place: Place, member: &Value) -> Result<u32, PodError>
    ensures { Gives is_out_of_memory result (commands.fault_at place (view member.now)) }
{
    match u32_of(member) {
        Some(number) if number != 0 => Ok(number),
        Some(_) | None => Err(wrong_key(alloc, place, "faults")),
    }
}
