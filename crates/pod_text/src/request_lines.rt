//! The requests that one command made, each as the JSON of its line.

ghost use Rattle.std.specs.Prelude.{◌≡◌, IfOk};
ghost use Rattle.std.specs.Option.{option_copied};
ghost use Rattle.pod_text.specs.Requests as defined;

use crate::printable::{Printable, printables};
use cni_addr::{NoMemory, Text};
use cni_errors::Answer;
use cni_json::JsonObject;
use cni_result::{AddResult, Cached, PortMapping};
use plugin_requests::{RawList, request_to, requests_of_add};
use pod_file::{Command, ValidAtt, Verb, verb_text};
use std::alloc::Global;
use verb_questions::addresses_of_result;

// ---- lines

#[tactic(auto, using(crate::proofs::Whole::env_is_whole), unfolding(crate::specs::Requests::env_data))]
fn env_value(alloc: Global, netns: &Text, command: &Command) -> Result<Printable, NoMemory>
    ensures { IfOk result (λ env. env ≡ defined.env_data netns.now command.now) }
{
    let mut object = JsonObject::new(alloc);
    object.put("CNI_ARGS", &command.args)?;
    object.put_text("CNI_COMMAND", verb_text(command.verb))?;
    object.put("CNI_CONTAINERID", &command.container)?;
    object.put("CNI_IFNAME", &command.ifname)?;
    object.put("CNI_NETNS", netns)?;
    Ok(Printable::new(object.into_value()))
}

#[tactic(auto, using(crate::proofs::Whole::network_env_is_whole), unfolding(crate::specs::Requests::network_env_data))]
fn network_env_value(alloc: Global, command: &Command) -> Result<Printable, NoMemory>
    ensures { IfOk result (λ env. env ≡ defined.network_env_data command.now) }
{
    let mut object = JsonObject::new(alloc);
    object.put_text("CNI_COMMAND", verb_text(command.verb))?;
    Ok(Printable::new(object.into_value()))
}

/// The line of the request to the plugin at the place.
#[tactic(auto, using(crate::proofs::Whole::request_line_is_whole), unfolding(crate::specs::Requests::request_line))]
fn line_value(
    alloc: Global,
    env: &Printable,
    command: &Command,
    place: u64,
    request: Printable,
) -> Result<Printable, NoMemory>
    ensures { IfOk result (λ line. line ≡ defined.request_line env.now command.now place request) }
{
    let mut object = JsonObject::new(alloc);
    object.put_value("env", env.value().clone()?)?;
    object.put("n", &command.number)?;
    object.put("plugin", &place)?;
    object.put_value("request", request.into_value())?;
    Ok(Printable::new(object.into_value()))
}

/// The lines of the requests, which are to each plugin of the list.
fn line_values(
    alloc: Global,
    env: &Printable,
    command: &Command,
    requests: Vec<Printable>,
) -> Result<Vec<Printable>, NoMemory>
    ensures { IfOk result (λ lines. lines.items ≡ defined.request_lines env.now command.now requests.items) }
{
    let mut lines = Vec::with_capacity(alloc, requests.len())?;
    for request in requests {
        let place = lines.len() as u64;
        lines.push(line_value(alloc, env, command, place, request)?)?;
    }
    Ok(lines)
}

// ---- requests to each plugin

/// A request to each plugin, all with this result before it, these mappings and these valid attachments.
fn to_each(
    alloc: Global,
    raw: &RawList,
    prev: Option<&AddResult>,
    mappings: &[PortMapping],
    valid: Option<&[ValidAtt]>,
) -> Result<Vec<Printable>, NoMemory>
    ensures { IfOk result (λ made. made.items
        ≡ defined.to_each raw.now (option_copied prev.entry) mappings.now (option_copied valid.entry)) }
{
    let list = raw.list().get();
    let objects = raw.objects();
    let mut made = Vec::with_capacity(alloc, objects.len())?;
    for object in objects {
        let request = request_to(alloc, list, object, prev, mappings, valid)?;
        made.push(Printable::new(request))?;
    }
    Ok(made)
}

fn to_each_cached(
    alloc: Global,
    raw: &RawList,
    told: Option<&Cached>,
) -> Result<Vec<Printable>, NoMemory>
    ensures { IfOk result (λ made. made.items ≡ defined.to_each_cached raw.now (option_copied told.entry)) }
{
    match told {
        Some(cached) => {
            let mappings = cached.mappings.as_slice();
            to_each(alloc, raw, Some(&cached.result), mappings, None)
        }
        None => to_each(alloc, raw, None, &[], None),
    }
}

// ---- verbs

fn checked_ns<'a>(command: &'a Command, told: Option<&'a Cached>) -> &'a Text
    ensures { result.now ≡ defined.checked_ns command.entry.now (option_copied told.entry) }
{
    match told {
        Some(cached) => &cached.netns,
        None => &command.netns,
    }
}

fn check_lines(
    alloc: Global,
    raw: &RawList,
    command: &Command,
    told: Option<&Cached>,
) -> Result<Vec<Printable>, NoMemory>
    ensures { IfOk result
        (λ lines. lines.items ≡ defined.check_lines raw.now command.now (option_copied told.entry)) }
{
    let env = env_value(alloc, checked_ns(command, told), command)?;
    let requests = to_each_cached(alloc, raw, told)?;
    line_values(alloc, &env, command, requests)
}

fn del_lines(
    alloc: Global,
    raw: &RawList,
    command: &Command,
    told: Option<&Cached>,
) -> Result<Vec<Printable>, NoMemory>
    ensures { IfOk result (λ lines. lines.items ≡ defined.del_lines raw.now command.now (option_copied told.entry)) }
{
    let env = env_value(alloc, &command.netns, command)?;
    let requests = to_each_cached(alloc, raw, told)?;
    let mut lines = line_values(alloc, &env, command, requests)?;
    lines.reverse();
    Ok(lines)
}

fn network_lines(
    alloc: Global,
    raw: &RawList,
    command: &Command,
    valid: Option<&[ValidAtt]>,
) -> Result<Vec<Printable>, NoMemory>
    ensures { IfOk result
        (λ lines. lines.items ≡ defined.network_lines raw.now command.now (option_copied valid.entry)) }
{
    let env = network_env_value(alloc, command)?;
    let requests = to_each(alloc, raw, None, &[], valid)?;
    line_values(alloc, &env, command, requests)
}

fn add_lines(
    alloc: Global,
    raw: &RawList,
    command: &Command,
    added: &AddResult,
) -> Result<Vec<Printable>, NoMemory>
    ensures { IfOk result (λ lines. lines.items ≡ defined.add_lines raw.now command.now added.now) }
{
    let env = env_value(alloc, &command.netns, command)?;
    let addrs = addresses_of_result(alloc, added)?;
    let requests = requests_of_add(alloc, raw, command, addrs.as_slice())?;
    line_values(alloc, &env, command, printables(alloc, requests)?)
}

fn lines_of_yes(
    alloc: Global,
    raw: &RawList,
    command: &Command,
    told: Option<&Cached>,
) -> Result<Vec<Printable>, NoMemory>
    ensures { IfOk result
        (λ lines. lines.items ≡ defined.lines_of_yes command.now.verb raw.now command.now (option_copied told.entry)) }
{
    match command.verb {
        Verb::Check => check_lines(alloc, raw, command, told),
        Verb::Del => del_lines(alloc, raw, command, told),
        Verb::Gc => network_lines(alloc, raw, command, Some(command.valid.as_slice())),
        Verb::Status => network_lines(alloc, raw, command, None),
        Verb::Add | Verb::Version => Ok(Vec::new(alloc)),
        Verb::NsAdd | Verb::NsDel | Verb::Drop | Verb::Flush => Ok(Vec::new(alloc)),
    }
}

/// The requests of the command that has the answer, in the order that they were made: none where it wasn't done, or
/// asked no plugin. It takes time and memory in proportion to them.
pub(crate) fn lines_of_answer(
    alloc: Global,
    answer: &Answer,
    raw: &RawList,
    command: &Command,
    told: Option<&Cached>,
) -> Result<Vec<Printable>, NoMemory>
    ensures { IfOk result (λ lines. lines.items
        ≡ defined.lines_of_answer answer.now raw.now command.now (option_copied told.entry)) }
{
    match answer {
        Answer::Added(added) => add_lines(alloc, raw, command, added.get()),
        Answer::Yes => lines_of_yes(alloc, raw, command, told),
        Answer::Skipped(_) | Answer::Versions(_) | Answer::Refused(_) => Ok(Vec::new(alloc)),
        Answer::OutOfMemory | Answer::Stopped { .. } => Ok(Vec::new(alloc)),
    }
}
