//! The errors of refusals (CNI specification, section 5, "Error").

ghost use Rattle.std.specs.Prelude.{◌≡◌, ◌++◌, map, string_bytes, IfOk, OnOk};
ghost use Rattle.serde_json.specs.Data.{string};
ghost use Rattle.serde_json.specs.Written.{compact_text};
ghost use Rattle.cni_errors.specs.Answers as answers;

use crate::answer::{Answer, Cause, Ending, WrongFields};
use crate::error_kind::{ErrorKind, message_of_field};
use crate::fields::att_of;
use crate::missed::{missed_text, spaced};
use cni_addr::{Duplicate, Items, NoMemory, Text};
use cni_result::{CniError, Version, version_text};
use kernel_text::{attachment_text, tag_text};
use pod_file::{Command, verb_text};
use serde_json::Value;
use std::alloc::Global;

fn kind_of(cause: &Cause) -> ErrorKind
    ensures { result ≡ answers.kind_of cause.now }
{
    match cause {
        Cause::BadFields(_) => ErrorKind::InvalidVariables,
        Cause::IpArgument(_) => ErrorKind::UnsupportedField,
        Cause::BadMapping | Cause::NoMaster => ErrorKind::InvalidList,
        Cause::NoNamespace => ErrorKind::NamespaceMissing,
        Cause::NameTaken(_) => ErrorKind::NameTaken,
        Cause::PoolEmpty(_) => ErrorKind::PoolEmpty,
        Cause::Fault(_) | Cause::Faults(_) => ErrorKind::KernelFault,
        Cause::TooOld(_) => ErrorKind::IncompatibleVersion,
        Cause::Unknown => ErrorKind::ContainerUnknown,
        Cause::NoFreeAddress(_) | Cause::MasterAbsent(_) => ErrorKind::NotAvailable,
        Cause::NothingThere => ErrorKind::NothingThere,
        Cause::Missing(_) => ErrorKind::CheckFailed,
    }
}

// ---- messages

fn push_if(alloc: Global, names: &mut Items<Text>, fault: bool, name: &str) -> Result<(), NoMemory>
    ensures { OnOk result (names.new ≡ names.old ++ answers.named_if fault name.now) }
{
    if fault {
        names.push(Text::of(alloc, name)?)?;
    }
    Ok(())
}

/// The environment variables of the fields that are outside their grammar (CNI specification, section 2).
pub fn variables_of(alloc: Global, wrong: WrongFields) -> Result<Items<Text>, NoMemory>
    ensures { IfOk result (λ names. names ≡ answers.variables_of wrong) }
{
    let mut names = Items::new(alloc);
    push_if(alloc, &mut names, wrong.container, "CNI_CONTAINERID")?;
    push_if(alloc, &mut names, wrong.netns, "CNI_NETNS")?;
    push_if(alloc, &mut names, wrong.ifname, "CNI_IFNAME")?;
    push_if(alloc, &mut names, wrong.args, "CNI_ARGS")?;
    Ok(names)
}

/// The texts with `, ` between them.
pub fn joined_by_comma(alloc: Global, names: &[Text]) -> Result<Text, NoMemory>
    ensures { IfOk result (λ text. text ≡ answers.joined_by_comma names.now) }
{
    Text::of(alloc, names.join(alloc, ", ")?.as_str())
}

fn fields_message(alloc: Global, wrong: WrongFields) -> Result<Text, NoMemory>
    ensures { IfOk result (λ msg. msg ≡ answers.message_of (Cause.BadFields wrong)) }
{
    let names = variables_of(alloc, wrong)?;
    let names = joined_by_comma(alloc, names.as_slice())?;
    ErrorKind::InvalidVariables.message_about(alloc, names.as_str())
}

/// The text as JSON writes it, in quotes.
fn quoted(alloc: Global, text: &str) -> Result<String, NoMemory>
    ensures { IfOk result (λ json. string_bytes json ≡ compact_text (string text.now)) }
{
    let value = Value::String(String::from_str(alloc, text)?);
    Ok(value.to_string(alloc)?)
}

fn argument_message(alloc: Global, value: &Text) -> Result<Text, NoMemory>
    ensures { IfOk result (λ msg. msg ≡ answers.message_of (Cause.IpArgument value.now)) }
{
    let json = quoted(alloc, value.as_str())?;
    message_of_field(alloc, "IP", json.as_str())
}

fn message_of(alloc: Global, cause: &Cause) -> Result<Text, NoMemory>
    ensures { IfOk result (λ msg. msg ≡ answers.message_of cause.now) }
{
    match cause {
        Cause::BadFields(wrong) => fields_message(alloc, *wrong),
        Cause::IpArgument(value) => argument_message(alloc, value),
        Cause::BadMapping => ErrorKind::InvalidList.message_about(alloc, "portMappings"),
        Cause::NoMaster => ErrorKind::InvalidList.message_about(alloc, "master"),
        Cause::TooOld(version) => {
            ErrorKind::IncompatibleVersion.message_about(alloc, version_text(*version))
        }
        _ => kind_of(cause).message(alloc),
    }
}

// ---- details

fn set_text(alloc: Global, set: u32) -> Result<Text, NoMemory>
    ensures { IfOk result (λ text. text ≡ answers.set_text set) }
{
    Text::of(alloc, format!(in alloc; "set {set}")?.as_str())
}

fn call_text(alloc: Global, number: u64) -> Result<Text, NoMemory>
    ensures { IfOk result (λ text. text ≡ answers.call_text number) }
{
    Text::of(alloc, format!(in alloc; "call {number}")?.as_str())
}

fn call_texts(alloc: Global, numbers: &[u64]) -> Result<Items<Text>, NoMemory>
    ensures { IfOk result (λ texts. texts ≡ map answers.call_text numbers.now) }
{
    let mut texts = Vec::with_capacity(alloc, numbers.len())?;
    for number in numbers {
        texts.push(call_text(alloc, *number)?)?;
    }
    Ok(Items::of_vec(texts))
}

fn calls_text(alloc: Global, numbers: &[u64]) -> Result<Text, NoMemory>
    ensures { IfOk result (λ text. text ≡ answers.joined_by_comma (map answers.call_text numbers.now)) }
{
    let texts = call_texts(alloc, numbers)?;
    joined_by_comma(alloc, texts.as_slice())
}

fn details_of(alloc: Global, command: &Command, cause: &Cause) -> Result<Text, NoMemory>
    ensures { IfOk result (λ text. text ≡ answers.details_of command.now cause.now) }
{
    match cause {
        Cause::NoNamespace => command.netns.copy(),
        Cause::NameTaken(tag) => tag_text(alloc, tag),
        Cause::PoolEmpty(set) | Cause::NoFreeAddress(set) => set_text(alloc, *set),
        Cause::Fault(number) => call_text(alloc, *number),
        Cause::Faults(numbers) => calls_text(alloc, numbers.as_slice()),
        Cause::TooOld(_) => Text::of(alloc, verb_text(command.verb)),
        Cause::Unknown => attachment_text(alloc, &att_of(command)?),
        Cause::MasterAbsent(name) => spaced(alloc, "master", name.as_str()),
        Cause::NothingThere => command.ifname.copy(),
        Cause::Missing(missed) => missed_text(alloc, missed),
        Cause::BadFields(_) | Cause::IpArgument(_) | Cause::BadMapping | Cause::NoMaster => {
            Text::of(alloc, "")
        }
    }
}

/// The error that a verb answers where it refuses for this cause, in the version of its list.
#[tactic(auto, unfolding(crate::specs::Answers::error_of))]
fn error_of(
    alloc: Global,
    version: Version,
    command: &Command,
    cause: &Cause,
) -> Result<CniError, NoMemory>
    ensures { IfOk result (λ error. error ≡ answers.error_of version command.now cause.now) }
{
    Ok(CniError {
        version,
        code: kind_of(cause).code(),
        msg: message_of(alloc, cause)?,
        details: details_of(alloc, command, cause)?,
    })
}

/// The answer of a verb that refuses for this cause, in the version of its list.
fn refused(
    alloc: Global,
    version: Version,
    command: &Command,
    cause: &Cause,
) -> Result<Answer, NoMemory>
    ensures { IfOk result (λ answer. answer ≡ Answer.Refused (answers.error_of version command.now cause.now)) }
{
    Ok(Answer::Refused(error_of(alloc, version, command, cause)?))
}

/// The answer to an ending without a result of its own, in this version. `Added` has one, and is Yes here: a run of no
/// network and a GC, which are answered by this alone, never end so.
pub fn plain_answer(
    alloc: Global,
    version: Version,
    command: &Command,
    ending: &Ending,
) -> Result<Answer, NoMemory>
    ensures { IfOk result (λ answer. answer ≡ answers.plain_answer version command.now ending.now) }
{
    match ending {
        Ending::Added | Ending::Yes => Ok(Answer::Yes),
        Ending::Skipped(skip) => Ok(Answer::Skipped(*skip)),
        Ending::Versions => Ok(Answer::Versions(version)),
        Ending::Refused(cause) => refused(alloc, version, command, cause),
    }
}
