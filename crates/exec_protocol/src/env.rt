//! The words that a plugin is called with, and which of them it refuses.

ghost use Rattle.std.specs.Prelude.{◌≡◌, IfErr, IfOk};
ghost use Rattle.cni_errors.specs.Answers.{joined_by_comma, variables_of};
ghost use Rattle.cni_json.specs.Outcome.{Gives};
ghost use Rattle.exec_protocol.specs.Env as words;
ghost use Rattle.exec_protocol.specs.Refusals.{TellsNoMemoryOnce, is_out_of_memory};

use crate::error::RequestError;
use cni_addr::{Duplicate, NoMemory, Text};
use cni_errors::fields::{any_wrong, are_arguments, none_wrong};
use cni_errors::{WrongFields, joined_by_comma, variables_of};
use kernel_types::terms::is_host_ns;
use net_conf::{is_container_id, is_interface_name};
use pod_file::{Verb, verb_named};
use std::alloc::Global;

/// The words that a plugin is called with, each the text of its environment variable (CNI specification 1.1.0, section
/// 2, "Parameters"): `CNI_COMMAND`, `CNI_CONTAINERID`, `CNI_NETNS`, `CNI_IFNAME` and `CNI_ARGS`. One that isn't set is
/// empty.
#[derive(PartialEq, Eq, Drop)]
pub struct Env {
    pub command: Text,
    pub container: Text,
    pub netns: Text,
    pub ifname: Text,
    pub args: Text,
}

impl Duplicate for Env {
    fn copy(&self) -> Result<Env, NoMemory> {
        Ok(Env {
            command: self.command.copy()?,
            container: self.container.copy()?,
            netns: self.netns.copy()?,
            ifname: self.ifname.copy()?,
            args: self.args.copy()?,
        })
    }
}

fn is_asked(verb: Verb) -> bool
    ensures { result ≡ words.is_asked verb }
{
    match verb {
        Verb::Add | Verb::Check | Verb::Del | Verb::Gc | Verb::Status => true,
        Verb::Version | Verb::NsAdd | Verb::NsDel | Verb::Drop | Verb::Flush => false,
    }
}

fn wrong_words(env: &Env) -> WrongFields
    ensures { result ≡ words.wrong_words env.now }
{
    WrongFields {
        container: !is_container_id(env.container.as_str()),
        netns: is_host_ns(env.netns.as_str()),
        ifname: !is_interface_name(env.ifname.as_str()),
        args: !are_arguments(env.args.as_str()),
    }
}

fn wrong_for(verb: Verb, env: &Env) -> WrongFields
    ensures { result ≡ words.wrong_for verb env.now }
{
    match verb {
        Verb::Add => wrong_words(env),
        Verb::Check => WrongFields {
            args: false,
            ..wrong_words(env)
        },
        Verb::Del => WrongFields {
            netns: false,
            args: false,
            ..wrong_words(env)
        },
        Verb::Gc
        | Verb::Status
        | Verb::Version
        | Verb::NsAdd
        | Verb::NsDel
        | Verb::Drop
        | Verb::Flush => none_wrong(),
    }
}

fn names_of(alloc: Global, wrong: WrongFields) -> Result<Text, NoMemory>
    ensures { IfOk result (λ names. names ≡ joined_by_comma (variables_of wrong)) }
{
    let names = variables_of(alloc, wrong)?;
    joined_by_comma(alloc, names.as_slice())
}

fn verb_if(alloc: Global, verb: Verb, wrong: WrongFields) -> Result<Verb, RequestError>
    ensures exact { Gives is_out_of_memory result (words.verb_if verb wrong) }
    ensures memory { IfErr result TellsNoMemoryOnce }
{
    if any_wrong(wrong) {
        let names = names_of(alloc, wrong)?;
        Err(RequestError::Env { names })
    } else {
        Ok(verb)
    }
}

fn command_refused(alloc: Global) -> Result<Verb, RequestError>
    ensures exact { Gives is_out_of_memory result words.wrong_command }
    ensures memory { IfErr result TellsNoMemoryOnce }
{
    let names = Text::of(alloc, "CNI_COMMAND")?;
    Err(RequestError::Env { names })
}

/// The verb that the words ask for, or all of them that are wrong. Which words are tested is the verb's: GC and STATUS
/// test no other than the command.
#[tactic(auto, using(cni_json::proofs::Steps::steps), unfolding(crate::specs::Env::verb_at))]
pub(crate) fn verb_of(alloc: Global, env: &Env) -> Result<Verb, RequestError>
    ensures exact { Gives is_out_of_memory result (words.verb_at env.now) }
    ensures memory { IfErr result TellsNoMemoryOnce }
{
    match verb_named(env.command.as_str()) {
        Some(verb) if is_asked(verb) => verb_if(alloc, verb, wrong_for(verb, env)),
        Some(_) | None => command_refused(alloc),
    }
}
