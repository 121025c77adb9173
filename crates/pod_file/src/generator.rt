//! A plan that a number alone gives, for runs on many containers.

ghost use Rattle.std.specs.Prelude.{◌≡◌, ◌+◌, ◌%◌, ◌==◌, ◌<◌, ◌≤◌, [], ◌∷◌, map, filter, length, IfOk};
ghost use Rattle.pod_file.specs.Generator as defined;
ghost use Rattle.pod_file.specs.Rounds.{are_few};

use crate::command::{Command, RawMapping, ValidAtt, Verb};
use crate::generated_list::generated_list;
use crate::pods::{Pods, Rounds};
use crate::rounds::all_numbered;
use cni_addr::{Duplicate, Items, NoMemory, Text};
use kernel_types::{Host, opening_with};
use net_conf::NetList;
use std::alloc::Global;

/// A network list, and a pod file for its network.
#[derive(PartialEq, Eq, Drop)]
pub struct Generated {
    pub list: NetList,
    pub pods: Pods,
}

/// A container: its number from 1, its name, and its namespace.
#[derive(Drop)]
pub(crate) struct Container {
    pub number: u32,
    pub name: Text,
    pub netns: Text,
}

impl Duplicate for Container {
    fn copy(&self) -> Result<Container, NoMemory> {
        Ok(Container {
            number: self.number,
            name: self.name.copy()?,
            netns: self.netns.copy()?,
        })
    }
}

/// The texts that all commands share.
#[derive(Drop)]
pub(crate) struct SharedTexts {
    pub network: Text,
    pub interface: Text,
    pub protocol: Text,
    pub empty: Text,
}

/// The plan of so many containers: they are added and checked; then those of an even number are deleted, all but
/// each fourth are collected, and these are checked again. A text that several commands have is made once. It takes
/// time and memory in proportion to the number.
pub fn generate(alloc: Global, count: u32) -> Result<Generated, NoMemory>
    requires some { 1 ≤ count }
    requires few { count ≤ defined.most_containers }
    ensures { IfOk result (λ made. made ≡ defined.generated count) }
{
    let texts = shared_texts(alloc)?;
    let containers = containers(alloc, count)?;
    let list = generated_list(alloc, texts.network.copy()?)?;
    let pods = pods_for(alloc, &texts, containers.as_slice())?;
    Ok(Generated { list, pods })
}

fn shared_texts(alloc: Global) -> Result<SharedTexts, NoMemory>
    ensures { IfOk result (λ texts. texts ≡ defined.shared_texts) }
{
    Ok(SharedTexts {
        network: Text::of(alloc, "gen")?,
        interface: Text::of(alloc, "eth0")?,
        protocol: Text::of(alloc, "tcp")?,
        empty: Text::of(alloc, "")?,
    })
}

/// The containers of the numbers from 1 on.
fn containers(alloc: Global, count: u32) -> Result<Items<Container>, NoMemory>
    requires { count ≤ defined.most_containers }
    ensures { IfOk result (λ containers. containers ≡ defined.containers count) }
{
    let mut containers = Vec::with_capacity(alloc, count as usize)?;
    for before in 0..count {
        containers.push(container_of(alloc, before + 1)?)?;
    }
    Ok(Items::of_vec(containers))
}

fn container_of(alloc: Global, number: u32) -> Result<Container, NoMemory>
    ensures { IfOk result (λ container. container ≡ defined.container_of number) }
{
    let name = format!(in alloc; "p{number}")?;
    let netns = format!(in alloc; "/ns/p{number}")?;
    Ok(Container {
        number,
        name: Text::of(alloc, name.as_str())?,
        netns: Text::of(alloc, netns.as_str())?,
    })
}

fn pods_for(alloc: Global, texts: &SharedTexts, containers: &[Container]) -> Result<Pods, NoMemory>
    requires texts { texts.now ≡ defined.shared_texts }
    requires few { length containers.now ≤ defined.most_containers }
    ensures { IfOk result (λ pods. pods ≡ defined.pods_for containers.now) }
{
    let opening = opening_for(alloc, containers)?;
    let rounds = rounds_for(alloc, texts, containers)?;
    let numbered = all_numbered(alloc, rounds);
    Ok(Pods {
        opening,
        rounds: Rounds::of_items(numbered),
    })
}

/// The host on which each container's namespace is.
fn opening_for(alloc: Global, containers: &[Container]) -> Result<Host, NoMemory>
    ensures { IfOk result (λ host. host ≡ defined.opening_for containers.now) }
{
    let names = namespaces_of(alloc, containers)?;
    opening_with(alloc, names.as_slice(), Items::new(alloc))
}

fn namespaces_of(alloc: Global, containers: &[Container]) -> Result<Items<Text>, NoMemory>
    ensures { IfOk result (λ names. names ≡ defined.namespaces_of containers.now) }
{
    let mut names = Vec::with_capacity(alloc, containers.len())?;
    for container in containers {
        names.push(container.netns.copy()?)?;
    }
    Ok(Items::of_vec(names))
}

fn rounds_for(
    alloc: Global,
    texts: &SharedTexts,
    containers: &[Container],
) -> Result<Items<Items<Command>>, NoMemory>
    requires { texts.now ≡ defined.shared_texts }
    ensures { IfOk result (λ rounds. rounds ≡ defined.rounds_for containers.now) }
{
    let deleted = leaving(alloc, 2, 0, containers)?;
    let kept = leaving(alloc, 4, 1, containers)?;
    let mut rounds = Items::new(alloc);
    rounds.push(commands_of(alloc, texts, Verb::Add, containers)?)?;
    rounds.push(commands_of(alloc, texts, Verb::Check, containers)?)?;
    rounds.push(commands_of(alloc, texts, Verb::Del, deleted.as_slice())?)?;
    rounds.push(collection_round(alloc, texts, kept.as_slice())?)?;
    rounds.push(commands_of(alloc, texts, Verb::Check, kept.as_slice())?)?;
    Ok(rounds)
}

/// The containers whose number leaves this rest.
fn leaving(
    alloc: Global,
    divisor: u32,
    rest: u32,
    containers: &[Container],
) -> Result<Items<Container>, NoMemory>
    requires { 0 < divisor }
    ensures { IfOk result (λ chosen. chosen ≡ defined.leaving divisor rest containers.now) }
{
    let mut chosen = Items::new(alloc);
    for container in containers {
        if container.number % divisor == rest {
            chosen.push(container.copy()?)?;
        }
    }
    Ok(chosen)
}

/// A round with a command of the verb for each container.
fn commands_of(
    alloc: Global,
    texts: &SharedTexts,
    verb: Verb,
    containers: &[Container],
) -> Result<Items<Command>, NoMemory>
    requires { texts.now ≡ defined.shared_texts }
    ensures { IfOk result (λ commands. commands ≡ map (defined.command_of verb) containers.now) }
{
    let mut commands = Vec::with_capacity(alloc, containers.len())?;
    for container in containers {
        commands.push(command_of(alloc, texts, verb, container)?)?;
    }
    Ok(Items::of_vec(commands))
}

fn command_of(
    alloc: Global,
    texts: &SharedTexts,
    verb: Verb,
    container: &Container,
) -> Result<Command, NoMemory>
    requires { texts.now ≡ defined.shared_texts }
    ensures { IfOk result (λ command. command ≡ defined.command_of verb container.now) }
{
    let mut mappings = Items::new(alloc);
    mappings.push(mapping_of(texts, container)?)?;
    Ok(Command {
        number: 0,
        verb,
        network: texts.network.copy()?,
        container: container.name.copy()?,
        netns: container.netns.copy()?,
        ifname: texts.interface.copy()?,
        args: texts.empty.copy()?,
        mappings,
        valid: Items::new(alloc),
        table: None,
        stop: None,
        faults: Items::new(alloc),
    })
}

fn mapping_of(texts: &SharedTexts, container: &Container) -> Result<RawMapping, NoMemory>
    requires { texts.now ≡ defined.shared_texts }
    ensures { IfOk result (λ mapping. mapping ≡ defined.mapping_of container.now) }
{
    Ok(RawMapping {
        host_port: 1024 + u64::from(container.number),
        container_port: 80,
        protocol: texts.protocol.copy()?,
        host_ip: texts.empty.copy()?,
    })
}

/// A round with a GC that keeps these containers.
fn collection_round(
    alloc: Global,
    texts: &SharedTexts,
    kept: &[Container],
) -> Result<Items<Command>, NoMemory>
    requires { texts.now ≡ defined.shared_texts }
    ensures { IfOk result (λ commands. commands ≡ defined.collection_of kept.now ∷ []) }
{
    let mut commands = Items::new(alloc);
    commands.push(collection_of(alloc, texts, kept)?)?;
    Ok(commands)
}

fn collection_of(
    alloc: Global,
    texts: &SharedTexts,
    kept: &[Container],
) -> Result<Command, NoMemory>
    requires { texts.now ≡ defined.shared_texts }
    ensures { IfOk result (λ command. command ≡ defined.collection_of kept.now) }
{
    Ok(Command {
        number: 0,
        verb: Verb::Gc,
        network: texts.network.copy()?,
        container: texts.empty.copy()?,
        netns: texts.empty.copy()?,
        ifname: texts.interface.copy()?,
        args: texts.empty.copy()?,
        mappings: Items::new(alloc),
        valid: attachments_of(alloc, texts, kept)?,
        table: None,
        stop: None,
        faults: Items::new(alloc),
    })
}

fn attachments_of(
    alloc: Global,
    texts: &SharedTexts,
    containers: &[Container],
) -> Result<Items<ValidAtt>, NoMemory>
    requires { texts.now ≡ defined.shared_texts }
    ensures { IfOk result (λ attachments. attachments ≡ map defined.attachment_of containers.now) }
{
    let mut attachments = Vec::with_capacity(alloc, containers.len())?;
    for container in containers {
        attachments.push(ValidAtt {
            container: container.name.copy()?,
            ifname: texts.interface.copy()?,
        })?;
    }
    Ok(Items::of_vec(attachments))
}
