//! Where each command stands, so that none is looked for.

ghost use Rattle.std.specs.Prelude.{◌≡◌, ◌+◌, ◌<◌, ◌≤◌, ◌++◌, List, Some, IfOk, IsSome, OnOk, length, map, slice_get};
ghost use Rattle.pod_file.specs.Rounds.{file_limit};
ghost use Rattle.pod_file.specs.declared.command.Command.{Command};
ghost use Rattle.pod_workers.specs.Index.{AreBefore, IsIndex, command_at_place, lets_through, may_step_by};
ghost use Rattle.pod_workers.specs.Plans.{Placed, in_round, placed_from};

use cni_addr::{Items, NoMemory};
use cni_errors::Answer;
use pod_file::Command;
use std::alloc::Global;
use std::collections::BTreeMap;

/// A command's round and its place in it, and the place of the command before it of its container in the round.
#[derive(Clone, Copy)]
pub(crate) struct Place {
    pub round: u32,
    pub within: u32,
    pub previous: Option<u32>,
}

/// The places of all commands, in file order.
pub(crate) fn index_of(alloc: Global, rounds: &[Items<Command>]) -> Result<Vec<Place>, NoMemory>
    requires few_rounds { length rounds.now ≤ file_limit }
    requires few_commands { length (placed_from 0 rounds.now) ≤ file_limit }
    ensures { IfOk result (λ places. IsIndex rounds.now (placed_from 0 rounds.now) places.items) }
{
    let mut places = Vec::new(alloc);
    for (round, commands) in rounds.iter().enumerate() {
        index_round(alloc, round as u32, commands.as_slice(), &mut places)?;
    }
    Ok(places)
}

/// Appends the places of one round's commands. Whoever writes a plan chooses its containers, and could choose many of
/// one hash, so they are looked up by their order.
fn index_round(
    alloc: Global,
    round: u32,
    commands: &[Command],
    places: &mut Vec<Place>,
) -> Result<(), NoMemory>
    requires { length places.old.items + length commands.now ≤ file_limit }
    ensures { OnOk result ((rounds : List (List Command)) (before : List Placed)
        → slice_get rounds round ≡ Some commands.now → AreBefore round before
        → IsIndex rounds before places.old.items
        → IsIndex rounds (before ++ map (in_round round) commands.now) places.new.items) }
{
    let mut latest: BTreeMap<&str, u32> = BTreeMap::new(alloc);
    for (within, command) in commands.iter().enumerate() {
        let number = places.len() as u32;
        let previous = latest.insert(command.container.as_str(), number)?;
        places.push(Place {
            round,
            within: within as u32,
            previous,
        })?;
    }
    Ok(())
}

pub(crate) fn place_at(places: &[Place], n: usize) -> Place
    requires { n < length places.now }
    ensures { slice_get places.now n ≡ Some result }
{
    places[n]
}

/// The commands of this round, from 0.
pub(crate) fn round_at(rounds: &[Items<Command>], round: u32) -> &[Command]
    requires { round < length rounds.now }
    ensures { slice_get rounds.now round ≡ Some result.now }
{
    rounds[round as usize].as_slice()
}

/// The command of this place.
pub(crate) fn command_at(rounds: &[Items<Command>], place: Place) -> &Command
    requires { IsSome (command_at_place rounds.now place) }
    ensures { command_at_place rounds.now place ≡ Some result.now }
{
    &rounds[place.round as usize].as_slice()[place.within as usize]
}

fn lets_through(answers: &[Option<Answer>], previous: Option<u32>) -> bool
    ensures { result ≡ lets_through answers.now previous }
{
    match previous {
        None => true,
        Some(m) => match answers.get(m as usize) {
            None => false,
            Some(answer) => answer.is_some(),
        },
    }
}

/// Whether the command of this place may step.
pub(crate) fn may_step(place: Place, answers: &[Option<Answer>], round: u32, n: usize) -> bool
    requires { n < length answers.now }
    ensures { result ≡ may_step_by place answers.now round n }
{
    place.round == round && answers[n].is_none() && lets_through(answers, place.previous)
}
