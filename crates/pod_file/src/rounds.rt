//! The reader of rounds.

ghost use Rattle.std.specs.Prelude.{◌≡◌, ◌+◌, ◌≤◌, length, true, nat_le};
ghost use Rattle.std.specs.List.{list_any};
ghost use Rattle.serde_json.specs.View.{view};
ghost use Rattle.cni_json.specs.Outcome.{Gives};
ghost use Rattle.pod_file.specs.Refusals.{is_out_of_memory};
ghost use Rattle.pod_file.specs.Rounds as defined;

use crate::command::Command;
use crate::commands::read_command;
use crate::error::{PodError, wrong, wrong_member};
use crate::place::Place;
use cni_addr::Items;
use cni_json::{Field, Value, field_list, read_each_placed};
use std::alloc::Global;

/// The most rounds, and the most commands, that a file may have.
const LIMIT: usize = 65_536;

/// The rounds, whose commands have no numbers yet.
#[tactic(auto, using(cni_json::proofs::Steps::steps), unfolding(crate::specs::Rounds::rounds_at))]
pub(crate) fn rounds(alloc: Global, top: &Value) -> Result<Items<Items<Command>>, PodError>
    ensures { Gives is_out_of_memory result (defined.rounds_at (view top.now)) }
{
    match field_list(top, "rounds") {
        Field::Here(list) => {
            read_each_placed(alloc, list, |index, member| round(alloc, index, member))
        }
        Field::Absent | Field::WrongKind => Err(wrong(alloc, "rounds")),
    }
}

#[tactic(auto, using(cni_json::proofs::Steps::steps))]
fn round(alloc: Global, index: usize, member: &Value) -> Result<Items<Command>, PodError>
    ensures { Gives is_out_of_memory result (defined.round_at index (view member.now)) }
{
    match member {
        Value::Array(list) => {
            read_each_placed(
                alloc,
                list.as_slice(),
                |place, member| command(alloc, index, place, member),
            )
        }
        _ => Err(wrong_member(alloc, "rounds", index)),
    }
}

fn command(alloc: Global, round: usize, index: usize, member: &Value) -> Result<Command, PodError>
    ensures { Gives is_out_of_memory result (defined.command_in round index (view member.now)) }
{
    let place = Place::InRound {
        round,
        command: index,
    };
    read_command(alloc, place, member)
}

/// Whether the rounds and their commands are within the limits.
#[tactic(auto, unfolding(crate::specs::Rounds::are_few))]
pub(crate) fn are_few(rounds: &[Items<Command>]) -> bool
    ensures { result ≡ defined.are_few rounds.now }
{
    rounds.len() <= LIMIT && have_few_commands(rounds)
}

#[tactic(auto, using(crate::proofs::Numbering::counts))]
fn have_few_commands(rounds: &[Items<Command>]) -> bool
    ensures { result ≡ nat_le (length (defined.in_file_order rounds.now)) defined.file_limit }
{
    let mut left = LIMIT;
    for commands in rounds {
        let count = commands.as_slice().len();
        if count > left {
            return false;
        }
        left -= count;
    }
    true
}

/// Refuses the first round in which a command that must stand alone doesn't.
#[tactic(auto, unfolding(crate::specs::Rounds::are_few))]
pub(crate) fn each_alone(rounds: &[Items<Command>]) -> Result<(), PodError>
    requires { defined.are_few rounds.now ≡ true }
    ensures { result ≡ defined.each_alone 0 rounds.now }
{
    for (index, commands) in rounds.iter().enumerate() {
        if !is_alone(commands.as_slice()) {
            return Err(PodError::Alone {
                round: index as u32,
            });
        }
    }
    Ok(())
}

fn is_alone(commands: &[Command]) -> bool
    ensures { result ≡ defined.is_alone commands.now }
{
    commands.len() <= 1 || !has_exclusive(commands)
}

fn has_exclusive(commands: &[Command]) -> bool
    ensures { result ≡ list_any defined.is_exclusive commands.now }
{
    commands.iter().any(|command| command.verb.is_exclusive())
}

/// The rounds with their commands numbered from 1 in file order.
#[tactic(auto, using(crate::proofs::Numbering::numbers), unfolding(crate::specs::Rounds::are_few))]
pub(crate) fn all_numbered(alloc: Global, rounds: Items<Items<Command>>) -> Items<Items<Command>>
    requires { defined.are_few rounds ≡ true }
    ensures { result ≡ defined.all_numbered 1 rounds }
{
    let mut rounds = rounds.into_vec();
    let mut next = 1;
    for commands in rounds.iter_mut() {
        let count = commands.as_slice().len() as u32;
        number_round(alloc, next, commands);
        next += count;
    }
    Items::of_vec(rounds)
}

/// Numbers a round's commands from this number.
fn number_round(alloc: Global, first: u32, commands: &mut Items<Command>)
    requires { first + length commands.old ≤ defined.file_limit + 1 }
    ensures { commands.new ≡ defined.round_numbered first commands.old }
{
    let taken = std::mem::replace(commands, Items::new(alloc));
    *commands = round_numbered(first, taken);
}

#[tactic(auto, using(crate::proofs::Numbering::numbers))]
fn round_numbered(first: u32, commands: Items<Command>) -> Items<Command>
    requires { first + length commands ≤ defined.file_limit + 1 }
    ensures { result ≡ defined.round_numbered first commands }
{
    let mut commands = commands.into_vec();
    let mut next = first;
    for command in commands.iter_mut() {
        command.number = next;
        next += 1;
    }
    Items::of_vec(commands)
}
