//! Lists and a pod file as one plan.

ghost use Rattle.std.specs.Prelude.{◌≡◌, ◌<◌, ◌≤◌, ◌^◌, [], length, position};
ghost use Rattle.std.specs.Option.{option_copied};
ghost use Rattle.pod_workers.specs.Join.{first_repeat_after, first_without_list, joined, refusal_of};
ghost use Rattle.pod_workers.specs.Laws.{JoinedPlansAreWellFormed};
ghost use Rattle.pod_workers.specs.declared.plan.Plan.{Plan};
ghost use Rattle.pod_file.specs.Rounds.{file_limit};
ghost use Rattle.pod_workers.specs.Plans.{has_list, lacks_list, list_in, list_named, placed_from};

use crate::plan::{Plan, PlanError};
use cni_addr::{Items, RefCounted, Text};
use net_conf::NetList;
use pod_file::{Command, Pods};

impl Plan {
    /// The plan of these lists and this pod file. It refuses the first list that has the name of an earlier one, or
    /// else the first command of a network that no list has.
    #[tactic(auto, unfolding(crate::specs::Join::joined))]
    pub fn join(
        lists: Items<RefCounted<NetList>>,
        pods: Pods,
        stop_at: Option<u32>,
    ) -> Result<Plan, PlanError>
        requires { length lists < 2 ^ 32 }
        ensures { result ≡ joined (record { lists = lists; pods = pods; stop_at = stop_at }) }
    {
        pods.rounds.laws();
        match refusal(lists.as_slice(), pods.rounds.as_slice()) {
            Some(error) => Err(error),
            None => Ok(Plan {
                lists,
                pods,
                stop_at,
            }),
        }
    }
}

/// A plan that was joined is well formed, where its lists and its pods are.
pub fn joined_plans_are_well_formed()
    ensures { JoinedPlansAreWellFormed }
{}

fn list_named<'a>(
    lists: &'a [RefCounted<NetList>],
    network: &Text,
) -> Option<&'a RefCounted<NetList>>
    ensures { option_copied result ≡ list_named lists.now network.now }
{
    lists.iter().find(|list| list.get().name == *network)
}

/// The list of a command's network, where its verb speaks of one.
pub(crate) fn list_in<'a>(
    lists: &'a [RefCounted<NetList>],
    command: &Command,
) -> Option<&'a RefCounted<NetList>>
    ensures { option_copied result ≡ list_in lists.now command.now }
{
    if command.verb.is_of_network() {
        list_named(lists, &command.network)
    } else {
        None
    }
}

fn has_list(lists: &[RefCounted<NetList>], name: &Text) -> bool
    ensures { result ≡ has_list lists.now name.now }
{
    list_named(lists, name).is_some()
}

fn lacks_list(lists: &[RefCounted<NetList>], command: &Command) -> bool
    ensures { result ≡ lacks_list lists.now command.now }
{
    command.verb.is_of_network() && !has_list(lists, &command.network)
}

/// Why these make no plan, if they don't.
fn refusal(lists: &[RefCounted<NetList>], rounds: &[Items<Command>]) -> Option<PlanError>
    requires few_lists { length lists.now < 2 ^ 32 }
    requires few_commands { length (placed_from 0 rounds.now) ≤ file_limit }
    ensures { result ≡ refusal_of lists.now rounds.now }
{
    if let Some(list) = first_repeat(lists) {
        return Some(PlanError::SameName { list });
    }
    if let Some(place) = first_without_list(lists, rounds) {
        return Some(PlanError::NoNetwork { command: place + 1 });
    }
    None
}

fn without_list_in(lists: &[RefCounted<NetList>], commands: &[Command]) -> Option<usize>
    ensures { result ≡ position (λ c. lacks_list lists.now c) commands.now }
{
    commands
        .iter()
        .position(|command| lacks_list(lists, command))
}

/// The place of the first command of a network that no list has.
fn first_without_list(lists: &[RefCounted<NetList>], rounds: &[Items<Command>]) -> Option<u32>
    requires { length (placed_from 0 rounds.now) ≤ file_limit }
    ensures { result ≡ first_without_list lists.now rounds.now }
{
    let mut before: u32 = 0;
    for commands in rounds {
        let commands = commands.as_slice();
        if let Some(place) = without_list_in(lists, commands) {
            return Some(before + place as u32);
        }
        before += commands.len() as u32;
    }
    None
}

/// The place of the first list that has the name of an earlier one.
fn first_repeat(lists: &[RefCounted<NetList>]) -> Option<u32>
    requires { length lists.now < 2 ^ 32 }
    ensures { result ≡ first_repeat_after [] 0 lists.now }
{
    for (place, list) in lists.iter().enumerate() {
        if has_list(&lists[..place], &list.get().name) {
            return Some(place as u32);
        }
    }
    None
}
