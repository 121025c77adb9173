//! The reader of pod files.

ghost use Rattle.std.specs.Prelude.{◌≡◌, true, IfOk};
ghost use Rattle.serde_json.specs.View.{view};
ghost use Rattle.cni_json.specs.Outcome.{Gives};
ghost use Rattle.pod_file.specs.PodFile as defined;
ghost use Rattle.pod_file.specs.Refusals.{is_out_of_memory};
ghost use Rattle.pod_file.specs.Rounds as limits;

use crate::command::Command;
use crate::error::{PodError, wrong};
use crate::opening::opening;
use crate::pods::{Pods, Rounds};
use crate::rounds::{all_numbered, are_few, each_alone, rounds};
use cni_addr::Items;
use cni_json::{ReadEnd, Value, need_object};
use std::alloc::Global;

/// The pod file that the bytes spell, or the first refusal.
#[tactic(auto, using(cni_json::proofs::Steps::steps), unfolding(crate::specs::PodFile::pods_of))]
pub fn read_pods(alloc: Global, bytes: &[u8]) -> Result<Pods, PodError>
    ensures { Gives is_out_of_memory result (defined.pods_of bytes.now) }
{
    match cni_json::read(alloc, bytes) {
        Ok(top) => pods(alloc, &top),
        Err(ReadEnd::Decode) => Err(PodError::Decode),
        Err(ReadEnd::Number) => Err(PodError::Number),
        Err(ReadEnd::NoMemory) => Err(PodError::NoMemory),
    }
}

#[tactic(auto, using(cni_json::proofs::Steps::steps), unfolding(crate::specs::PodFile::pods_at))]
fn pods(alloc: Global, top: &Value) -> Result<Pods, PodError>
    ensures { Gives is_out_of_memory result (defined.pods_at (view top.now)) }
{
    need_object(top, || wrong(alloc, ""))?;
    let opening = opening(alloc, top)?;
    let rounds = rounds(alloc, top)?;
    few(alloc, rounds.as_slice())?;
    each_alone(rounds.as_slice())?;
    let numbered = all_numbered(alloc, rounds);
    Ok(Pods {
        opening,
        rounds: Rounds::of_items(numbered),
    })
}

/// Refuses rounds or commands beyond the limits.
#[tactic(auto, using(cni_json::proofs::Steps::steps))]
fn few(alloc: Global, rounds: &[Items<Command>]) -> Result<(), PodError>
    ensures given { Gives is_out_of_memory result (limits.few rounds.now) }
    ensures within { IfOk result (λ _. limits.are_few rounds.now ≡ true) }
{
    are_few(rounds)
        .then_some(())
        .ok_or_else(|| wrong(alloc, "rounds"))
}
