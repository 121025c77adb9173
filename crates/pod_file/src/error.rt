//! Why a pod file is refused.

ghost use Rattle.std.specs.Prelude.{◌≡◌, IfOk, IfErr};
ghost use Rattle.std.proofs.Common.{rules};
ghost use Rattle.cni_json.specs.Outcome.{TellsAs};
ghost use Rattle.pod_file.specs.Refusals as paths;
ghost use Rattle.pod_file.specs.Refusals.{is_out_of_memory, member_path, command_path, key_path};
ghost use Rattle.pod_file.specs.declared.error.PodError.TheVariants as refusal;

use crate::place::Place;
use cni_addr::{NoMemory, Text};
use cni_json::Refusal;
use std::alloc::Global;

/// Why a pod file is refused: the first cause, where all shapes come before the limits, and these before what must
/// stand alone.
#[derive(PartialEq, Eq, Drop)]
pub enum PodError {
    /// The bytes are no JSON text.
    Decode,
    /// A number is no whole number of 64 bits.
    Number,
    /// The value at this place has a wrong kind or value, or must be there and isn't, as `rounds[1][0].verb`. The top
    /// has the empty path. Too many rounds or commands make `rounds` wrong.
    Shape { path: Text },
    /// This round, from 0, has a command that must stand alone, and others.
    Alone { round: u32 },
    /// Memory ran out.
    NoMemory,
}

impl From<NoMemory> for PodError {
    ghost from_gives = { λ _ e. e ≡ refusal.NoMemory };

    fn from(_refused: NoMemory) -> PodError {
        PodError::NoMemory
    }
}

impl Refusal for PodError {
    ghost is_out_of_memory = { is_out_of_memory };

    ghost tells_out_of_memory = { λ n e is. Prim.search rules };
}

/// The refusal of the place whose text was made, or out of memory where none could be made.
fn shape(path: Result<Text, NoMemory>) -> PodError
    ensures made { IfOk path (λ text. result ≡ refusal.Shape text) }
    ensures not_made { IfErr path (λ _. result ≡ refusal.NoMemory) }
{
    path.map_or_else(PodError::from, |path| PodError::Shape { path })
}

/// The refusal of the value at this place.
pub fn wrong(alloc: Global, path: &str) -> PodError
    ensures { TellsAs is_out_of_memory result (refusal.Shape path.now) }
{
    shape(Text::of(alloc, path))
}

/// The refusal of a member of the list at this place.
#[tactic(auto, unfolding(crate::specs::Refusals::member_path))]
pub fn wrong_member(alloc: Global, list: &str, index: usize) -> PodError
    ensures { TellsAs is_out_of_memory result (refusal.Shape (member_path list.now index)) }
{
    shape(member_text(alloc, list, index))
}

/// The refusal of a command.
#[tactic(auto, unfolding(crate::specs::Refusals::command_path))]
pub fn wrong_command(alloc: Global, place: Place) -> PodError
    ensures { TellsAs is_out_of_memory result (refusal.Shape (command_path place)) }
{
    shape(command_text(alloc, place))
}

/// The refusal of a command's key.
#[tactic(auto, unfolding(crate::specs::Refusals::key_path))]
pub fn wrong_key(alloc: Global, place: Place, key: &str) -> PodError
    ensures { TellsAs is_out_of_memory result (refusal.Shape (key_path place key.now)) }
{
    shape(key_text(alloc, place, key))
}

fn member_text(alloc: Global, list: &str, index: usize) -> Result<Text, NoMemory>
    ensures { IfOk result (λ text. text ≡ paths.member_text list.now index) }
{
    Text::of(alloc, format!(in alloc; "{list}[{index}]")?.as_str())
}

fn command_text(alloc: Global, place: Place) -> Result<Text, NoMemory>
    ensures { IfOk result (λ text. text ≡ paths.command_text place) }
{
    match place {
        Place::InRound { round, command } => {
            let round = member_text(alloc, "rounds", round)?;
            member_text(alloc, round.as_str(), command)
        }
        Place::InTasks { index } => member_text(alloc, "tasks", index),
    }
}

fn key_text(alloc: Global, place: Place, key: &str) -> Result<Text, NoMemory>
    ensures { IfOk result (λ text. text ≡ paths.key_text place key.now) }
{
    let text = command_text(alloc, place)?;
    let command = text.as_str();
    Text::of(alloc, format!(in alloc; "{command}.{key}")?.as_str())
}
