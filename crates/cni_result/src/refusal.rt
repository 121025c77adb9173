//! Why a result is not read.

ghost use Rattle.std.specs.Prelude.{◌≡◌};
ghost use Rattle.std.proofs.Common.{rules};
ghost use Rattle.cni_json.specs.Outcome.{TellsAs};
ghost use Rattle.cni_result.specs.Refusals.{is_out_of_memory};
ghost use Rattle.cni_result.specs.declared.refusal.ResultError.TheVariants as refusal;

use cni_addr::{NoMemory, Text};
use cni_json::Refusal;
use std::alloc::Global;

/// Why bytes are not read as a result: the first cause in the order of the members.
#[derive(PartialEq, Eq, Drop)]
pub enum ResultError {
    /// The bytes are no JSON text.
    Decode,
    /// `cniVersion` is none of the versions that are known; the text is empty where it is absent or no text.
    Version { found: Text },
    /// A member is wrong, by its key; a number has no 64 bits (`number`); the value is no object (`result`); or an
    /// address is on an interface that isn't there (`interface`).
    Invalid { key: Text },
    /// Memory ran out.
    NoMemory,
}

impl From<NoMemory> for ResultError {
    ghost from_gives = { λ _ e. e ≡ refusal.NoMemory };

    fn from(_refused: NoMemory) -> ResultError {
        ResultError::NoMemory
    }
}

impl Refusal for ResultError {
    ghost is_out_of_memory = { is_out_of_memory };

    ghost tells_out_of_memory = { λ n e is. Prim.search rules };
}

/// The refusal of a member.
pub(crate) fn invalid(alloc: Global, key: &str) -> ResultError
    ensures { TellsAs is_out_of_memory result (refusal.Invalid key.now) }
{
    Text::of(alloc, key).map_or_else(ResultError::from, |key| ResultError::Invalid { key })
}

/// The refusal of a version.
pub(crate) fn version_refused(alloc: Global, found: &str) -> ResultError
    ensures { TellsAs is_out_of_memory result (refusal.Version found.now) }
{
    Text::of(alloc, found).map_or_else(ResultError::from, |found| ResultError::Version { found })
}
