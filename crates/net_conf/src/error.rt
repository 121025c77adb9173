//! Why a network list is refused.

ghost use Rattle.std.specs.Prelude.{◌≡◌, false, IfOk};
ghost use Rattle.std.proofs.Common.{rules};
ghost use Rattle.serde_json.specs.View.{view};
ghost use Rattle.serde_json.specs.Written.{has_float, compact_text};
ghost use Rattle.cni_json.specs.Outcome.{TellsAs};
ghost use Rattle.net_conf.specs.Refusals.{is_out_of_memory};
ghost use Rattle.net_conf.specs.declared.error.ConfError.TheVariants as refusal;

use cni_addr::{NoMemory, Text};
use cni_json::{Refusal, Value};
use std::alloc::Global;

/// Why a network list is refused: the first cause in the order of its parts. They are reported with the codes 1, 2, 6
/// and 7 of the CNI specification 1.1.0 (section 5, "Error"), in the order of the cases, and out of memory with 104,
/// which is this project's own.
#[derive(PartialEq, Eq, Drop)]
pub enum ConfError {
    /// Neither `cniVersion` nor `cniVersions` names a version that is known. The text is that of `cniVersion`, else the
    /// first of `cniVersions`, else empty.
    Version { found: Text },
    /// A key that isn't acted on asks for something, with its value as compact JSON text.
    Unsupported { key: Text, value: Text },
    /// The bytes are no JSON text.
    Decode,
    /// A key or part has a wrong kind or value, or must be there and isn't.
    Invalid { why: Text },
    /// Memory ran out.
    NoMemory,
}

impl From<NoMemory> for ConfError {
    ghost from_gives = { λ _ e. e ≡ refusal.NoMemory };

    fn from(_refused: NoMemory) -> ConfError {
        ConfError::NoMemory
    }
}

impl Refusal for ConfError {
    ghost is_out_of_memory = { is_out_of_memory };

    ghost tells_out_of_memory = { λ n e is. Prim.search rules };
}

/// The refusal of a key or part. It keeps a copy of the text, and is [`ConfError::NoMemory`] where that has no room.
pub fn invalid(alloc: Global, why: &str) -> ConfError
    ensures { TellsAs is_out_of_memory result (refusal.Invalid why.now) }
{
    Text::of(alloc, why).map_or_else(ConfError::from, |why| ConfError::Invalid { why })
}

/// The refusal of a version.
pub(crate) fn version_refused(alloc: Global, found: &str) -> ConfError
    ensures { TellsAs is_out_of_memory result (refusal.Version found.now) }
{
    Text::of(alloc, found).map_or_else(ConfError::from, |found| ConfError::Version { found })
}

/// The refusal of a key's value.
pub(crate) fn unsupported(alloc: Global, key: &str, value: &Value) -> ConfError
    requires { has_float (view value.now) ≡ false }
    ensures { TellsAs is_out_of_memory result (refusal.Unsupported key.now (compact_text (view value.now))) }
{
    key_and_value(alloc, key, value).unwrap_or_else(ConfError::from)
}

fn key_and_value(alloc: Global, key: &str, value: &Value) -> Result<ConfError, NoMemory>
    requires { has_float (view value.now) ≡ false }
    ensures { IfOk result (λ e. e ≡ refusal.Unsupported key.now (compact_text (view value.now))) }
{
    let json = value.to_string(alloc)?;
    Ok(ConfError::Unsupported {
        key: Text::of(alloc, key)?,
        value: Text::of(alloc, json.as_str())?,
    })
}
