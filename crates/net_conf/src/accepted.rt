//! Keys that are not acted on. A value that asks for nothing is accepted, every other is refused.

ghost use Rattle.std.specs.Prelude.{◌≡◌, false};
ghost use Rattle.serde_json.specs.Data.{string};
ghost use Rattle.serde_json.specs.View.{view};
ghost use Rattle.serde_json.specs.Written.{has_float};
ghost use Rattle.cni_json.specs.Outcome.{Gives};
ghost use Rattle.net_conf.specs.Accepted as defined;
ghost use Rattle.net_conf.specs.Refusals.{is_out_of_memory};

use crate::error::{ConfError, unsupported};
use cni_json::{Value, member};
use std::alloc::Global;

/// The values that are accepted of a key that isn't acted on.
#[derive(Clone, Copy)]
pub enum Accepted {
    Zero,
    AnyNumber,
    EmptyList,
    IsFlag(bool),
    EmptyText,
    AnyText,
    /// The empty text and `iptables`.
    Backend,
    /// The empty text and `open`.
    OpenPolicy,
}

fn is_accepted(accepted: Accepted, value: &Value) -> bool
    ensures { result ≡ defined.accepts accepted (view value.now) }
{
    match (accepted, value) {
        (Accepted::Zero, value) => value.as_u64() == Some(0),
        (Accepted::AnyNumber, Value::Number(_)) => true,
        (Accepted::EmptyList, Value::Array(list)) => list.as_slice().is_empty(),
        (Accepted::IsFlag(true), Value::Bool(flag)) => *flag,
        (Accepted::IsFlag(false), Value::Bool(flag)) => !*flag,
        (Accepted::EmptyText, Value::String(text)) => is_default_text("", text.as_str()),
        (Accepted::AnyText, Value::String(_)) => true,
        (Accepted::Backend, Value::String(text)) => is_default_text("iptables", text.as_str()),
        (Accepted::OpenPolicy, Value::String(text)) => is_default_text("open", text.as_str()),
        _ => false,
    }
}

fn is_default_text(default: &str, text: &str) -> bool
    ensures { result ≡ defined.is_default_text default.now (string text.now) }
{
    text == "" || text == default
}

/// Refuses a value of the key that is neither absent, null nor accepted.
#[tactic(auto, using(cni_json::proofs::Steps::steps, cni_json::proofs::WholeNumbers::parts_are_whole), unfolding(crate::specs::Accepted::supported))]
pub fn supported(
    alloc: Global,
    object: &Value,
    key: &str,
    accepted: Accepted,
) -> Result<(), ConfError>
    requires { has_float (view object.now) ≡ false }
    ensures { Gives is_out_of_memory result (defined.supported accepted key.now (view object.now)) }
{
    match member(object, key) {
        None => Ok(()),
        Some(value) => {
            if is_accepted(accepted, value) {
                Ok(())
            } else {
                Err(unsupported(alloc, key, value))
            }
        }
    }
}

/// Refuses the first key of the rows whose value is neither absent, null nor accepted.
#[tactic(auto, using(cni_json::proofs::Steps::steps))]
pub fn all_supported(
    alloc: Global,
    object: &Value,
    rows: &[(&str, Accepted)],
) -> Result<(), ConfError>
    requires { has_float (view object.now) ≡ false }
    ensures { Gives is_out_of_memory result (defined.all_supported (defined.rows_of rows.now) (view object.now)) }
{
    for (key, accepted) in rows {
        supported(alloc, object, key, *accepted)?;
    }
    Ok(())
}
