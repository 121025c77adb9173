//! The lines that are written where there is no book.

ghost use Rattle.std.specs.Prelude.{◌≡◌, IfOk, false};
ghost use Rattle.serde_json.specs.View.{view};
ghost use Rattle.serde_json.specs.Written.{has_float};
ghost use Rattle.tool_plan.specs.Lines.{error_line, file_data, reason_line};
ghost use Rattle.cni_json.specs.Json.{line_of};

use cni_addr::NoMemory;
use cni_json::{JsonObject, line};
use cni_result::{CniError, error_value};
use serde_json::Value;
use std::alloc::Global;

/// The line that says that the words aren't taken.
pub const USAGE: &[u8] = b"{\"error\":\"usage\"}\n";

/// A reason about a file.
pub(crate) fn reason_line(alloc: Global, word: &str, file: &str) -> Result<Vec<u8>, NoMemory>
    ensures { IfOk result (λ line. line.items ≡ reason_line word.now file.now) }
{
    file_line(alloc, Value::try_from_str(alloc, word)?, file)
}

/// An error about a file.
pub(crate) fn error_line(alloc: Global, error: &CniError, file: &str) -> Result<Vec<u8>, NoMemory>
    ensures { IfOk result (λ line. line.items ≡ error_line error.now file.now) }
{
    file_line(alloc, error_value(alloc, error)?, file)
}

fn file_line(alloc: Global, error: Value, file: &str) -> Result<Vec<u8>, NoMemory>
    requires { has_float (view error) ≡ false }
    ensures { IfOk result (λ line. line.items ≡ line_of (file_data (view error) file.now)) }
{
    let value = file_value(alloc, error, file)?;
    line(alloc, &value)
}

#[tactic(auto, using(crate::proofs::Whole::file_is_whole), unfolding(crate::specs::Lines::file_data))]
fn file_value(alloc: Global, error: Value, file: &str) -> Result<Value, NoMemory>
    requires { has_float (view error) ≡ false }
    ensures data { IfOk result (λ value. view value ≡ file_data (view error) file.now) }
    ensures whole { IfOk result (λ value. has_float (view value) ≡ false) }
{
    let mut object = JsonObject::new(alloc);
    object.put_value("error", error)?;
    object.put_text("file", file)?;
    Ok(object.into_value())
}
