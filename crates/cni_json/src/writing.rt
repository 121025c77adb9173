//! Writing a JSON value on one line.

ghost use Rattle.std.specs.Prelude.{◌≡◌, ◌≤◌, false, Ok, IfOk, IsUtf8};
ghost use Rattle.serde_json.specs.Data.{depth};
ghost use Rattle.serde_json.specs.Read.{max_depth};
ghost use Rattle.serde_json.specs.View.{view};
ghost use Rattle.serde_json.specs.Written.{has_float};
ghost use Rattle.cni_json.specs.Json.{json_of, line_of};
ghost use Rattle.cni_json.specs.WellFormed.{KeysAscend};

use cni_addr::{NoMemory, Text};
use serde_json::Value;
use std::alloc::Global;

/// The value on one line: its compact text, which has no space outside texts, and a line feed.
///
/// The members of an object stand in ascending byte order of their keys, as a `Map` keeps them.
/// It takes time and memory in proportion to the line. It asks that each number be a `u64` or an
/// `i64`, as in each value that `read` gives.
pub fn line(alloc: Global, value: &Value) -> Result<Vec<u8>, NoMemory>
    requires { has_float (view value.now) ≡ false }
    ensures text { IfOk result (λ text. text.items ≡ line_of (view value.now)) }
    ensures utf8 { IfOk result (λ text. IsUtf8 text.items) }

    // A line that doesn't nest too deep for a reader is read again, and has its keys in order.
    ensures again { IfOk result (λ text. depth (view value.now) ≤ max_depth
        → json_of text.items ≡ Ok (view value.now)) }
    ensures keys { IfOk result (λ text. depth (view value.now) ≤ max_depth
        → KeysAscend (view value.now)) }
{
    let Ok(mut text) = value.to_vec(alloc) else {
        return Err(NoMemory);
    };
    if text.push(b'\n').is_err() {
        return Err(NoMemory);
    }
    Ok(text)
}

/// The line as a text. It is [`line`] otherwise, in what it asks, gives and takes.
pub fn line_text(alloc: Global, value: &Value) -> Result<Text, NoMemory>
    requires { has_float (view value.now) ≡ false }
    ensures text { IfOk result (λ text. text ≡ line_of (view value.now)) }
    ensures again { IfOk result (λ text. depth (view value.now) ≤ max_depth
        → json_of text ≡ Ok (view value.now)) }
{
    let bytes = line(alloc, value)?;
    match str::from_utf8(&bytes) {
        Ok(text) => Text::of(alloc, text),
        Err(_) => unreachable!(),
    }
}
