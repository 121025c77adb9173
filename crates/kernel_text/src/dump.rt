//! The lines of a dump.

ghost use Rattle.std.specs.Prelude.{◌≡◌, ◌++◌, take, vec_len, false, OnOk, OnErr, IfOk};
ghost use Rattle.cni_json.specs.Json.{line_of};
ghost use Rattle.serde_json.specs.Data.{Data};
ghost use Rattle.serde_json.specs.View.{view};
ghost use Rattle.serde_json.specs.Written.{has_float};
ghost use Rattle.kernel_text.specs.Dump.{lines_of, dump_of};

use cni_addr::NoMemory;
use cni_json::line;
use kernel_types::Host;
use serde_json::Value;
use std::alloc::Global;

/// An object that has a line in the dump.
pub trait Dumped {
    /// What the line says.
    ghost shown: { Self → Data };

    /// The object as JSON.
    fn dump_value(&self, alloc: Global) -> Result<Value, NoMemory>
        ensures { IfOk result (λ v. view v ≡ shown self.now) };
}

/// Appends the value as a line of its own. It asks that each number be a `u64` or an `i64`. Memory that is refused
/// leaves `lines` as they were. It takes time and memory in proportion to the line.
pub fn push_line(alloc: Global, value: &Value, lines: &mut Vec<u8>) -> Result<(), NoMemory>
    requires { has_float (view value.now) ≡ false }
    ensures ok { OnOk result (lines.new.items ≡ lines.old.items ++ line_of (view value.now)) }
    ensures err { OnErr result (lines.new.items ≡ lines.old.items) }
{
    let text = line(alloc, value)?;
    lines.extend_from_slice(text.as_slice())?;
    Ok(())
}

/// Appends a line for each object. It asks that what is shown be a line, which is so of each kind of objects.
#[tactic(auto, using(crate::proofs::TextLemmas::prefix_of_append))]
fn push_lines<T: Dumped>(alloc: Global, objects: &[T], lines: &mut Vec<u8>) -> Result<(), NoMemory>
    requires { (x : T) → has_float (T.shown x) ≡ false }
    ensures shown { OnOk result (lines.new.items ≡ lines.old.items ++ lines_of T.shown objects.now) }
    ensures kept { take (vec_len lines.old) lines.new.items ≡ lines.old.items }
{
    for object in objects {
        let value = object.dump_value(alloc)?;
        push_line(alloc, &value, lines)?;
    }
    Ok(())
}

/// Appends the lines of all objects, list by list in the order of [`Host`]. What stood in `lines` stays; a refusal may
/// leave a part of the dump behind it. It takes time and memory in proportion to the lines.
#[tactic(auto, using(crate::proofs::TextLemmas::prefix_of_prefix, crate::proofs::DumpLemmas::objects_are_whole))]
pub fn push_dump(alloc: Global, host: &Host, lines: &mut Vec<u8>) -> Result<(), NoMemory>
    ensures shown { OnOk result (lines.new.items ≡ lines.old.items ++ dump_of host.now) }
    ensures kept { take (vec_len lines.old) lines.new.items ≡ lines.old.items }
{
    push_lines(alloc, host.namespaces.as_slice(), lines)?;
    push_lines(alloc, host.links.as_slice(), lines)?;
    push_lines(alloc, host.addresses.as_slice(), lines)?;
    push_lines(alloc, host.routes.as_slice(), lines)?;
    push_lines(alloc, host.rules.as_slice(), lines)?;
    push_lines(alloc, host.settings.as_slice(), lines)?;
    push_lines(alloc, host.leases.as_slice(), lines)?;
    push_lines(alloc, host.cached.as_slice(), lines)?;
    push_lines(alloc, host.lasts.as_slice(), lines)?;
    Ok(())
}
