//! The request to a plugin, as a value and as the line that the plugin reads.

ghost use Rattle.std.specs.Prelude.{◌≡◌, ◌+◌, ◌<◌, ◌≤◌, false, length, All, IfOk};
ghost use Rattle.std.specs.Option.{option_copied};
ghost use Rattle.serde_json.specs.Data.{depth};
ghost use Rattle.serde_json.specs.Read.{max_depth};
ghost use Rattle.serde_json.specs.View.{view};
ghost use Rattle.serde_json.specs.Written.{has_float};
ghost use Rattle.cni_json.specs.Json.{line_of};
ghost use Rattle.cni_result.specs.Laws.{IsMapping};
ghost use Rattle.plugin_requests.specs.Request.{request_of};
ghost use Rattle.exec_protocol.specs.Laws.{IsReadAgain};

use crate::laws::a_request_is_read_again;
use cni_addr::{NoMemory, Text};
use cni_json::{Value, line_text};
use cni_result::{AddResult, PortMapping};
use plugin_requests::{RawList, request_to};
use pod_file::ValidAtt;
use std::alloc::Global;

/// The request to the plugin in this place of the list, from 0: its own object, with what a runtime replaces in it. It
/// takes time and memory in proportion to the object and the parts that are given.
pub fn request_value(
    alloc: Global,
    raw: &RawList,
    k: u32,
    prev: Option<&AddResult>,
    mappings: &[PortMapping],
    valid: Option<&[ValidAtt]>,
) -> Result<Value, NoMemory>
    requires place { k < length raw.now.objects }
    ensures json { IfOk result (λ v. view v ≡ request_of raw.now k (option_copied prev.entry) mappings.now
        (option_copied valid.entry)) }

    // What a line of it needs to be read again, also where the line has it in an object.
    ensures numbers { IfOk result (λ v. has_float (view v) ≡ false) }
    ensures nests { IfOk result (λ v. depth (view v) + 1 ≤ max_depth) }
{
    let object = raw.object(k);
    request_to(alloc, raw.list().get(), object, prev, mappings, valid)
}

/// Opens what the types of a mapping's parts keep to the proof.
fn is_mapping(mapping: PortMapping)
    ensures { IsMapping mapping }
{
    if let Some(addr) = mapping.host_ip {
        let _bits = addr.bits;
    }
}

/// Each is a mapping as its type keeps it. The call does nothing.
fn are_mappings(mappings: &[PortMapping])
    ensures { All IsMapping mappings.now }
{
    for mapping in mappings {
        is_mapping(*mapping);
    }
}

/// The request on a line of its own, as a plugin is handed it. What the plugin reads of it is what it was made of, if
/// the result can be read again and is there where a chained plugin is to add.
pub fn request(
    alloc: Global,
    raw: &RawList,
    k: u32,
    prev: Option<&AddResult>,
    mappings: &[PortMapping],
    valid: Option<&[ValidAtt]>,
) -> Result<Text, NoMemory>
    requires place { k < length raw.now.objects }
    ensures text { IfOk result (λ text. text ≡ line_of (request_of raw.now k (option_copied prev.entry) mappings.now
        (option_copied valid.entry))) }
    ensures again { IfOk result (λ text. IsReadAgain raw.now k (option_copied prev.entry) mappings.now
        (option_copied valid.entry) text) }
{
    a_request_is_read_again();
    raw.is_raw();
    are_mappings(mappings);
    let value = request_value(alloc, raw, k, prev, mappings, valid)?;
    let text = line_text(alloc, &value)?;
    Ok(text)
}
