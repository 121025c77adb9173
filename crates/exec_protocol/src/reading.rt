//! Requests that are read.

ghost use Rattle.std.specs.Prelude.{◌≡◌, IfErr, IfOk, false};
ghost use Rattle.serde_json.specs.View.{view};
ghost use Rattle.serde_json.specs.Written.{has_float};
ghost use Rattle.cni_json.specs.Outcome.{Gives};
ghost use Rattle.exec_protocol.specs.Reading as defined;
ghost use Rattle.exec_protocol.specs.Refusals.{TellsNoMemoryOnce, is_out_of_memory};

use crate::env::{Env, verb_of};
use crate::error::RequestError;
use crate::members::{RequestHead, RuntimeParts, head, needed_prev, runtime_parts};
use crate::types::Request;
use cni_addr::{Duplicate, NoMemory};
use cni_json::Value;
use cni_result::AddResult;
use net_conf::decode;
use pod_file::Verb;
use std::alloc::Global;

/// What names the plugin of a request, and the result before it.
#[derive(Drop)]
struct RequestFront {
    head: RequestHead,
    prev: Option<AddResult>,
}

/// What a request says, whatever words its plugin is called with.
#[derive(Drop)]
struct RequestParts {
    front: RequestFront,
    runtime: RuntimeParts,
}

/// What a plugin is asked that is called with these words and reads these bytes, or the first refusal: the words; no
/// JSON text; what a network list says of itself (`list`, the version, `name`); the plugin, which is one that makes an
/// interface exactly where its type is; `prevResult`; `runtimeConfig`; and `cni.dev/valid-attachments`.
///
/// A member that is null is as an absent one, and unnamed members are ignored. It takes time and memory in proportion
/// to the bytes, and that of a sort of the ranges.
#[tactic(auto, using(cni_json::proofs::Steps::steps, crate::proofs::Steps::refusals), unfolding(crate::specs::Reading::request_of_bytes))]
pub fn read_request(alloc: Global, env: &Env, bytes: &[u8]) -> Result<Request, RequestError>
    ensures exact { Gives is_out_of_memory result (defined.request_of_bytes env.now bytes.now) }
    ensures memory { IfErr result TellsNoMemoryOnce }
{
    let verb = verb_of(alloc, env)?;
    let request = decode(alloc, bytes)?;
    request_of(alloc, env, verb, &request)
}

#[tactic(auto, using(cni_json::proofs::Steps::steps), unfolding(crate::specs::Reading::request_at))]
fn request_of(
    alloc: Global,
    env: &Env,
    verb: Verb,
    request: &Value,
) -> Result<Request, RequestError>
    requires { has_float (view request.now) ≡ false }
    ensures exact { Gives is_out_of_memory result (defined.request_at env.now verb (view request.now)) }
    ensures memory { IfErr result TellsNoMemoryOnce }
{
    let parts = parts(alloc, verb, request)?;
    Ok(request_of_parts(env, parts)?)
}

#[tactic(auto, using(cni_json::proofs::Steps::steps, crate::proofs::Steps::refusals), unfolding(crate::specs::Reading::front_at))]
fn front(alloc: Global, verb: Verb, request: &Value) -> Result<RequestFront, RequestError>
    requires { has_float (view request.now) ≡ false }
    ensures exact { Gives is_out_of_memory result (defined.front_at verb (view request.now)) }
    ensures memory { IfErr result TellsNoMemoryOnce }
{
    let head = head(alloc, request)?;
    let prev = needed_prev(alloc, verb, &head.plugin, request)?;
    Ok(RequestFront { head, prev })
}

#[tactic(auto, using(cni_json::proofs::Steps::steps, crate::proofs::Steps::refusals), unfolding(crate::specs::Reading::parts_at))]
fn parts(alloc: Global, verb: Verb, request: &Value) -> Result<RequestParts, RequestError>
    requires { has_float (view request.now) ≡ false }
    ensures exact { Gives is_out_of_memory result (defined.parts_at verb (view request.now)) }
    ensures memory { IfErr result TellsNoMemoryOnce }
{
    let front = front(alloc, verb, request)?;
    let runtime = runtime_parts(alloc, request)?;
    Ok(RequestParts { front, runtime })
}

fn request_of_parts(env: &Env, parts: RequestParts) -> Result<Request, NoMemory>
    ensures { IfOk result (λ request. request ≡ defined.request_of_parts env.now parts) }
{
    Ok(Request {
        env: env.copy()?,
        version: parts.front.head.header.version,
        name: parts.front.head.header.name,
        plugin: parts.front.head.plugin,
        prev: parts.front.prev,
        mappings: parts.runtime.mappings,
        valid: parts.runtime.valid,
    })
}
