//! Commands with their answers, as JSON.

ghost use Rattle.std.specs.Prelude.{◌≡◌, false, IfOk, OnOk};
ghost use Rattle.serde_json.specs.View.{view};
ghost use Rattle.serde_json.specs.Written.{has_float};
ghost use Rattle.cni_json.specs.Members.{members_of};
ghost use Rattle.pod_text.specs.Lines.{skip_text, versions_data, put_answer, answer_data};

use cni_addr::NoMemory;
use cni_errors::{Answer, Skip, memory_error};
use cni_json::JsonObject;
use cni_result::{Version, error_value, to_value};
use net_conf::{DISABLE_CHECK_KEY, DISABLE_GC_KEY};
use pod_file::{Verb, verb_text};
use serde_json::Value;
use std::alloc::Global;

/// The key of the network list that disables the verb.
fn skip_text(skip: Skip) -> &'static str
    ensures { result.now ≡ skip_text skip }
{
    match skip {
        Skip::Check => DISABLE_CHECK_KEY,
        Skip::Gc => DISABLE_GC_KEY,
    }
}

#[tactic(auto, unfolding(crate::specs::Lines::versions_data))]
fn versions_value(alloc: Global, version: Version) -> Result<Value, NoMemory>
    ensures { IfOk result (λ v. view v ≡ versions_data version) }
{
    let mut object = JsonObject::new(alloc);
    object.put("cniVersion", &version)?;
    object.put_list("supportedVersions", &Version::ALL)?;
    Ok(object.into_value())
}

fn put_answer(alloc: Global, answer: &Answer, object: &mut JsonObject) -> Result<(), NoMemory>
    ensures { OnOk result (members_of object.new ≡ put_answer answer.now (members_of object.old)) }
{
    match answer {
        Answer::Added(added) => object.put_value("result", to_value(alloc, added.get())?),
        Answer::Yes => object.put("ok", &true),
        Answer::Skipped(skip) => object.put_text("skipped", skip_text(*skip)),
        Answer::Versions(version) => {
            object.put_value("versions", versions_value(alloc, *version)?)
        }
        Answer::Refused(error) => object.put_value("error", error_value(alloc, error)?),
        Answer::OutOfMemory => {
            let error = memory_error(alloc)?;
            object.put_value("error", error_value(alloc, &error)?)
        }
        Answer::Stopped { calls } => object.put("stopped", calls),
    }
}

/// An answer with the number of what it answers, from 1, and its verb, as JSON. It takes time and memory in proportion
/// to the answer.
#[tactic(auto, using(crate::proofs::Whole::answer_is_whole), unfolding(crate::specs::Lines::answer_data))]
pub fn answer_value(
    alloc: Global,
    number: u64,
    verb: Verb,
    answer: &Answer,
) -> Result<Value, NoMemory>
    ensures json { IfOk result (λ v. view v ≡ answer_data number verb answer.now) }
    ensures numbers { IfOk result (λ v. has_float (view v) ≡ false) }
{
    let mut object = JsonObject::new(alloc);
    put_answer(alloc, answer, &mut object)?;
    object.put("n", &number)?;
    object.put_text("verb", verb_text(verb))?;
    Ok(object.into_value())
}
