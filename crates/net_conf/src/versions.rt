//! The version of a network list, which two keys name.

ghost use Rattle.std.specs.Prelude.{◌≡◌, ◌++◌, IfOk};
ghost use Rattle.serde_json.specs.View.{view};
ghost use Rattle.cni_json.specs.Outcome.{Gives};
ghost use Rattle.net_conf.specs.Refusals.{is_out_of_memory};
ghost use Rattle.net_conf.specs.Versions as defined;

use crate::error::{ConfError, invalid, version_refused};
use cni_addr::{Items, NoMemory, Text};
use cni_json::{Field, Value, field_str};
use cni_result::{Version, read_texts, version_text};
use std::alloc::Global;

/// The version that the plugins are asked in: the newest of those that are known and that `cniVersion` or `cniVersions`
/// names (CNI specification 1.1.0, section 1). Both keys count alike.
#[tactic(auto, using(cni_json::proofs::Steps::steps), unfolding(crate::specs::Versions::version_at))]
pub(crate) fn version(alloc: Global, top: &Value) -> Result<Version, ConfError>
    ensures { Gives is_out_of_memory result (defined.version_at (view top.now)) }
{
    let texts = version_texts(alloc, top)?;
    let newest = newest_named(texts.as_slice());
    newest.ok_or_else(|| version_refused(alloc, first_or_empty(texts.as_slice())))
}

/// The text of `cniVersion`, if there is one, and then those of `cniVersions`.
#[tactic(auto, using(cni_json::proofs::Steps::steps), unfolding(crate::specs::Versions::version_texts_at))]
fn version_texts(alloc: Global, top: &Value) -> Result<Items<Text>, ConfError>
    ensures { Gives is_out_of_memory result (defined.version_texts_at (view top.now)) }
{
    let single = single_version(alloc, top)?;
    let listed = listed_versions(alloc, top)?;
    Ok(joined(single, listed)?)
}

fn listed_versions(alloc: Global, top: &Value) -> Result<Items<Text>, ConfError>
    ensures { Gives is_out_of_memory result (defined.listed_versions_at (view top.now)) }
{
    read_texts(alloc, top, "cniVersions", &|| invalid(alloc, "cniVersions"))
}

fn joined(front: Items<Text>, back: Items<Text>) -> Result<Items<Text>, NoMemory>
    ensures { IfOk result (λ texts. texts ≡ front ++ back) }
{
    let mut texts = front.into_vec();
    let mut more = back.into_vec();
    texts.append(&mut more)?;
    Ok(Items::of_vec(texts))
}

#[tactic(auto, using(cni_json::proofs::Steps::steps), unfolding(crate::specs::Versions::single_version_at))]
fn single_version(alloc: Global, top: &Value) -> Result<Items<Text>, ConfError>
    ensures { Gives is_out_of_memory result (defined.single_version_at (view top.now)) }
{
    match field_str(top, "cniVersion") {
        Field::Absent => Ok(Items::new(alloc)),
        Field::WrongKind => Err(invalid(alloc, "cniVersion")),
        Field::Here(text) => {
            let mut texts = Items::new(alloc);
            texts.push(Text::of(alloc, text)?)?;
            Ok(texts)
        }
    }
}

fn newest_named(texts: &[Text]) -> Option<Version>
    ensures { result ≡ defined.newest_named texts.now }
{
    Version::ALL
        .iter()
        .rev()
        .copied()
        .find(|version| names(texts, *version))
}

fn names(texts: &[Text], version: Version) -> bool
    ensures { result ≡ defined.names texts.now version }
{
    texts
        .iter()
        .any(|text| text.as_str() == version_text(version))
}

fn first_or_empty(texts: &[Text]) -> &str
    ensures { result.now ≡ defined.first_or_empty texts.now }
{
    match texts {
        [first, ..] => first.as_str(),
        [] => "",
    }
}
