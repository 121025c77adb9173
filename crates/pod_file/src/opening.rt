//! The reader of the opening.

ghost use Rattle.std.specs.Prelude.{[], codes};
ghost use Rattle.serde_json.specs.View.{view, items_view};
ghost use Rattle.cni_json.specs.Each.{each_after};
ghost use Rattle.cni_json.specs.Outcome.{Gives, GivesAs, TellsAs};
ghost use Rattle.pod_file.specs.Indexed.{with_next};
ghost use Rattle.pod_file.specs.Opening as defined;
ghost use Rattle.pod_file.specs.Refusals.{is_out_of_memory, member_path};
ghost use Rattle.pod_file.specs.declared.error.PodError.TheVariants as refusal;

use crate::error::{PodError, wrong, wrong_member};
use crate::indexed::Names;
use crate::links::links;
use cni_addr::{Items, Text};
use cni_json::{Field, Value, field_list, member};
use kernel_types::terms::is_host_ns;
use kernel_types::{Host, opening_with};
use std::alloc::Global;

/// The host that an opening is: an object whose lists `namespaces` and `links` may each be absent, or null, which is a
/// host with nothing. A value of another kind is wrong by the path `opening`, a list of another kind by its own, as
/// `opening.links`. A member is wrong by its place, as `opening.links[2]`: a namespace whose name is empty or was there
/// before, and a link that is no object of its form, that is in no namespace of these and not in the host's own, or
/// whose name was there before.
#[tactic(auto, using(cni_json::proofs::Steps::steps), unfolding(crate::specs::Opening::opening_of))]
pub fn read_opening(alloc: Global, value: &Value) -> Result<Host, PodError>
    ensures { Gives is_out_of_memory result (defined.opening_of (view value.now)) }
{
    match value {
        Value::Null => Ok(opening_with(alloc, &[], Items::new(alloc))?),
        Value::Object(_) => opening_members(alloc, value),
        _ => Err(wrong(alloc, "opening")),
    }
}

/// The opening of a file.
#[tactic(auto, using(cni_json::proofs::Steps::steps), unfolding(crate::specs::Opening::opening_at))]
pub(crate) fn opening(alloc: Global, top: &Value) -> Result<Host, PodError>
    ensures { Gives is_out_of_memory result (defined.opening_at (view top.now)) }
{
    match member(top, "opening") {
        Some(value) => read_opening(alloc, value),
        None => read_opening(alloc, &Value::Null),
    }
}

#[tactic(auto, using(cni_json::proofs::Steps::steps), unfolding(crate::specs::Opening::opening_members_at))]
fn opening_members(alloc: Global, members: &Value) -> Result<Host, PodError>
    ensures { Gives is_out_of_memory result (defined.opening_members_at (view members.now)) }
{
    let names = namespaces(alloc, members)?;
    let links = links(alloc, &names, members)?;
    Ok(opening_with(alloc, names.as_slice(), links)?)
}

/// The names of the namespaces, none where there is no list of them.
#[tactic(auto, using(cni_json::proofs::Steps::steps), unfolding(crate::specs::Links::listed_at, crate::specs::Opening::namespaces_at))]
fn namespaces(alloc: Global, members: &Value) -> Result<Names, PodError>
    ensures { Gives is_out_of_memory result (defined.namespaces_at (view members.now)) }
{
    match field_list(members, "namespaces") {
        Field::Absent => Ok(Names::new(alloc)),
        Field::WrongKind => Err(wrong(alloc, "opening.namespaces")),
        Field::Here(list) => all_namespaces(alloc, list),
    }
}

#[tactic(auto, using(cni_json::proofs::Steps::steps))]
fn all_namespaces(alloc: Global, list: &[Value]) -> Result<Names, PodError>
    ensures { Gives is_out_of_memory result (each_after defined.next_namespace [] (items_view list.now)) }
{
    let mut names = Names::new(alloc);
    for member in list {
        enter_next(alloc, &mut names, member)?;
    }
    Ok(names)
}

fn enter_next(alloc: Global, names: &mut Names, member: &Value) -> Result<(), PodError>
    ensures { GivesAs is_out_of_memory (λ _. names.new) result
        (with_next names.old (defined.next_namespace names.old (view member.now))) }
{
    let index = names.as_slice().len();
    enter_namespace(alloc, names, index, member)
}

#[tactic(auto, using(cni_json::proofs::Steps::steps))]
fn enter_namespace(
    alloc: Global,
    names: &mut Names,
    index: usize,
    member: &Value,
) -> Result<(), PodError>
    ensures { GivesAs is_out_of_memory (λ _. names.new) result
        (with_next names.old (defined.namespace_at names.old index (view member.now))) }
{
    match member {
        Value::String(name) => enter_or_refuse(alloc, names, index, name.as_str()),
        _ => Err(wrong_namespace(alloc, index)),
    }
}

/// Enters a name that is neither the host's nor one that another namespace has.
#[tactic(auto, using(cni_json::proofs::Steps::steps))]
fn enter_or_refuse(
    alloc: Global,
    names: &mut Names,
    index: usize,
    name: &str,
) -> Result<(), PodError>
    ensures { GivesAs is_out_of_memory (λ _. names.new) result
        (with_next names.old (defined.name_or_refused names.old index name.now)) }
{
    if !is_host_ns(name) && names.enter(Text::of(alloc, name)?)? {
        Ok(())
    } else {
        Err(wrong_namespace(alloc, index))
    }
}

fn wrong_namespace(alloc: Global, index: usize) -> PodError
    ensures { TellsAs is_out_of_memory result (refusal.Shape (member_path (codes "opening.namespaces") index)) }
{
    wrong_member(alloc, "opening.namespaces", index)
}
