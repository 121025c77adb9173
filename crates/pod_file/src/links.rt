//! The reader of the opening's links.

ghost use Rattle.std.specs.Prelude.{◌≡◌, [], ◌∷◌, ◌++◌, codes, OnOk, IfOk};
ghost use Rattle.serde_json.specs.View.{view, items_view};
ghost use Rattle.cni_json.specs.Each.{each_after};
ghost use Rattle.cni_json.specs.Outcome.{Gives, GivesAs, TellsAs};
ghost use Rattle.pod_file.specs.Indexed.{with_next};
ghost use Rattle.pod_file.specs.Links as defined;
ghost use Rattle.pod_file.specs.Refusals.{is_out_of_memory, member_path};
ghost use Rattle.pod_file.specs.declared.error.PodError.TheVariants as refusal;

use crate::error::{PodError, wrong, wrong_member};
use crate::indexed::{Names, PlacedLinks};
use cni_addr::{Items, NoMemory, Text};
use cni_json::{Field, Value, field_list, field_str, field_u64, need_object};
use kernel_types::terms::is_host_ns;
use kernel_types::{Link, LinkKey, LinkKind, Tag, link_kind_text};
use link_names::link_mac;
use net_conf::{DEFAULT_MTU, is_interface_name, is_mtu};
use std::alloc::Global;

/// The kinds of links that an opening may have, each once.
const KINDS: [LinkKind; 2] = [LinkKind::Device, LinkKind::Bridge];

/// The links, none where there is no list of them.
#[tactic(auto, using(cni_json::proofs::Steps::steps), unfolding(crate::specs::Links::listed_at, crate::specs::Links::links_at))]
pub(crate) fn links(alloc: Global, names: &Names, opening: &Value) -> Result<Items<Link>, PodError>
    ensures { Gives is_out_of_memory result (defined.links_at names.now (view opening.now)) }
{
    match field_list(opening, "links") {
        Field::Absent => Ok(Items::new(alloc)),
        Field::WrongKind => Err(wrong(alloc, "opening.links")),
        Field::Here(list) => all_links(alloc, names, list),
    }
}

#[tactic(auto, using(cni_json::proofs::Steps::steps))]
fn all_links(alloc: Global, names: &Names, list: &[Value]) -> Result<Items<Link>, PodError>
    ensures { Gives is_out_of_memory result
        (each_after (defined.next_link names.now) [] (items_view list.now)) }
{
    let mut links = PlacedLinks::new(alloc);
    for member in list {
        enter_next(alloc, names, &mut links, member)?;
    }
    Ok(links.into_items())
}

fn enter_next(
    alloc: Global,
    names: &Names,
    links: &mut PlacedLinks,
    member: &Value,
) -> Result<(), PodError>
    ensures { GivesAs is_out_of_memory (λ _. links.new) result
        (with_next links.old (defined.next_link names.now links.old (view member.now))) }
{
    let index = links.as_slice().len();
    enter_link(alloc, names, links, index, member)
}

#[tactic(auto, using(cni_json::proofs::Steps::steps), unfolding(crate::specs::Links::link_at))]
fn enter_link(
    alloc: Global,
    names: &Names,
    links: &mut PlacedLinks,
    index: usize,
    member: &Value,
) -> Result<(), PodError>
    ensures { GivesAs is_out_of_memory (λ _. links.new) result
        (with_next links.old (defined.link_at names.now links.old index (view member.now))) }
{
    need_object(member, || wrong_link(alloc, index))?;
    let name = name(alloc, index, member)?;
    let kind = kind(alloc, index, member)?;
    let ns = ns(alloc, names, index, member)?;
    let mtu = mtu(alloc, index, member)?;
    enter_or_refuse(alloc, links, index, outside_link(ns, name, kind, mtu))?;
    Ok(())
}

/// A link that was made outside.
fn outside_link(ns: Text, name: Text, kind: LinkKind, mtu: u32) -> Link
    ensures { result ≡ defined.outside_link ns name kind mtu }
{
    let mac = link_mac(name.as_str());
    Link::new(LinkKey { ns, name }, kind, mac, mtu, Tag::Outside)
}

#[tactic(auto, using(cni_json::proofs::Steps::steps), unfolding(crate::specs::Links::name_at))]
fn name(alloc: Global, index: usize, member: &Value) -> Result<Text, PodError>
    ensures { Gives is_out_of_memory result (defined.name_at index (view member.now)) }
{
    match field_str(member, "name") {
        Field::Here(name) if is_interface_name(name) => Ok(Text::of(alloc, name)?),
        Field::Here(_) | Field::Absent | Field::WrongKind => Err(wrong_link(alloc, index)),
    }
}

#[tactic(auto, using(cni_json::proofs::Steps::steps), unfolding(crate::specs::Links::kind_at))]
fn kind(alloc: Global, index: usize, member: &Value) -> Result<LinkKind, PodError>
    ensures { Gives is_out_of_memory result (defined.kind_at index (view member.now)) }
{
    match field_str(member, "kind") {
        Field::Absent | Field::WrongKind => Err(wrong_link(alloc, index)),
        Field::Here(found) => kind_named(found).ok_or_else(|| wrong_link(alloc, index)),
    }
}

fn kind_named(text: &str) -> Option<LinkKind>
    ensures { result ≡ defined.kind_named text.now }
{
    KINDS
        .iter()
        .copied()
        .find(|kind| text == link_kind_text(*kind))
}

#[tactic(auto, using(cni_json::proofs::Steps::steps), unfolding(crate::specs::Links::ns_at))]
fn ns(alloc: Global, names: &Names, index: usize, member: &Value) -> Result<Text, PodError>
    ensures { Gives is_out_of_memory result (defined.ns_at names.now index (view member.now)) }
{
    match field_str(member, "ns") {
        Field::Absent => Ok(Text::of(alloc, "")?),
        Field::WrongKind => Err(wrong_link(alloc, index)),
        Field::Here(ns) => place_named(alloc, names, index, ns),
    }
}

#[tactic(auto, using(cni_json::proofs::Steps::steps))]
fn place_named(alloc: Global, names: &Names, index: usize, ns: &str) -> Result<Text, PodError>
    ensures { Gives is_out_of_memory result (defined.place_named names.now index ns.now) }
{
    let ns = Text::of(alloc, ns)?;
    if is_place(names, &ns)? {
        Ok(ns)
    } else {
        Err(wrong_link(alloc, index))
    }
}

/// Whether the text is the host's, or the name of one of the namespaces.
fn is_place(names: &Names, ns: &Text) -> Result<bool, NoMemory>
    ensures { IfOk result (λ found. found ≡ defined.is_place names.now ns.now) }
{
    if is_host_ns(ns.as_str()) {
        return Ok(true);
    }
    names.contains(ns)
}

#[tactic(auto, using(cni_json::proofs::Steps::steps), unfolding(crate::specs::Links::mtu_at))]
fn mtu(alloc: Global, index: usize, member: &Value) -> Result<u32, PodError>
    ensures { Gives is_out_of_memory result (defined.mtu_at index (view member.now)) }
{
    match field_u64(member, "mtu") {
        Field::Absent => Ok(DEFAULT_MTU),
        Field::Here(number) if is_mtu(number) => Ok(number as u32),
        Field::Here(_) | Field::WrongKind => Err(wrong_link(alloc, index)),
    }
}

/// Enters the link where its place is not taken.
#[tactic(auto, using(cni_json::proofs::Steps::steps), unfolding(crate::specs::Links::not_taken))]
fn enter_or_refuse(
    alloc: Global,
    links: &mut PlacedLinks,
    index: usize,
    link: Link,
) -> Result<(), PodError>
    ensures outcome { Gives is_out_of_memory result (defined.not_taken links.old index link.ns link.name) }
    ensures entered { OnOk result (links.new ≡ links.old ++ link ∷ []) }
{
    if links.enter(link)? {
        Ok(())
    } else {
        Err(wrong_link(alloc, index))
    }
}

fn wrong_link(alloc: Global, index: usize) -> PodError
    ensures { TellsAs is_out_of_memory result (refusal.Shape (member_path (codes "opening.links") index)) }
{
    wrong_member(alloc, "opening.links", index)
}
