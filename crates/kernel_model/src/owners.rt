//! The attachments that own objects of a list.

ghost use Rattle.std.specs.Prelude.{◌≡◌, List, [], ◌∷◌, ◌++◌, map, IfOk, OnOk};
ghost use Rattle.std.specs.List.{list_any, filter_map};
ghost use Rattle.std.specs.Option.{option_copied};
ghost use Rattle.kernel_types.specs.Equal.{att_eq};
ghost use Rattle.cni_addr.specs.Lists.{each_key_once, push_unless_there};
ghost use Rattle.kernel_types.specs.Apply.Calls.{owner_in};
ghost use Rattle.kernel_types.specs.declared.object.Tag.{Tag};
ghost use Rattle.kernel_types.specs.declared.object.Att.{Att};

use crate::lists::Tagged;
use cni_addr::{Duplicate, Items, NoMemory, Text};
use kernel_types::{Att, Tag};
use std::alloc::Global;

fn has_att(atts: &[Att], att: &Att) -> bool
    ensures { result ≡ list_any (att_eq att.now) atts.now }
{
    atts.iter().any(|a| att == a)
}

/// Adds an attachment, unless it is there.
fn add_owner(owners: &mut Vec<Att>, att: &Att) -> Result<(), NoMemory>
    ensures { OnOk result (owners.new.items ≡ push_unless_there att_eq owners.old.items att.now) }
{
    if !has_att(owners, att) {
        owners.push(att.copy()?)?;
    }
    Ok(())
}

/// The attachment of the network that the tag names.
fn owner_in<'a>(network: &Text, tag: &'a Tag) -> Option<&'a Att>
    ensures { option_copied result ≡ owner_in network.now tag.now }
{
    match tag {
        Tag::Own(att) if att.network == *network => Some(att),
        _ => None,
    }
}

/// Adds the attachment that the tag names, if it is of the network.
fn add_owner_in(owners: &mut Vec<Att>, network: &Text, tag: &Tag) -> Result<(), NoMemory>
    ensures { OnOk result ((tags : List Tag)
        → owners.old.items ≡ each_key_once att_eq (filter_map (owner_in network.now) tags)
        → owners.new.items ≡ each_key_once att_eq (filter_map (owner_in network.now) (tags ++ tag.now ∷ []))) }
{
    if let Some(att) = owner_in(network, tag) {
        add_owner(owners, att)?;
    }
    Ok(())
}

/// The attachments of the network that own some of the objects, each once, by first occurrence. Linear in the objects
/// times their owners.
pub(crate) fn owners_among<T: Tagged>(
    alloc: Global,
    objects: &[T],
    network: &Text,
) -> Result<Items<Att>, NoMemory>
    ensures { IfOk result (λ owners. owners
        ≡ each_key_once att_eq (filter_map (owner_in network.now) (map (λ x. T.tag_of x) objects.now))) }
{
    let mut owners = Vec::new(alloc);
    for object in objects {
        add_owner_in(&mut owners, network, object.tag())?;
    }
    Ok(Items::of_vec(owners))
}
