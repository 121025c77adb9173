//! The objects of a host as rows of tables.
//!
//! A link of the host's own namespace is found by its name too. An address, a route and a setting are found as a whole
//! too, so that a look-up copies nothing. The site of a link and of a setting is its namespace, unless that is the
//! host's own; that of a rule its table; that of an address and of a route that no attachment owns the link on which it
//! lies. What an attachment owns on a link is led to by its owner.

ghost use Rattle.std.specs.Prelude.{◌≡◌, IfOk};
ghost use Rattle.std.specs.Option.{option_copied};
ghost use Rattle.std.specs.Str.{bytes_eq};
ghost use Rattle.kernel_types.specs.Equal.{key_eq};
ghost use Rattle.object_tables.specs.Rows.{inner_ns, network_named, owner_named, unowned_on};
ghost use Rattle.object_tables.specs.Table.{is_key};

mod in_namespaces;
mod of_networks;

use cni_addr::{Duplicate, NoMemory, Text};
use kernel_types::terms::is_host_ns;
use kernel_types::{Att, LinkKey, Tag};

/// The attachment that a tag names.
fn owner_named(tag: &Tag) -> Option<&Att>
    ensures { option_copied result ≡ owner_named tag.now }
{
    match tag {
        Tag::Own(att) => Some(att),
        Tag::Outside | Tag::Base => None,
    }
}

/// The network of the attachment that a tag names.
fn network_named(tag: &Tag) -> Option<&Text>
    ensures { option_copied result ≡ network_named tag.now }
{
    match tag {
        Tag::Own(att) => Some(&att.network),
        Tag::Outside | Tag::Base => None,
    }
}

/// The namespace, unless it is the host's own.
fn inner_ns(ns: &Text) -> Result<Option<Text>, NoMemory>
    ensures { IfOk result (λ inner. inner ≡ inner_ns ns.now) }
{
    if is_host_ns(ns.as_str()) {
        Ok(None)
    } else {
        Ok(Some(ns.copy()?))
    }
}

fn is_inner_ns(ns: &Text, name: &Text) -> bool
    ensures { result ≡ is_key bytes_eq (inner_ns ns.now) name.now }
{
    !is_host_ns(ns.as_str()) && ns == name
}

/// The link on which something lies, unless an attachment owns that.
fn unowned_on(tag: &Tag, ns: &Text, link: &Text) -> Result<Option<LinkKey>, NoMemory>
    ensures { IfOk result (λ on. on ≡ unowned_on tag.now ns.now link.now) }
{
    match tag {
        Tag::Own(_) => Ok(None),
        Tag::Outside | Tag::Base => Ok(Some(LinkKey {
            ns: ns.copy()?,
            name: link.copy()?,
        })),
    }
}

fn is_unowned_on(tag: &Tag, ns: &Text, link: &Text, key: &LinkKey) -> bool
    ensures { result ≡ is_key key_eq (unowned_on tag.now ns.now link.now) key.now }
{
    !tag.is_owned() && *ns == key.ns && *link == key.name
}
