//! What is asked of the lists of a host.

ghost use Rattle.std.specs.Prelude.{◌≡◌, IfOk, find};
ghost use Rattle.std.specs.Option.{option_copied, option_map};
ghost use Rattle.kernel_types.specs.Apply.Calls.{is_free_master, has_free_master};
ghost use Rattle.kernel_types.specs.Terms.{has_link_in, has_ns_in, is_host_or_ns, link_in, is_host_link};
ghost use Rattle.kernel_types.specs.Terms.{is_host_bridge, has_bridge_in, is_link_of};

use crate::lists::Tagged;
use cni_addr::{Duplicate, NoMemory, Text};
use kernel_types::terms::{is_at, is_host_ns};
use kernel_types::{Link, NsObj, Tag};

/// Whether a namespace has this name.
pub(crate) fn has_ns_in(namespaces: &[NsObj], name: &Text) -> bool
    ensures { result ≡ has_ns_in namespaces.now name.now }
{
    namespaces.iter().any(|n| n.name == *name)
}

/// Whether this is the host's own namespace, which is always there, or a namespace has this name.
pub(crate) fn is_host_or_ns(namespaces: &[NsObj], ns: &Text) -> bool
    ensures { result ≡ is_host_or_ns namespaces.now ns.now }
{
    is_host_ns(ns.as_str()) || has_ns_in(namespaces, ns)
}

/// The link at this place.
pub(crate) fn link_in<'a>(links: &'a [Link], ns: &Text, name: &Text) -> Option<&'a Link>
    ensures { option_copied result ≡ link_in links.now ns.now name.now }
{
    links.iter().find(|l| is_at(ns.as_str(), name.as_str(), l))
}

/// Whether the link stands in the host's own namespace under this name.
pub(crate) fn is_host_link(name: &Text, link: &Link) -> bool
    ensures { result ≡ is_host_link name.now link.now }
{
    is_host_ns(link.ns.as_str()) && link.name == *name
}

/// The host's link of this name.
pub(crate) fn host_link<'a>(links: &'a [Link], name: &Text) -> Option<&'a Link>
    ensures { option_copied result ≡ find (is_host_link name.now) links.now }
{
    links.iter().find(|l| is_host_link(name, l))
}

/// Whether the link is a bridge of the host of this name.
pub(crate) fn is_host_bridge(name: &Text, link: &Link) -> bool
    ensures { result ≡ is_host_bridge name.now link.now }
{
    is_host_link(name, link) && link.kind.is_bridge()
}

/// Whether a bridge of the host has this name.
pub(crate) fn has_bridge_in(links: &[Link], name: &Text) -> bool
    ensures { result ≡ has_bridge_in links.now name.now }
{
    links.iter().any(|l| is_host_bridge(name, l))
}

fn is_free_master(name: &Text, link: &Link) -> bool
    ensures { result ≡ is_free_master name.now link.now }
{
    is_host_link(name, link) && !link.tag.is_owned()
}

/// Whether a link of the host that no attachment owns has this name.
pub(crate) fn has_free_master(links: &[Link], name: &Text) -> bool
    ensures { result ≡ has_free_master links.now name.now }
{
    links.iter().any(|l| is_free_master(name, l))
}

/// Whether a link of this tag stands at this place.
pub(crate) fn has_link_in(links: &[Link], ns: &Text, name: &Text, tag: &Tag) -> bool
    ensures { result ≡ has_link_in links.now ns.now name.now tag.now }
{
    links.iter().any(|l| is_link_of(ns, name, tag, l))
}

fn is_link_of(ns: &Text, name: &Text, tag: &Tag, link: &Link) -> bool
    ensures { result ≡ is_link_of ns.now name.now tag.now link.now }
{
    is_at(ns.as_str(), name.as_str(), link) && link.tag == *tag
}

/// A copy of the tag of what was found.
pub(crate) fn copy_tag<T: Tagged>(found: Option<&T>) -> Result<Option<Tag>, NoMemory>
    ensures { IfOk result (λ tag. tag ≡ option_map (λ x. T.tag_of x) (option_copied found.entry)) }
{
    match found {
        Some(object) => Ok(Some(object.tag().copy()?)),
        None => Ok(None),
    }
}
