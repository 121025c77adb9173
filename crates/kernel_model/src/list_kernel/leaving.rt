//! Links that leave the host, with the addresses and routes on them.

ghost use Rattle.std.specs.Prelude.{◌≡◌, ◌&&◌, not, filter, find, Some};
ghost use Rattle.std.specs.List.{list_any};
ghost use Rattle.kernel_types.specs.Terms.{is_own};
ghost use Rattle.kernel_types.specs.Apply.Calls.{goes_with, without_links, link_del_of};
ghost use Rattle.kernel_types.specs.declared.object.Link.{Link};

use super::HostLists;
use crate::lists::{find_own, take_own};
use cni_addr::Text;
use kernel_types::terms::is_at;
use kernel_types::{AddrObj, Att, Link, Reply, RouteObj};

/// A test of which links leave.
pub(super) trait Leaving {
    ghost use Rattle.std.specs.Prelude.{Bool};
    ghost use Rattle.kernel_types.specs.declared.object.Link.{Link};

    ghost leaving: { Self → Link → Bool };

    fn is_leaving(&self, link: &Link) -> bool
        ensures { result ≡ leaving self.now link.now };
}

/// The link at a place, and its peer.
#[derive(Clone, Copy)]
pub(super) struct AtPlace<'a> {
    pub(super) ns: &'a Text,
    pub(super) name: &'a Text,
}

impl Leaving for AtPlace<'_> {
    ghost use Rattle.kernel_types.specs.Apply.Calls.{goes_with};

    ghost leaving = { λ place. goes_with place.ns.now place.name.now };

    fn is_leaving(&self, link: &Link) -> bool {
        link.goes_with(self.ns.as_str(), self.name.as_str())
    }
}

/// The links in a namespace, and their peers.
#[derive(Clone, Copy)]
pub(super) struct InNamespace<'a> {
    pub(super) name: &'a Text,
}

impl Leaving for InNamespace<'_> {
    ghost use Rattle.kernel_types.specs.Apply.Calls.{goes_with_ns};

    ghost leaving = { λ ns. goes_with_ns ns.name.now };

    fn is_leaving(&self, link: &Link) -> bool {
        link.goes_with_ns(self.name)
    }
}

/// An object that lies on a link.
trait OnLink {
    ghost use Rattle.std.specs.Prelude.{Bool};
    ghost use Rattle.kernel_types.specs.declared.object.Link.{Link};

    ghost on_link: { Self → Link → Bool };

    fn is_on(&self, link: &Link) -> bool
        ensures { result ≡ on_link self.now link.now };
}

impl OnLink for AddrObj {
    ghost use Rattle.kernel_types.specs.Terms.{is_at};

    ghost on_link = { λ a. is_at a.ns a.link };

    fn is_on(&self, link: &Link) -> bool {
        is_at(self.ns.as_str(), self.link.as_str(), link)
    }
}

impl OnLink for RouteObj {
    ghost use Rattle.kernel_types.specs.Terms.{is_at};

    ghost on_link = { λ r. is_at r.ns r.link };

    fn is_on(&self, link: &Link) -> bool {
        is_at(self.ns.as_str(), self.link.as_str(), link)
    }
}

/// Drops the objects on a link.
fn drop_objects_on<T: OnLink + Drop>(objects: &mut Vec<T>, link: &Link)
    ensures { objects.new.items ≡ filter (λ x. not (T.on_link x link.now)) objects.old.items }
{
    objects.retain(|x| !x.is_on(link));
}

/// Drops the objects on links that leave: a test of each link, and a scan of the objects for each that leaves.
fn drop_objects_on_leaving<T: OnLink + Drop, L: Leaving>(
    objects: &mut Vec<T>,
    links: &[Link],
    leaving: &L,
)
    ensures { objects.new.items
        ≡ filter (λ x. not (list_any (λ l. L.leaving leaving.now l && T.on_link x l) links.now)) objects.old.items }
{
    for link in links {
        if leaving.is_leaving(link) {
            drop_objects_on(objects, link);
        }
    }
}

fn drop_links<L: Leaving>(links: &mut Vec<Link>, leaving: &L)
    ensures { links.new.items ≡ filter (λ l. not (L.leaving leaving.now l)) links.old.items }
{
    links.retain(|l| !leaving.is_leaving(l));
}

/// Drops the first link of the attachment, and its peer. The link is taken out first, since its own place is the
/// test.
fn drop_own(links: &mut Vec<Link>, att: &Att)
    ensures { (link : Link) → find (λ l. is_own att.now l.tag) links.old.items ≡ Some link
        → links.new.items ≡ filter (λ l. not (goes_with link.ns link.name l)) links.old.items }
{
    if let Some(link) = take_own(links, att) {
        let place = AtPlace {
            ns: &link.ns,
            name: &link.name,
        };
        drop_links(links, &place);
    }
}

impl HostLists {
    /// Drops the links that leave, with the addresses and routes on them. Linear in the lists for each link that
    /// leaves.
    pub(super) fn drop_leaving<L: Leaving>(&mut self, leaving: &L)
        ensures { self.new ≡ without_links (L.leaving leaving.now) self.old }
    {
        drop_objects_on_leaving(&mut self.addresses, &self.links, leaving);
        drop_objects_on_leaving(&mut self.routes, &self.links, leaving);
        drop_links(&mut self.links, leaving);
    }

    /// Linear in the lists, since of a sound host the link and its peer alone leave.
    pub(crate) fn link_del(&mut self, att: &Att) -> Reply
        ensures { (self.new, result) ≡ link_del_of self.old att.now }
    {
        match find_own(&self.links, att) {
            Some(link) => {
                let place = AtPlace {
                    ns: &link.ns,
                    name: &link.name,
                };
                drop_objects_on_leaving(&mut self.addresses, &self.links, &place);
                drop_objects_on_leaving(&mut self.routes, &self.links, &place);
                drop_own(&mut self.links, att);
                Reply::Gone(true)
            }
            None => Reply::Gone(false),
        }
    }
}
