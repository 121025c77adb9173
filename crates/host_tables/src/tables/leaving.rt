//! Links that leave the host, with the addresses and routes on them.

ghost use Rattle.std.specs.Prelude.{◌≡◌, ◌&&◌, not, filter};
ghost use Rattle.kernel_types.specs.Sound.{IsSound};
ghost use Rattle.kernel_types.specs.Terms.{is_own};
ghost use Rattle.kernel_types.specs.Apply.Calls.{drop_link_of, link_del_of};
ghost use Rattle.host_tables.specs.Leaving.{has_end_at, is_peer, is_unowned_on, left_with};

use super::Tables;
use kernel_types::terms::{is_at, is_peer_at};
use kernel_types::{AddrObj, Att, Link, LinkKey, Reply, RouteObj, Tag};
use object_tables::Test;

/// What lies on a link or on its peer.
#[derive(Clone, Copy)]
struct OnEnds<'a> {
    link: &'a Link,
}

impl Test<AddrObj> for OnEnds<'_> {
    ghost use Rattle.host_tables.specs.Leaving.{has_end_at};

    ghost passes = { λ ends address. has_end_at ends.link.now address.ns address.link };

    fn passes(&self, address: &AddrObj) -> bool {
        is_at(address.ns.as_str(), address.link.as_str(), self.link)
            || is_peer_at(address.ns.as_str(), address.link.as_str(), &self.link.peer)
    }
}

impl Test<RouteObj> for OnEnds<'_> {
    ghost use Rattle.host_tables.specs.Leaving.{has_end_at};

    ghost passes = { λ ends route. has_end_at ends.link.now route.ns route.link };

    fn passes(&self, route: &RouteObj) -> bool {
        is_at(route.ns.as_str(), route.link.as_str(), self.link)
            || is_peer_at(route.ns.as_str(), route.link.as_str(), &self.link.peer)
    }
}

impl Tables {
    /// Drops the peer of a link of the attachment, and what of the attachment's is on either.
    fn drop_with_own(&mut self, att: &Att, link: &Link)
        ensures { self.new ≡ record self.old {
          links = filter (λ l. not (is_peer link.now.peer l)) self.old.links;
          addresses = filter (λ a. not (is_own att.now a.tag && has_end_at link.now a.ns a.link)) self.old.addresses;
          routes = filter (λ r. not (is_own att.now r.tag && has_end_at link.now r.ns r.link)) self.old.routes;
        } }
    {
        let ends = OnEnds { link };
        self.addresses.remove_owned(att, &ends);
        self.routes.remove_owned(att, &ends);
        if let Some(peer) = &link.peer {
            self.links.take(peer);
        }
    }

    /// In a sound host the link goes with its peer alone, and what is on them is the attachment's.
    #[inline(never)]
    pub fn link_del(&mut self, att: &Att) -> Reply
        requires { IsSound self.old }
        ensures { (self.new, result) ≡ link_del_of self.old att.now }
    {
        match self.links.take_first_owned(att) {
            Some(link) => {
                self.drop_with_own(att, &link);
                Reply::Gone(true)
            }
            None => Reply::Gone(false),
        }
    }

    /// Drops what is on a link that no attachment owns, and has no peer.
    fn drop_on_unowned(&mut self, link: Link)
        ensures { self.new ≡ record self.old {
          addresses = filter (λ a. not (is_unowned_on link a.tag a.ns a.link)) self.old.addresses;
          routes = filter (λ r. not (is_unowned_on link r.tag r.ns r.link)) self.old.routes;
        } }
    {
        let key = LinkKey {
            ns: link.ns,
            name: link.name,
        };
        self.addresses.remove_at(&key);
        self.routes.remove_at(&key);
    }

    /// Drops what goes with a link that was taken out. In a sound host what is on an attachment's link, or on its peer,
    /// is the attachment's, and no other link has a peer.
    pub(super) fn drop_with(&mut self, link: Link)
        ensures { self.new ≡ left_with link self.old }
    {
        match &link.tag {
            Tag::Own(att) => self.drop_with_own(att, &link),
            Tag::Outside | Tag::Base => self.drop_on_unowned(link),
        }
    }

    pub(super) fn drop_link(&mut self, key: &LinkKey) -> Reply
        requires { IsSound self.old }
        ensures { (self.new, result) ≡ drop_link_of self.old key.now }
    {
        if !self.has_named_ns(&key.ns) {
            return Reply::NoNs;
        }
        let Some(link) = self.links.take(key) else {
            return Reply::Gone(false);
        };
        self.drop_with(link);
        Reply::Gone(true)
    }
}
