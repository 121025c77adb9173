//! A new link, and the values of a link as the call LinkSet gives them.

ghost use Rattle.std.specs.Prelude.{◌≡◌, map};
ghost use Rattle.kernel_types.specs.Apply.Calls.{is_own_at, set_link, with_values};
ghost use Rattle.kernel_types.specs.Terms.{new_link};

use crate::object::{Att, Link, LinkKey, LinkKind, Tag};
use crate::terms::is_at;
use cni_addr::Mac;

/// What the call LinkSet gives a link: each value that is there, and each mode whose flag is set. All else stays.
#[derive(Clone, Copy)]
pub struct LinkValues {
    pub mac: Option<Mac>,
    /// In bytes.
    pub mtu: Option<u32>,
    /// In packets.
    pub tx_qlen: Option<u32>,
    pub promisc: bool,
    pub allmulti: bool,
}

impl Link {
    /// A link as Linux makes a new one: under no master, without a peer, in no mode, with a queue of 1000 packets.
    /// Takes no memory.
    pub fn new(key: LinkKey, kind: LinkKind, mac: Mac, mtu: u32, tag: Tag) -> Link
        ensures { result ≡ new_link key kind mac mtu tag }
    {
        Link {
            ns: key.ns,
            name: key.name,
            kind,
            master: None,
            peer: None,
            mac,
            mtu,
            hairpin: false,
            promisc: false,
            allmulti: false,
            tx_qlen: 1000,
            tag,
        }
    }

    /// Whether the link is the attachment's and stands at the place.
    pub fn is_own_at(&self, att: &Att, key: &LinkKey) -> bool
        ensures { result ≡ is_own_at att.now key.now self.now }
    {
        is_at(key.ns.as_str(), key.name.as_str(), self) && self.tag.is_own(att)
    }

    /// Gives the link the values.
    pub fn set_values(&mut self, values: LinkValues)
        ensures { self.new ≡ with_values values.mac values.mtu values.tx_qlen values.promisc values.allmulti self.old }
    {
        self.mac = values.mac.unwrap_or(self.mac);
        self.mtu = values.mtu.unwrap_or(self.mtu);
        self.tx_qlen = values.tx_qlen.unwrap_or(self.tx_qlen);
        self.promisc = values.promisc || self.promisc;
        self.allmulti = values.allmulti || self.allmulti;
    }

    fn set_if_own(&mut self, att: &Att, key: &LinkKey, values: LinkValues)
        ensures { self.new ≡ set_link att.now key.now
            values.mac values.mtu values.tx_qlen values.promisc values.allmulti self.old }
    {
        if self.is_own_at(att, key) {
            self.set_values(values);
        }
    }
}

/// Gives the attachment's link at the place the values. Linear in the links.
pub fn set_links(links: &mut Vec<Link>, att: &Att, key: &LinkKey, values: LinkValues)
    ensures { links.new.items ≡ map (set_link att.now key.now
        values.mac values.mtu values.tx_qlen values.promisc values.allmulti) links.old.items }
{
    for link in links.iter_mut() {
        link.set_if_own(att, key, values);
    }
}
