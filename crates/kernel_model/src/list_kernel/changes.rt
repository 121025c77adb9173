//! Changes in place.

ghost use Rattle.std.specs.Prelude.{◌≡◌};
ghost use Rattle.std.specs.List.{list_any};
ghost use Rattle.kernel_types.specs.Apply.Calls.{is_own_at, link_set_of};

use super::HostLists;
use cni_addr::Mac;
use kernel_types::{Att, Link, LinkKey, LinkValues, Reply, set_links};

/// Whether the attachment has a link at the place.
fn has_own_at(links: &[Link], att: &Att, key: &LinkKey) -> bool
    ensures { result ≡ list_any (is_own_at att.now key.now) links.now }
{
    links.iter().any(|l| l.is_own_at(att, key))
}

impl HostLists {
    pub(crate) fn link_set(
        &mut self,
        att: &Att,
        key: &LinkKey,
        mac: Option<Mac>,
        mtu: Option<u32>,
        tx_qlen: Option<u32>,
        promisc: bool,
        allmulti: bool,
    ) -> Reply
        ensures { (self.new, result) ≡ link_set_of self.old att.now key.now mac mtu tx_qlen promisc allmulti }
    {
        if !has_own_at(&self.links, att, key) {
            return Reply::NoLink;
        }
        let values = LinkValues {
            mac,
            mtu,
            tx_qlen,
            promisc,
            allmulti,
        };
        set_links(&mut self.links, att, key, values);
        Reply::Done
    }
}
