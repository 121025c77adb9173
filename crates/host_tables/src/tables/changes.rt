//! Changes in place.

ghost use Rattle.std.specs.Prelude.{◌≡◌};
ghost use Rattle.std.specs.List.{list_any};
ghost use Rattle.kernel_types.specs.Apply.Calls.{is_own_at, link_set_of};
ghost use Rattle.kernel_types.specs.Sound.{IsSound};

use super::Tables;
use cni_addr::Mac;
use kernel_types::{Att, Link, LinkKey, LinkValues, Reply};
use object_tables::Change;

/// The values for a link.
#[derive(Drop)]
struct Values {
    values: LinkValues,
}

impl Change<Link> for Values {
    ghost use Rattle.kernel_types.specs.Apply.Calls.{with_values};

    ghost changed = { λ v link. with_values v.values.mac v.values.mtu v.values.tx_qlen
        v.values.promisc v.values.allmulti link };

    fn change(&self, link: &mut Link) {
        let values = self.values;
        link.mac = values.mac.unwrap_or(link.mac);
        link.mtu = values.mtu.unwrap_or(link.mtu);
        link.tx_qlen = values.tx_qlen.unwrap_or(link.tx_qlen);
        link.promisc = values.promisc || link.promisc;
        link.allmulti = values.allmulti || link.allmulti;
    }
}

impl Tables {
    /// Whether the attachment has a link at the place.
    fn has_own_at(&self, att: &Att, key: &LinkKey) -> bool
        requires { IsSound self.now }
        ensures { result ≡ list_any (is_own_at att.now key.now) self.now.links }
    {
        match self.link_at(key) {
            Some(link) => link.tag.is_own(att),
            None => false,
        }
    }

    /// Sets what is given of the values of the attachment's link at a place.
    #[inline(never)]
    pub fn link_set(
        &mut self,
        att: &Att,
        key: &LinkKey,
        mac: Option<Mac>,
        mtu: Option<u32>,
        tx_qlen: Option<u32>,
        promisc: bool,
        allmulti: bool,
    ) -> Reply
        requires { IsSound self.old }
        ensures { (self.new, result) ≡ link_set_of self.old att.now key.now mac mtu tx_qlen promisc allmulti }
    {
        if !self.has_own_at(att, key) {
            return Reply::NoLink;
        }
        let values = LinkValues {
            mac,
            mtu,
            tx_qlen,
            promisc,
            allmulti,
        };
        self.links.update(key, &Values { values });
        Reply::Done
    }
}
