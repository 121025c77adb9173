//! The rows that stand in namespaces.

use super::{inner_ns, is_inner_ns, is_unowned_on, network_named, owner_named, unowned_on};
use crate::row::Row;
use cni_addr::{Duplicate, NoMemory, Text};
use kernel_types::terms::is_host_ns;
use kernel_types::{
    AddrKey, AddrObj, Att, Link, LinkKey, NsObj, RouteKey, RouteObj, Setting, SettingKey,
};

impl Row<Text, Text, Att, Text> for NsObj {
    ghost use Rattle.std.specs.Prelude.{Some, None};
    ghost use Rattle.object_tables.specs.Rows.{owner_named};

    ghost key_of = { λ n. Some n.name };

    ghost alias_of = { λ n. None };

    ghost owner_of = { λ n. owner_named n.tag };

    ghost network_of = { λ n. None };

    ghost site_of = { λ n. None };

    fn key(&self) -> Result<Option<Text>, NoMemory> {
        Ok(Some(self.name.copy()?))
    }

    fn alias(&self) -> Result<Option<Text>, NoMemory> {
        Ok(None)
    }

    fn owner(&self) -> Option<&Att> {
        owner_named(&self.tag)
    }

    fn network(&self) -> Option<&Text> {
        None
    }

    fn site(&self) -> Result<Option<Text>, NoMemory> {
        Ok(None)
    }

    fn has_key(&self, key: &Text) -> bool {
        self.name == *key
    }

    fn has_alias(&self, _alias: &Text) -> bool {
        false
    }

    fn is_at(&self, _site: &Text) -> bool {
        false
    }
}

impl Row<LinkKey, Text, Att, Text> for Link {
    ghost use Rattle.std.specs.Prelude.{Some};
    ghost use Rattle.object_tables.specs.Rows.{owner_named, network_named, host_name, inner_ns};

    ghost key_of = { λ l. Some (record { ns = l.ns; name = l.name }) };

    ghost alias_of = { λ l. host_name l };

    ghost owner_of = { λ l. owner_named l.tag };

    ghost network_of = { λ l. network_named l.tag };

    ghost site_of = { λ l. inner_ns l.ns };

    fn key(&self) -> Result<Option<LinkKey>, NoMemory> {
        Ok(Some(LinkKey {
            ns: self.ns.copy()?,
            name: self.name.copy()?,
        }))
    }

    fn alias(&self) -> Result<Option<Text>, NoMemory> {
        if is_host_ns(self.ns.as_str()) {
            Ok(Some(self.name.copy()?))
        } else {
            Ok(None)
        }
    }

    fn owner(&self) -> Option<&Att> {
        owner_named(&self.tag)
    }

    fn network(&self) -> Option<&Text> {
        network_named(&self.tag)
    }

    fn site(&self) -> Result<Option<Text>, NoMemory> {
        inner_ns(&self.ns)
    }

    fn has_key(&self, key: &LinkKey) -> bool {
        self.ns == key.ns && self.name == key.name
    }

    fn has_alias(&self, alias: &Text) -> bool {
        is_host_ns(self.ns.as_str()) && self.name == *alias
    }

    fn is_at(&self, site: &Text) -> bool {
        is_inner_ns(&self.ns, site)
    }
}

impl Row<AddrKey, AddrObj, Att, LinkKey> for AddrObj {
    ghost use Rattle.std.specs.Prelude.{Some, None};
    ghost use Rattle.object_tables.specs.Rows.{owner_named, unowned_on};

    ghost key_of = { λ a. Some (record { ns = a.ns; link = a.link; addr = a.cidr.addr }) };

    ghost alias_of = { λ a. Some a };

    ghost owner_of = { λ a. owner_named a.tag };

    ghost network_of = { λ a. None };

    ghost site_of = { λ a. unowned_on a.tag a.ns a.link };

    fn key(&self) -> Result<Option<AddrKey>, NoMemory> {
        Ok(Some(AddrKey::of(self)?))
    }

    fn alias(&self) -> Result<Option<AddrObj>, NoMemory> {
        Ok(Some(self.copy()?))
    }

    fn owner(&self) -> Option<&Att> {
        owner_named(&self.tag)
    }

    fn network(&self) -> Option<&Text> {
        None
    }

    fn site(&self) -> Result<Option<LinkKey>, NoMemory> {
        unowned_on(&self.tag, &self.ns, &self.link)
    }

    fn has_key(&self, key: &AddrKey) -> bool {
        self.ns == key.ns && self.link == key.link && self.cidr.addr == key.addr
    }

    fn has_alias(&self, alias: &AddrObj) -> bool {
        self == alias
    }

    fn is_at(&self, site: &LinkKey) -> bool {
        is_unowned_on(&self.tag, &self.ns, &self.link, site)
    }
}

impl Row<RouteKey, RouteObj, Att, LinkKey> for RouteObj {
    ghost use Rattle.std.specs.Prelude.{Some, None};
    ghost use Rattle.object_tables.specs.Rows.{owner_named, unowned_on};

    ghost key_of = { λ r. Some (record { ns = r.ns; dst = r.dst; link = r.link }) };

    ghost alias_of = { λ r. Some r };

    ghost owner_of = { λ r. owner_named r.tag };

    ghost network_of = { λ r. None };

    ghost site_of = { λ r. unowned_on r.tag r.ns r.link };

    fn key(&self) -> Result<Option<RouteKey>, NoMemory> {
        Ok(Some(RouteKey::of(self)?))
    }

    fn alias(&self) -> Result<Option<RouteObj>, NoMemory> {
        Ok(Some(self.copy()?))
    }

    fn owner(&self) -> Option<&Att> {
        owner_named(&self.tag)
    }

    fn network(&self) -> Option<&Text> {
        None
    }

    fn site(&self) -> Result<Option<LinkKey>, NoMemory> {
        unowned_on(&self.tag, &self.ns, &self.link)
    }

    fn has_key(&self, key: &RouteKey) -> bool {
        self.ns == key.ns && self.dst == key.dst && self.link == key.link
    }

    fn has_alias(&self, alias: &RouteObj) -> bool {
        self == alias
    }

    fn is_at(&self, site: &LinkKey) -> bool {
        is_unowned_on(&self.tag, &self.ns, &self.link, site)
    }
}

impl Row<SettingKey, Setting, Att, Text> for Setting {
    ghost use Rattle.std.specs.Prelude.{Some};
    ghost use Rattle.object_tables.specs.Rows.{owner_named, network_named, inner_ns};

    ghost key_of = { λ s. Some (record { ns = s.ns; key = s.key }) };

    ghost alias_of = { λ s. Some s };

    ghost owner_of = { λ s. owner_named s.tag };

    ghost network_of = { λ s. network_named s.tag };

    ghost site_of = { λ s. inner_ns s.ns };

    fn key(&self) -> Result<Option<SettingKey>, NoMemory> {
        Ok(Some(SettingKey::of(self)?))
    }

    fn alias(&self) -> Result<Option<Setting>, NoMemory> {
        Ok(Some(self.copy()?))
    }

    fn owner(&self) -> Option<&Att> {
        owner_named(&self.tag)
    }

    fn network(&self) -> Option<&Text> {
        network_named(&self.tag)
    }

    fn site(&self) -> Result<Option<Text>, NoMemory> {
        inner_ns(&self.ns)
    }

    fn has_key(&self, key: &SettingKey) -> bool {
        self.ns == key.ns && self.key == key.key
    }

    fn has_alias(&self, alias: &Setting) -> bool {
        self == alias
    }

    fn is_at(&self, site: &Text) -> bool {
        is_inner_ns(&self.ns, site)
    }
}
