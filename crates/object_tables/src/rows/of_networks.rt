//! The rows that stand in no namespace.

use super::{network_named, owner_named};
use crate::row::Row;
use cni_addr::{Duplicate, NoMemory, RefCounted, Text};
use kernel_types::{Att, CachedObj, Last, Lease, PoolKey, Rule, Table};

impl Row<RefCounted<Rule>, Text, Att, Table> for RefCounted<Rule> {
    ghost use Rattle.std.specs.Prelude.{Some, None};
    ghost use Rattle.object_tables.specs.Rows.{owner_named, network_named};

    ghost key_of = { λ r. Some r };

    ghost alias_of = { λ r. None };

    ghost owner_of = { λ r. owner_named r.tag };

    ghost network_of = { λ r. network_named r.tag };

    ghost site_of = { λ r. Some r.table };

    fn key(&self) -> Result<Option<RefCounted<Rule>>, NoMemory> {
        Ok(Some(self.copy()?))
    }

    fn alias(&self) -> Result<Option<Text>, NoMemory> {
        Ok(None)
    }

    fn owner(&self) -> Option<&Att> {
        owner_named(&self.get().tag)
    }

    fn network(&self) -> Option<&Text> {
        network_named(&self.get().tag)
    }

    fn site(&self) -> Result<Option<Table>, NoMemory> {
        Ok(Some(self.get().table))
    }

    fn has_key(&self, key: &RefCounted<Rule>) -> bool {
        self == key
    }

    fn has_alias(&self, _alias: &Text) -> bool {
        false
    }

    fn is_at(&self, site: &Table) -> bool {
        self.get().table == *site
    }
}

impl Row<Lease, Text, Att, Text> for Lease {
    ghost use Rattle.std.specs.Prelude.{Some, None};
    ghost use Rattle.object_tables.specs.Rows.{owner_named, network_named};

    ghost key_of = { λ l. Some l };

    ghost alias_of = { λ l. None };

    ghost owner_of = { λ l. owner_named l.tag };

    ghost network_of = { λ l. network_named l.tag };

    ghost site_of = { λ l. None };

    fn key(&self) -> Result<Option<Lease>, NoMemory> {
        Ok(Some(self.copy()?))
    }

    fn alias(&self) -> Result<Option<Text>, NoMemory> {
        Ok(None)
    }

    fn owner(&self) -> Option<&Att> {
        owner_named(&self.tag)
    }

    fn network(&self) -> Option<&Text> {
        network_named(&self.tag)
    }

    fn site(&self) -> Result<Option<Text>, NoMemory> {
        Ok(None)
    }

    fn has_key(&self, key: &Lease) -> bool {
        self == key
    }

    fn has_alias(&self, _alias: &Text) -> bool {
        false
    }

    fn is_at(&self, _site: &Text) -> bool {
        false
    }
}

impl Row<Att, Text, Att, Text> for CachedObj {
    ghost use Rattle.std.specs.Prelude.{None};
    ghost use Rattle.object_tables.specs.Rows.{owner_named, network_named};

    ghost key_of = { λ c. owner_named c.tag };

    ghost alias_of = { λ c. None };

    ghost owner_of = { λ c. owner_named c.tag };

    ghost network_of = { λ c. network_named c.tag };

    ghost site_of = { λ c. None };

    fn key(&self) -> Result<Option<Att>, NoMemory> {
        match owner_named(&self.tag) {
            Some(att) => Ok(Some(att.copy()?)),
            None => Ok(None),
        }
    }

    fn alias(&self) -> Result<Option<Text>, NoMemory> {
        Ok(None)
    }

    fn owner(&self) -> Option<&Att> {
        owner_named(&self.tag)
    }

    fn network(&self) -> Option<&Text> {
        network_named(&self.tag)
    }

    fn site(&self) -> Result<Option<Text>, NoMemory> {
        Ok(None)
    }

    fn has_key(&self, key: &Att) -> bool {
        self.tag.is_own(key)
    }

    fn has_alias(&self, _alias: &Text) -> bool {
        false
    }

    fn is_at(&self, _site: &Text) -> bool {
        false
    }
}

impl Row<PoolKey, Text, Att, Text> for Last {
    ghost use Rattle.std.specs.Prelude.{Some, None};

    ghost key_of = { λ l. Some (record { network = l.network; set = l.set }) };

    ghost alias_of = { λ l. None };

    ghost owner_of = { λ l. None };

    ghost network_of = { λ l. None };

    ghost site_of = { λ l. None };

    fn key(&self) -> Result<Option<PoolKey>, NoMemory> {
        Ok(Some(PoolKey {
            network: self.network.copy()?,
            set: self.set,
        }))
    }

    fn alias(&self) -> Result<Option<Text>, NoMemory> {
        Ok(None)
    }

    fn owner(&self) -> Option<&Att> {
        None
    }

    fn network(&self) -> Option<&Text> {
        None
    }

    fn site(&self) -> Result<Option<Text>, NoMemory> {
        Ok(None)
    }

    fn has_key(&self, key: &PoolKey) -> bool {
        self.network == key.network && self.set == key.set
    }

    fn has_alias(&self, _alias: &Text) -> bool {
        false
    }

    fn is_at(&self, _site: &Text) -> bool {
        false
    }
}
