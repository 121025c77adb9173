//! Leases, cached results and the addresses that were leased last as lines of the dump.

ghost use Rattle.kernel_text.specs.Dump.{lease_data, cached_data, last_data};

use crate::dump::Dumped;
use crate::tags::put_tag;
use cni_addr::NoMemory;
use cni_json::JsonObject;
use cni_result::to_value;
use kernel_types::{CachedObj, Last, Lease};
use serde_json::Value;
use std::alloc::Global;

impl Dumped for Lease {
    ghost shown = { lease_data };

    #[tactic(auto, unfolding(crate::specs::Dump::lease_data))]
    fn dump_value(&self, alloc: Global) -> Result<Value, NoMemory> {
        let mut object = JsonObject::new(alloc);
        object.put_text("kind", "lease")?;
        object.put("address", &self.addr)?;
        object.put("network", &self.network)?;
        put_tag(&mut object, alloc, &self.tag)?;
        Ok(object.into_value())
    }
}

impl Dumped for CachedObj {
    ghost shown = { cached_data };

    #[tactic(auto, unfolding(crate::specs::Dump::cached_data))]
    fn dump_value(&self, alloc: Global) -> Result<Value, NoMemory> {
        let mut object = JsonObject::new(alloc);
        object.put_text("kind", "cached")?;
        let cached = self.cached.get();
        object.put("netns", &cached.netns)?;
        object.put_list_unless_empty("portMappings", cached.mappings.as_slice())?;
        object.put_value("result", to_value(alloc, &cached.result)?)?;
        put_tag(&mut object, alloc, &self.tag)?;
        Ok(object.into_value())
    }
}

impl Dumped for Last {
    ghost shown = { last_data };

    #[tactic(auto, unfolding(crate::specs::Dump::last_data))]
    fn dump_value(&self, alloc: Global) -> Result<Value, NoMemory> {
        let mut object = JsonObject::new(alloc);
        object.put_text("kind", "last")?;
        object.put("address", &self.addr)?;
        object.put("network", &self.network)?;
        object.put("set", &self.set)?;
        Ok(object.into_value())
    }
}
