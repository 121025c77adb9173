//! Addresses and routes as lines of the dump.

ghost use Rattle.kernel_text.specs.Dump.{address_data, route_data};

use crate::dump::Dumped;
use crate::tags::put_tag;
use cni_addr::NoMemory;
use cni_json::JsonObject;
use kernel_types::{AddrObj, RouteObj};
use serde_json::Value;
use std::alloc::Global;

impl Dumped for AddrObj {
    ghost shown = { address_data };

    #[tactic(auto, unfolding(crate::specs::Dump::address_data))]
    fn dump_value(&self, alloc: Global) -> Result<Value, NoMemory> {
        let mut object = JsonObject::new(alloc);
        object.put_text("kind", "address")?;
        object.put("address", &self.cidr)?;
        object.put("link", &self.link)?;
        object.put("ns", &self.ns)?;
        put_tag(&mut object, alloc, &self.tag)?;
        Ok(object.into_value())
    }
}

impl Dumped for RouteObj {
    ghost shown = { route_data };

    #[tactic(auto, unfolding(crate::specs::Dump::route_data))]
    fn dump_value(&self, alloc: Global) -> Result<Value, NoMemory> {
        let mut object = JsonObject::new(alloc);
        object.put_text("kind", "route")?;
        object.put("dst", &self.dst)?;
        object.put_if("gw", &self.gw)?;
        object.put("link", &self.link)?;
        object.put("ns", &self.ns)?;
        put_tag(&mut object, alloc, &self.tag)?;
        Ok(object.into_value())
    }
}
