//! The tables of a host that is given as lists.

ghost use Rattle.std.specs.Prelude.{◌≡◌, IfOk};
ghost use Rattle.kernel_types.specs.Sound.{IsSound};

use super::Tables;
use super::forwards::Forwards;
use crate::table_key::TableKey;
use cni_addr::NoMemory;
use kernel_types::Host;
use object_tables::leased::leased_of;
use object_tables::{KeyedState, Table};
use std::alloc::Global;

impl Tables {
    /// The tables of a host. Takes a step and a few look-ups for each object.
    pub fn of_host(alloc: Global, key: &TableKey, host: Host) -> Result<Tables, NoMemory>
        requires { IsSound host }
        ensures { IfOk result (λ tables. tables ≡ host) }
    {
        let state = KeyedState::of(&key.digest);
        let leased = leased_of(alloc, state, host.leases.as_slice())?;
        Ok(Tables {
            namespaces: Table::of_rows(alloc, state, host.namespaces)?,
            links: Table::of_rows(alloc, state, host.links)?,
            addresses: Table::of_rows(alloc, state, host.addresses)?,
            routes: Table::of_rows(alloc, state, host.routes)?,
            rules: Table::of_rows(alloc, state, host.rules)?,
            settings: Table::of_rows(alloc, state, host.settings)?,
            leases: Table::of_rows(alloc, state, host.leases)?,
            cached: Table::of_rows(alloc, state, host.cached)?,
            lasts: Table::of_rows(alloc, state, host.lasts)?,
            leased,
            forwards: Forwards::new(alloc)?,
        })
    }
}
