//! The opening.

ghost use Rattle.std.specs.Prelude.{◌≡◌, IfOk, map};
ghost use Rattle.kernel_types.specs.Opening.{opening_with};
ghost use Rattle.kernel_types.specs.Terms.{outside_namespace};

use crate::object::{Host, Link, NsObj};
use cni_addr::{Items, NoMemory, Text};
use std::alloc::Global;

/// The host of these links and of namespaces of these names, which are made outside, and of nothing else.
pub fn opening_with(alloc: Global, names: &[Text], links: Items<Link>) -> Result<Host, NoMemory>
    ensures { IfOk result (λ host. host ≡ opening_with names.now links) }
{
    Ok(Host {
        namespaces: outside_namespaces(alloc, names)?,
        links,
        addresses: Items::new(alloc),
        routes: Items::new(alloc),
        rules: Items::new(alloc),
        settings: Items::new(alloc),
        leases: Items::new(alloc),
        cached: Items::new(alloc),
        lasts: Items::new(alloc),
    })
}

fn outside_namespaces(alloc: Global, names: &[Text]) -> Result<Items<NsObj>, NoMemory>
    ensures { IfOk result (λ namespaces. namespaces ≡ map outside_namespace names.now) }
{
    let mut namespaces = Items::new(alloc);
    for name in names {
        namespaces.push(NsObj::outside(name)?)?;
    }
    Ok(namespaces)
}
