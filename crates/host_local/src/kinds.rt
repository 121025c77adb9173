//! What DEL takes back of a first plugin.

ghost use Rattle.std.specs.Prelude.{◌≡◌, IfOk};
ghost use Rattle.std.specs.Option.{option_copied};
ghost use Rattle.host_local.specs.Kinds as plan;

use crate::leases::release_kinds;
use cni_addr::{Items, NoMemory};
use kernel_types::Kind;
use net_conf::HostLocalConf;
use std::alloc::Global;

/// The kinds of objects that DEL takes back: links, with `ipMasq` the rules, and where addresses are given the leases.
pub fn interface_kinds(
    alloc: Global,
    ip_masq: bool,
    ipam: Option<&HostLocalConf>,
) -> Result<Items<Kind>, NoMemory>
    ensures { IfOk result (λ kinds. kinds ≡ plan.interface_kinds ip_masq (option_copied ipam.entry)) }
{
    let mut kinds = Items::new(alloc);
    kinds.push(Kind::Links)?;
    if ip_masq {
        kinds.push(Kind::Rules)?;
    }
    if ipam.is_some() {
        let [leases] = release_kinds();
        kinds.push(leases)?;
    }
    Ok(kinds)
}
