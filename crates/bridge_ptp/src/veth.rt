//! The veth pair between a container and the host.

ghost use Rattle.std.specs.Prelude.{◌≡◌, IfOk};
ghost use Rattle.bridge_ptp.specs.Veth as veth;

use cni_addr::{NoMemory, RefCounted, Text};
use kernel_types::{Call, NamedAtt};
use plugin_base::{host_end, inner_end};
use std::alloc::Global;

/// The call that makes the attachment's pair, with the host's end under this master.
pub(crate) fn veth_pair(
    alloc: Global,
    att: &NamedAtt,
    netns: &Text,
    master: Option<Text>,
    mtu: u32,
    hairpin: bool,
) -> Result<Call, NoMemory>
    ensures { IfOk result (λ call. call ≡ veth.veth_pair att.now netns.now master mtu hairpin) }
{
    let host_end = host_end(alloc, att, netns, master, mtu, hairpin)?;
    let inner_end = inner_end(alloc, att, netns, mtu)?;
    Ok(Call::VethAdd {
        host_end: RefCounted::of(alloc, host_end)?,
        inner_end: RefCounted::of(alloc, inner_end)?,
    })
}
