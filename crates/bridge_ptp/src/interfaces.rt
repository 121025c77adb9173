//! The interfaces of a result.

ghost use Rattle.std.specs.Prelude.{◌≡◌, ◌++◌, IfOk, OnOk};
ghost use Rattle.bridge_ptp.specs.Results as results;

use cni_addr::{Duplicate, Items, NoMemory, Text};
use cni_result::{Interface, Version, mtu_since_1_1};
use kernel_types::NamedAtt;
use link_names::BridgeName;
use plugin_base::inner_interface;

/// A bridge of the host.
pub(crate) fn bridge_interface(bridge: &BridgeName) -> Result<Interface, NoMemory>
    ensures { IfOk result (λ i. i ≡ results.bridge_interface bridge.now) }
{
    Ok(Interface {
        name: bridge.name().copy()?,
        mac: Some(bridge.mac()),
        mtu: None,
        sandbox: None,
    })
}

/// The host's end of the attachment's veth pair.
fn host_interface(att: &NamedAtt, mtu: u32, version: Version) -> Result<Interface, NoMemory>
    ensures { IfOk result (λ i. i ≡ results.host_interface att.now mtu version) }
{
    Ok(Interface {
        name: att.host_name()?,
        mac: Some(att.host_mac()),
        mtu: mtu_since_1_1(version, Some(mtu)),
        sandbox: None,
    })
}

/// Puts both ends of the attachment's veth pair at the end, the container's last.
pub(crate) fn push_pair(
    interfaces: &mut Items<Interface>,
    att: &NamedAtt,
    netns: &Text,
    mtu: u32,
    version: Version,
) -> Result<(), NoMemory>
    ensures { OnOk result (interfaces.new ≡ interfaces.old ++ results.pair_interfaces att.now netns.now mtu version) }
{
    interfaces.push(host_interface(att, mtu, version)?)?;
    interfaces.push(inner_interface(att, netns, mtu, version)?)
}
