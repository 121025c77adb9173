//! Port mappings that are read.

ghost use Rattle.std.specs.Prelude.{◌≡◌};
ghost use Rattle.serde_json.specs.View.{view};
ghost use Rattle.cni_result.specs.Mappings.{port_at, protocol_at, host_ip_at, mapping_at};

use crate::cached::{PortMapping, Proto, proto_named};
use cni_addr::{Addr, read_addr};
use cni_json::{Field, Value, field_str, field_u64};

/// The port mapping that an entry of `portMappings` is, as a plugin is given it (the CNI conventions' capability).
///
/// The ports, 0 to 65535, and `protocol` must be there. `hostIP` may be absent; any address that is there restricts the
/// mapping to it, `0.0.0.0` and `::` too. A member that is null is as an absent one, and unnamed members are ignored.
/// There is none where a member is wrong or missing. Takes no memory.
#[tactic(auto, unfolding(crate::specs::Mappings::mapping_at))]
pub fn read_mapping(entry: &Value) -> Option<PortMapping>
    ensures { result ≡ mapping_at (view entry.now) }
{
    let container_port = port(entry, "containerPort")?;
    let host_ip = host_ip(entry)?;
    let host_port = port(entry, "hostPort")?;
    let protocol = protocol(entry)?;
    Some(PortMapping {
        host_port,
        container_port,
        protocol,
        host_ip,
    })
}

#[tactic(auto, unfolding(crate::specs::Mappings::port_at))]
fn port(entry: &Value, key: &str) -> Option<u16>
    ensures { result ≡ port_at key.now (view entry.now) }
{
    match field_u64(entry, key) {
        Field::Here(number) => u16::try_from(number).ok(),
        Field::Absent | Field::WrongKind => None,
    }
}

/// The address that is under `hostIP`, or `Some(None)` where there is none.
#[tactic(auto, unfolding(crate::specs::Mappings::host_ip_at))]
fn host_ip(entry: &Value) -> Option<Option<Addr>>
    ensures { result ≡ host_ip_at (view entry.now) }
{
    match field_str(entry, "hostIP") {
        Field::Absent => Some(None),
        Field::WrongKind => None,
        Field::Here(text) => Some(Some(read_addr(text.as_bytes())?)),
    }
}

#[tactic(auto, unfolding(crate::specs::Mappings::protocol_at))]
fn protocol(entry: &Value) -> Option<Proto>
    ensures { result ≡ protocol_at (view entry.now) }
{
    match field_str(entry, "protocol") {
        Field::Here(text) => proto_named(text),
        Field::Absent | Field::WrongKind => None,
    }
}
