//! The `bridge` plugin.

ghost use Rattle.std.specs.Prelude.{◌≡◌, false};
ghost use Rattle.serde_json.specs.View.{view};
ghost use Rattle.serde_json.specs.Written.{has_float};
ghost use Rattle.cni_json.specs.Outcome.{Gives};
ghost use Rattle.net_conf.specs.Accepted as accepted;
ghost use Rattle.net_conf.specs.Bridge as defined;
ghost use Rattle.net_conf.specs.Refusals.{is_out_of_memory};

use crate::accepted::{Accepted, all_supported};
use crate::bridge_modes::{BridgeMode, GatewayRole};
use crate::error::{ConfError, invalid};
use crate::first::BridgeConf;
use crate::ipam::addressing_of;
use crate::members::{flag, mtu};
use crate::names::is_interface_name;
use cni_addr::Text;
use cni_json::{Field, Value, field_str};
use link_names::BridgeName;
use std::alloc::Global;

/// The configuration of the `bridge` plugin, from its object in a list.
#[tactic(auto, using(cni_json::proofs::Steps::steps), unfolding(crate::specs::Bridge::bridge_at))]
pub fn bridge(alloc: Global, object: &Value) -> Result<BridgeConf, ConfError>
    requires { has_float (view object.now) ≡ false }
    ensures { Gives is_out_of_memory result (defined.bridge_at (view object.now)) }
{
    bridge_supported(alloc, object)?;
    let bridge = BridgeName::of(bridge_name(alloc, object)?);
    let gateway = gateway_role(alloc, object)?;
    let ip_masq = flag(alloc, object, "ipMasq", false)?;
    let mtu = mtu(alloc, object)?;
    let mode = bridge_mode(alloc, object)?;
    let addressing = addressing_of(alloc, object)?;
    Ok(BridgeConf {
        bridge,
        gateway,
        ip_masq,
        mtu,
        mode,
        ipam: addressing.ipam,
        dns: addressing.dns,
    })
}

fn bridge_supported(alloc: Global, object: &Value) -> Result<(), ConfError>
    requires { has_float (view object.now) ≡ false }
    ensures { Gives is_out_of_memory result (accepted.all_supported defined.bridge_rows (view object.now)) }
{
    all_supported(
        alloc,
        object,
        &[
            ("vlan", Accepted::Zero),
            ("vlanTrunk", Accepted::EmptyList),
            ("preserveDefaultVlan", Accepted::IsFlag(true)),
            ("macspoofchk", Accepted::IsFlag(false)),
            ("forceAddress", Accepted::IsFlag(false)),
            ("disableContainerInterface", Accepted::IsFlag(false)),
            ("portIsolation", Accepted::IsFlag(false)),
            ("ipMasqBackend", Accepted::Backend),
        ],
    )
}

#[tactic(auto, using(cni_json::proofs::Steps::steps), unfolding(crate::specs::Bridge::bridge_name_at))]
fn bridge_name(alloc: Global, object: &Value) -> Result<Text, ConfError>
    ensures { Gives is_out_of_memory result (defined.bridge_name_at (view object.now)) }
{
    match field_str(object, "bridge") {
        Field::Absent => Ok(Text::of(alloc, "cni0")?),
        Field::Here(name) if is_interface_name(name) => Ok(Text::of(alloc, name)?),
        Field::Here(_) | Field::WrongKind => Err(invalid(alloc, "bridge")),
    }
}

#[tactic(auto, using(cni_json::proofs::Steps::steps), unfolding(crate::specs::Bridge::gateway_role_at))]
fn gateway_role(alloc: Global, object: &Value) -> Result<GatewayRole, ConfError>
    ensures { Gives is_out_of_memory result (defined.gateway_role_at (view object.now)) }
{
    let is_gateway = flag(alloc, object, "isGateway", false)?;
    let is_default = flag(alloc, object, "isDefaultGateway", false)?;
    Ok(role_of(is_gateway, is_default))
}

fn role_of(is_gateway: bool, is_default: bool) -> GatewayRole
    ensures { result ≡ defined.role_of is_gateway is_default }
{
    match (is_gateway, is_default) {
        (_, true) => GatewayRole::DefaultGateway,
        (true, false) => GatewayRole::Gateway,
        (false, false) => GatewayRole::None,
    }
}

#[tactic(auto, using(cni_json::proofs::Steps::steps), unfolding(crate::specs::Bridge::bridge_mode_at))]
fn bridge_mode(alloc: Global, object: &Value) -> Result<BridgeMode, ConfError>
    ensures { Gives is_out_of_memory result (defined.bridge_mode_at (view object.now)) }
{
    let hairpin = flag(alloc, object, "hairpinMode", false)?;
    let promisc = promisc(alloc, object)?;
    mode_of(alloc, hairpin, promisc)
}

#[tactic(auto, unfolding(crate::specs::Bridge::promisc_at))]
fn promisc(alloc: Global, object: &Value) -> Result<bool, ConfError>
    ensures { Gives is_out_of_memory result (defined.promisc_at (view object.now)) }
{
    flag(alloc, object, "promiscMode", false)
}

#[tactic(auto, using(cni_json::proofs::Steps::steps))]
fn mode_of(alloc: Global, hairpin: bool, promisc: bool) -> Result<BridgeMode, ConfError>
    ensures { Gives is_out_of_memory result (defined.mode_of hairpin promisc) }
{
    match (hairpin, promisc) {
        (false, false) => Ok(BridgeMode::Plain),
        (true, false) => Ok(BridgeMode::Hairpin),
        (false, true) => Ok(BridgeMode::Promisc),
        (true, true) => Err(invalid(alloc, "hairpinMode")),
    }
}
