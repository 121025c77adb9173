//! The `macvlan` plugin.

ghost use Rattle.std.specs.Prelude.{◌≡◌, false};
ghost use Rattle.serde_json.specs.View.{view};
ghost use Rattle.serde_json.specs.Written.{has_float};
ghost use Rattle.cni_json.specs.Outcome.{Gives};
ghost use Rattle.net_conf.specs.Accepted as accepted;
ghost use Rattle.net_conf.specs.Macvlan as defined;
ghost use Rattle.net_conf.specs.Refusals.{is_out_of_memory};

use crate::accepted::{Accepted, all_supported};
use crate::error::{ConfError, invalid};
use crate::first::MacvlanConf;
use crate::ipam::addressing_of;
use crate::members::mtu;
use crate::names::is_interface_name;
use cni_addr::{MacvlanMode, Text, mode_named};
use cni_json::{Field, Value, field_str};
use std::alloc::Global;

/// The configuration of the `macvlan` plugin, from its object in a list.
#[tactic(auto, using(cni_json::proofs::Steps::steps), unfolding(crate::specs::Macvlan::macvlan_at))]
pub fn macvlan(alloc: Global, object: &Value) -> Result<MacvlanConf, ConfError>
    requires { has_float (view object.now) ≡ false }
    ensures { Gives is_out_of_memory result (defined.macvlan_at (view object.now)) }
{
    macvlan_supported(alloc, object)?;
    let master = master(alloc, object)?;
    let mode = mode(alloc, object)?;
    let mtu = mtu(alloc, object)?;
    let addressing = addressing_of(alloc, object)?;
    Ok(MacvlanConf {
        master,
        mode,
        mtu,
        ipam: addressing.ipam,
        dns: addressing.dns,
    })
}

fn macvlan_supported(alloc: Global, object: &Value) -> Result<(), ConfError>
    requires { has_float (view object.now) ≡ false }
    ensures { Gives is_out_of_memory result (accepted.all_supported defined.macvlan_rows (view object.now)) }
{
    all_supported(
        alloc,
        object,
        &[("linkInContainer", Accepted::IsFlag(false))],
    )
}

#[tactic(auto, using(cni_json::proofs::Steps::steps), unfolding(crate::specs::Macvlan::master_at))]
fn master(alloc: Global, object: &Value) -> Result<Text, ConfError>
    ensures { Gives is_out_of_memory result (defined.master_at (view object.now)) }
{
    match field_str(object, "master") {
        Field::Here(name) if is_interface_name(name) => Ok(Text::of(alloc, name)?),
        Field::Here(_) | Field::Absent | Field::WrongKind => Err(invalid(alloc, "master")),
    }
}

#[tactic(auto, using(cni_json::proofs::Steps::steps), unfolding(crate::specs::Macvlan::mode_at))]
fn mode(alloc: Global, object: &Value) -> Result<MacvlanMode, ConfError>
    ensures { Gives is_out_of_memory result (defined.mode_at (view object.now)) }
{
    match field_str(object, "mode") {
        Field::Absent => Ok(MacvlanMode::Bridge),
        Field::WrongKind => Err(invalid(alloc, "mode")),
        Field::Here(found) => mode_named(found).ok_or_else(|| invalid(alloc, "mode")),
    }
}
