//! The `portmap` plugin.

ghost use Rattle.std.specs.Prelude.{◌≡◌, false};
ghost use Rattle.serde_json.specs.View.{view};
ghost use Rattle.serde_json.specs.Written.{has_float};
ghost use Rattle.cni_json.specs.Outcome.{Gives};
ghost use Rattle.net_conf.specs.Accepted as accepted;
ghost use Rattle.net_conf.specs.Portmap as defined;
ghost use Rattle.net_conf.specs.Refusals.{is_out_of_memory};

use crate::accepted::{Accepted, all_supported};
use crate::chained::PortmapConf;
use crate::error::{ConfError, invalid};
use crate::members::{flag, flag_within};
use cni_json::{Field, Value, field_object};
use std::alloc::Global;

/// The configuration of the `portmap` plugin, from its object in a list.
#[tactic(auto, using(cni_json::proofs::Steps::steps), unfolding(crate::specs::Portmap::portmap_at))]
pub fn portmap(alloc: Global, object: &Value) -> Result<PortmapConf, ConfError>
    requires { has_float (view object.now) ≡ false }
    ensures { Gives is_out_of_memory result (defined.portmap_at (view object.now)) }
{
    portmap_supported(alloc, object)?;
    let mappings = mappings(alloc, object)?;
    let snat = flag(alloc, object, "snat", true)?;
    Ok(PortmapConf { mappings, snat })
}

fn portmap_supported(alloc: Global, object: &Value) -> Result<(), ConfError>
    requires { has_float (view object.now) ≡ false }
    ensures { Gives is_out_of_memory result (accepted.all_supported defined.portmap_rows (view object.now)) }
{
    all_supported(
        alloc,
        object,
        &[
            ("conditionsV4", Accepted::EmptyList),
            ("conditionsV6", Accepted::EmptyList),
            ("markMasqBit", Accepted::AnyNumber),
            ("externalSetMarkChain", Accepted::EmptyText),
            ("backend", Accepted::Backend),
        ],
    )
}

#[tactic(auto, using(cni_json::proofs::Steps::steps), unfolding(crate::specs::Portmap::takes_mappings_at))]
fn mappings(alloc: Global, object: &Value) -> Result<bool, ConfError>
    ensures { Gives is_out_of_memory result (defined.takes_mappings_at (view object.now)) }
{
    match field_object(object, "capabilities") {
        Field::Absent => Ok(false),
        Field::WrongKind => Err(invalid(alloc, "capabilities")),
        Field::Here(capabilities) => {
            flag_within(alloc, capabilities, "capabilities", "portMappings", false)
        }
    }
}
