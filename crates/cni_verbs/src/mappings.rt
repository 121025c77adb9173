//! The port mappings of a command that reach the plugins of its list.

ghost use Rattle.std.specs.Prelude.{◌≡◌, filter_map, IfOk};
ghost use Rattle.std.specs.List.{list_any};
ghost use Rattle.cni_errors.specs.CommandFields.{mapping_of};
ghost use Rattle.cni_verbs.specs.Mappings.{mappings_of, takes_mappings};

use cni_addr::{Items, NoMemory};
use cni_errors::fields::mapping_of;
use cni_result::PortMapping;
use net_conf::{Chained, NetList};
use plugin_chain::plugins::takes_mappings;
use pod_file::{Command, RawMapping};
use std::alloc::Global;

/// Whether some plugin is handed the mappings.
fn some_takes(chained: &[Chained]) -> bool
    ensures { result ≡ list_any takes_mappings chained.now }
{
    chained.iter().any(|plugin| takes_mappings(plugin))
}

fn all_mappings(alloc: Global, raws: &[RawMapping]) -> Result<Vec<PortMapping>, NoMemory>
    ensures { IfOk result (λ mappings. mappings.items ≡ filter_map mapping_of raws.now) }
{
    Ok(
        raws.iter()
            .filter_map(|raw| mapping_of(raw))
            .collect(alloc)?,
    )
}

/// What the command gives of the mappings that reach the plugins of the list: nothing where no plugin asks for them.
/// Takes no memory.
#[tactic(auto, unfolding(crate::specs::Mappings::mappings_of))]
fn raw_mappings<'a>(list: &NetList, command: &'a Command) -> &'a [RawMapping]
    ensures { filter_map mapping_of result.now ≡ mappings_of list.now command.now }
{
    if some_takes(list.chained.as_slice()) {
        command.mappings.as_slice()
    } else {
        &[]
    }
}

/// The mappings that reach the plugins of the list: none where no plugin asks for them.
pub fn mappings_of(
    alloc: Global,
    list: &NetList,
    command: &Command,
) -> Result<Items<PortMapping>, NoMemory>
    ensures { IfOk result (λ mappings. mappings ≡ mappings_of list.now command.now) }
{
    let mappings = all_mappings(alloc, raw_mappings(list, command))?;
    Ok(Items::of_vec(mappings))
}
