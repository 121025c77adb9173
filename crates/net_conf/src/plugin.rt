//! A plugin by itself, whatever list it stands in.

ghost use Rattle.std.specs.Prelude.{◌≡◌, false};
ghost use Rattle.serde_json.specs.View.{view};
ghost use Rattle.serde_json.specs.Written.{has_float};
ghost use Rattle.cni_json.specs.Outcome.{Gives};
ghost use Rattle.net_conf.specs.Plugin as defined;
ghost use Rattle.net_conf.specs.Refusals.{is_out_of_memory};

use crate::chained::Chained;
use crate::error::ConfError;
use crate::first::First;
use crate::plugins::{chained, first as first_plugin, makes_interface, plugin_type};
use cni_json::Value;
use std::alloc::Global;

/// The configuration of a plugin: one that makes the interface, or one that changes it.
#[derive(PartialEq, Eq, Drop)]
pub enum Plugin {
    First(First),
    Chained(Chained),
}

/// The plugin that an object of a list's `plugins` configures in the first place, or else in a later one. It is refused
/// as in the list, but for what stands before it there: nothing is repeated.
#[tactic(auto, using(cni_json::proofs::Steps::steps))]
pub fn read_plugin(alloc: Global, value: &Value, first: bool) -> Result<Plugin, ConfError>
    requires { has_float (view value.now) ≡ false }
    ensures { Gives is_out_of_memory result (defined.plugin_at first (view value.now)) }
{
    if first {
        let conf = first_plugin(alloc, value)?;
        Ok(Plugin::First(conf))
    } else {
        let conf = chained(alloc, value)?;
        Ok(Plugin::Chained(conf))
    }
}

/// The plugin that an object configures in the place that its type is for, so that none is refused for its place. A
/// value that is no object has no `type`.
#[tactic(auto, using(cni_json::proofs::Steps::steps), unfolding(crate::specs::Plugin::plugin_by_type_at))]
pub fn plugin_by_type(alloc: Global, value: &Value) -> Result<Plugin, ConfError>
    requires { has_float (view value.now) ≡ false }
    ensures { Gives is_out_of_memory result (defined.plugin_by_type_at (view value.now)) }
{
    let plugin_type = plugin_type(alloc, value)?;
    read_plugin(alloc, value, makes_interface(plugin_type))
}
