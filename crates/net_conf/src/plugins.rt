//! The types of plugins, the plugins of a list, and which may stand where.

ghost use Rattle.std.specs.Prelude.{◌≡◌, [], false, Some, IfOk};
ghost use Rattle.std.specs.List.{list_any};
ghost use Rattle.serde_json.specs.View.{view, items_view};
ghost use Rattle.serde_json.specs.Written.{has_float, items_have_float};
ghost use Rattle.cni_json.specs.Each.{each_after};
ghost use Rattle.cni_json.specs.Outcome.{Gives, GivesAs};
ghost use Rattle.net_conf.specs.PluginTypes as plugin_types;
ghost use Rattle.net_conf.specs.Plugins as defined;
ghost use Rattle.net_conf.specs.Refusals.{is_out_of_memory};

use crate::bridge::bridge;
use crate::chained::{Chained, ChainedPlugins};
use crate::error::{ConfError, invalid};
use crate::firewall::firewall;
use crate::first::First;
use crate::macvlan::macvlan;
use crate::portmap::portmap;
use crate::ptp::ptp;
use crate::tuning::tuning;
use cni_addr::Items;
use cni_json::{Field, Value, field_list, field_str, need_object, read_each_after};
use std::alloc::Global;

// ---- types

/// A type of plugin. The first three make an interface and stand first in a list; the others change one.
#[derive(Clone, Copy)]
pub enum PluginType {
    Bridge,
    Ptp,
    Macvlan,
    Portmap,
    Firewall,
    Tuning,
}

impl PluginType {
    /// Every type once.
    pub const ALL: [PluginType; 6] = [
        PluginType::Bridge,
        PluginType::Ptp,
        PluginType::Macvlan,
        PluginType::Portmap,
        PluginType::Firewall,
        PluginType::Tuning,
    ];
}

/// The type as a plugin's object names it. Takes no memory.
pub fn type_text(plugin_type: PluginType) -> &'static str
    ensures text { result.now ≡ plugin_types.type_text plugin_type }
    ensures named_again { plugin_types.type_named (plugin_types.type_text plugin_type) ≡ Some plugin_type }
{
    match plugin_type {
        PluginType::Bridge => "bridge",
        PluginType::Ptp => "ptp",
        PluginType::Macvlan => "macvlan",
        PluginType::Portmap => "portmap",
        PluginType::Firewall => "firewall",
        PluginType::Tuning => "tuning",
    }
}

/// The type that the text names. Takes no memory.
pub fn type_named(text: &str) -> Option<PluginType>
    ensures { result ≡ plugin_types.type_named text.now }
{
    PluginType::ALL
        .iter()
        .copied()
        .find(|plugin_type| text == type_text(*plugin_type))
}

impl PartialEq for PluginType {
    ghost use Rattle.std.specs.Cmp.{partial_equiv_from_equiv, on_equiv, nat_eq_equiv};
    ghost use Rattle.net_conf.specs.PluginTypes.{type_eq, type_code};

    ghost eq = { type_eq };

    ghost laws = { partial_equiv_from_equiv (on_equiv type_code nat_eq_equiv) };

    fn eq(&self, other: &PluginType) -> bool {
        *self as u8 == *other as u8
    }
}

impl Eq for PluginType {
    ghost use Rattle.std.specs.Cmp.{on_equiv, nat_eq_equiv};
    ghost use Rattle.net_conf.specs.PluginTypes.{type_code};

    ghost laws = { on_equiv type_code nat_eq_equiv };
}

/// Whether the type's plugins make an interface, and so stand first in a list.
pub fn makes_interface(plugin_type: PluginType) -> bool
    ensures { result ≡ plugin_types.makes_interface plugin_type }
{
    match plugin_type {
        PluginType::Bridge | PluginType::Ptp | PluginType::Macvlan => true,
        PluginType::Portmap | PluginType::Firewall | PluginType::Tuning => false,
    }
}

/// The type of a later plugin.
pub fn type_of_chained(plugin: &Chained) -> PluginType
    ensures { result ≡ plugin_types.type_of_chained plugin.now }
{
    match plugin {
        Chained::Portmap(_) => PluginType::Portmap,
        Chained::Firewall(_) => PluginType::Firewall,
        Chained::Tuning(_) => PluginType::Tuning,
    }
}

// ---- plugins

/// The plugins of a list, in order.
#[derive(Drop)]
pub struct PluginChain {
    pub first: First,
    pub chained: ChainedPlugins,
}

/// The plugins of a list: one that makes the interface, and then those that change it.
#[tactic(auto, using(cni_json::proofs::Steps::steps), unfolding(crate::specs::Plugins::chain_at))]
pub fn plugin_chain(alloc: Global, top: &Value) -> Result<PluginChain, ConfError>
    requires { has_float (view top.now) ≡ false }
    ensures { Gives is_out_of_memory result (defined.chain_at (view top.now)) }
{
    let plugins = plugin_objects(alloc, top)?;
    let first = first_plugin(alloc, plugins)?;
    let chained = later_plugins(alloc, plugins)?;
    Ok(PluginChain { first, chained })
}

/// The objects of a list's plugins, which aren't looked into, or that `plugins` is [`ConfError::Invalid`]: it is absent
/// or no list.
#[tactic(auto, using(cni_json::proofs::Steps::steps, cni_json::proofs::WholeNumbers::parts_are_whole), unfolding(crate::specs::Plugins::plugins_at))]
pub fn plugin_objects<'a>(alloc: Global, top: &'a Value) -> Result<&'a [Value], ConfError>
    requires { has_float (view top.now) ≡ false }
    ensures given { GivesAs is_out_of_memory (λ list. items_view list.now) result
        (defined.plugins_at (view top.entry.now)) }
    ensures numbers { IfOk result (λ list. items_have_float (items_view list.now) ≡ false) }
{
    match field_list(top, "plugins") {
        Field::Here(list) => Ok(list),
        Field::Absent | Field::WrongKind => Err(invalid(alloc, "plugins")),
    }
}

/// The first plugin, of which there must be one.
#[tactic(auto, using(cni_json::proofs::Steps::steps, cni_json::proofs::WholeNumbers::parts_are_whole))]
fn first_plugin(alloc: Global, plugins: &[Value]) -> Result<First, ConfError>
    requires { items_have_float (items_view plugins.now) ≡ false }
    ensures { Gives is_out_of_memory result (defined.first_plugin (items_view plugins.now)) }
{
    match plugins {
        [] => Err(invalid(alloc, "plugins")),
        [plugin, ..] => first(alloc, plugin),
    }
}

/// The plugins after the first, in order.
#[tactic(auto, using(cni_json::proofs::Steps::steps))]
fn later_plugins(alloc: Global, plugins: &[Value]) -> Result<ChainedPlugins, ConfError>
    requires { items_have_float (items_view plugins.now) ≡ false }
    ensures { Gives is_out_of_memory result (defined.later_plugins (items_view plugins.now)) }
{
    let chained = after_first(alloc, plugins)?;
    Ok(ChainedPlugins::of_items(chained))
}

#[tactic(auto, using(cni_json::proofs::Steps::steps, crate::proofs::ValueLemmas::by_length, cni_json::proofs::WholeNumbers::parts_are_whole))]
fn after_first(alloc: Global, plugins: &[Value]) -> Result<Items<Chained>, ConfError>
    requires { items_have_float (items_view plugins.now) ≡ false }
    ensures { Gives is_out_of_memory result (defined.later_plugins (items_view plugins.now)) }
{
    match plugins {
        [] => Ok(Items::new(alloc)),
        [_, others @ ..] => all_later(alloc, others),
    }
}

#[tactic(auto, using(cni_json::proofs::Steps::steps, cni_json::proofs::WholeNumbers::parts_are_whole))]
fn all_later(alloc: Global, plugins: &[Value]) -> Result<Items<Chained>, ConfError>
    requires { items_have_float (items_view plugins.now) ≡ false }
    ensures { Gives is_out_of_memory result (each_after defined.later_at [] (items_view plugins.now)) }
{
    read_each_after(
        Items::new(alloc),
        plugins,
        |before, plugin| later(alloc, before, plugin),
    )
}

/// A plugin after the first and the later ones that are given.
#[tactic(auto, using(cni_json::proofs::Steps::steps), unfolding(crate::specs::Plugins::later_at))]
fn later(alloc: Global, before: &[Chained], plugin: &Value) -> Result<Chained, ConfError>
    requires { has_float (view plugin.now) ≡ false }
    ensures { Gives is_out_of_memory result (defined.later_at before.now (view plugin.now)) }
{
    need_object(plugin, || invalid(alloc, "plugins"))?;
    let plugin_type = plugin_type(alloc, plugin)?;
    not_repeated(alloc, before, plugin_type)?;
    later_of(alloc, plugin_type, plugin)
}

/// A plugin after the first, whatever else stands before it.
#[tactic(auto, using(cni_json::proofs::Steps::steps), unfolding(crate::specs::Plugins::chained_at))]
pub fn chained(alloc: Global, plugin: &Value) -> Result<Chained, ConfError>
    requires { has_float (view plugin.now) ≡ false }
    ensures { Gives is_out_of_memory result (defined.chained_at (view plugin.now)) }
{
    need_object(plugin, || invalid(alloc, "plugins"))?;
    let plugin_type = plugin_type(alloc, plugin)?;
    later_of(alloc, plugin_type, plugin)
}

#[tactic(auto, using(cni_json::proofs::Steps::steps), unfolding(crate::specs::Plugins::not_repeated))]
fn not_repeated(alloc: Global, before: &[Chained], plugin_type: PluginType) -> Result<(), ConfError>
    ensures { Gives is_out_of_memory result (defined.not_repeated before.now plugin_type) }
{
    (!has_type(before, plugin_type))
        .then_some(())
        .ok_or_else(|| invalid(alloc, "plugins"))
}

fn has_type(plugins: &[Chained], plugin_type: PluginType) -> bool
    ensures { result ≡ list_any (defined.is_of_type plugin_type) plugins.now }
{
    plugins.iter().any(|plugin| is_of_type(plugin, plugin_type))
}

fn is_of_type(plugin: &Chained, plugin_type: PluginType) -> bool
    ensures { result ≡ defined.is_of_type plugin_type plugin.now }
{
    type_of_chained(plugin) == plugin_type
}

/// A plugin in the first place.
#[tactic(auto, using(cni_json::proofs::Steps::steps), unfolding(crate::specs::Plugins::first_at))]
pub fn first(alloc: Global, plugin: &Value) -> Result<First, ConfError>
    requires { has_float (view plugin.now) ≡ false }
    ensures { Gives is_out_of_memory result (defined.first_at (view plugin.now)) }
{
    need_object(plugin, || invalid(alloc, "plugins"))?;
    let plugin_type = plugin_type(alloc, plugin)?;
    first_of(alloc, plugin_type, plugin)
}

/// The type that the object names.
#[tactic(auto, using(cni_json::proofs::Steps::steps), unfolding(crate::specs::Plugins::type_at))]
pub fn plugin_type(alloc: Global, plugin: &Value) -> Result<PluginType, ConfError>
    ensures { Gives is_out_of_memory result (defined.type_at (view plugin.now)) }
{
    match field_str(plugin, "type") {
        Field::Here(found) => type_named(found).ok_or_else(|| invalid(alloc, "type")),
        Field::Absent | Field::WrongKind => Err(invalid(alloc, "type")),
    }
}

#[tactic(auto, using(cni_json::proofs::Steps::steps))]
fn first_of(alloc: Global, plugin_type: PluginType, object: &Value) -> Result<First, ConfError>
    requires { has_float (view object.now) ≡ false }
    ensures { Gives is_out_of_memory result (defined.first_of plugin_type (view object.now)) }
{
    match plugin_type {
        PluginType::Bridge => {
            let conf = bridge(alloc, object)?;
            Ok(First::Bridge(conf))
        }
        PluginType::Ptp => {
            let conf = ptp(alloc, object)?;
            Ok(First::Ptp(conf))
        }
        PluginType::Macvlan => {
            let conf = macvlan(alloc, object)?;
            Ok(First::Macvlan(conf))
        }
        PluginType::Portmap | PluginType::Firewall | PluginType::Tuning => {
            Err(invalid(alloc, "plugins"))
        }
    }
}

#[tactic(auto, using(cni_json::proofs::Steps::steps))]
fn later_of(alloc: Global, plugin_type: PluginType, object: &Value) -> Result<Chained, ConfError>
    requires { has_float (view object.now) ≡ false }
    ensures { Gives is_out_of_memory result (defined.later_of plugin_type (view object.now)) }
{
    match plugin_type {
        PluginType::Portmap => {
            let conf = portmap(alloc, object)?;
            Ok(Chained::Portmap(conf))
        }
        PluginType::Firewall => {
            let conf = firewall(alloc, object)?;
            Ok(Chained::Firewall(conf))
        }
        PluginType::Tuning => {
            let conf = tuning(alloc, object)?;
            Ok(Chained::Tuning(conf))
        }
        PluginType::Bridge | PluginType::Ptp | PluginType::Macvlan => {
            Err(invalid(alloc, "plugins"))
        }
    }
}
