//! The plugins that the program registers: `guard`, `dummy` and `vlan`.

ghost use Rattle.std.specs.Prelude.{◌≡◌, ◌++◌, ◌∷◌, [], false, IfOk, OnOk};
ghost use Rattle.std.specs.List.{list_any};
ghost use Rattle.std.specs.Str.{bytes_eq};
ghost use Rattle.kernel_types.specs.declared.call.Kind.TheVariants as kinds;
ghost use Rattle.plugin_registry.specs.Needs.{IsAskable};
ghost use Rattle.plugin_registry.specs.Own.{OwnCalls};
ghost use Rattle.dummy_vlan.specs.DummyVlan as links;
ghost use Rattle.guard.specs.Guard as guards;

use crate::suite::Suite;
use cni_addr::{Items, NoMemory};
use cni_result::AddResult;
use kernel_types::{Call, Kind};
use plugin_registry::{AddEnd, Ask, Plugin, Registry};
use std::alloc::Global;

// ---- closures: a box takes a function of this crate alone

pub(crate) fn guard_calls(alloc: Global, ask: &Ask) -> Result<Items<Call>, NoMemory>
    ensures calls { IfOk result (λ calls. calls ≡ guards.guard_calls_of ask.now) }
    ensures own { IfOk result (λ calls. OwnCalls ask.now guards.guard_kinds_of calls) }
{
    guard::guard_calls(alloc, ask)
}

pub(crate) fn guard_result(alloc: Global, _ask: &Ask) -> Result<AddResult, NoMemory>
    ensures { IfOk result (λ r. r ≡ guards.guard_result_of) }
{
    guard::guard_result(alloc)
}

pub(crate) fn dummy_calls(alloc: Global, ask: &Ask) -> Result<Items<Call>, NoMemory>
    requires { IsAskable links.dummy_needs_of ask.now }
    ensures calls { IfOk result (λ calls. calls ≡ links.dummy_calls_of ask.now) }
    ensures own { IfOk result (λ calls. OwnCalls ask.now (kinds.Links ∷ []) calls) }
{
    dummy_vlan::dummy_calls(alloc, ask)
}

pub(crate) fn dummy_result(alloc: Global, ask: &Ask) -> Result<AddResult, NoMemory>
    requires { IsAskable links.dummy_needs_of ask.now }
    ensures { IfOk result (λ r. r ≡ links.dummy_result_of ask.now) }
{
    dummy_vlan::dummy_result(alloc, ask)
}

pub(crate) fn vlan_calls(alloc: Global, ask: &Ask) -> Result<Items<Call>, NoMemory>
    requires { IsAskable links.vlan_needs_of ask.now }
    ensures calls { IfOk result (λ calls. calls ≡ links.vlan_calls_of ask.now) }
    ensures own { IfOk result (λ calls. OwnCalls ask.now (kinds.Links ∷ []) calls) }
{
    dummy_vlan::vlan_calls(alloc, ask)
}

pub(crate) fn vlan_result(alloc: Global, ask: &Ask) -> Result<AddResult, NoMemory>
    requires { IsAskable links.vlan_needs_of ask.now }
    ensures { IfOk result (λ r. r ≡ links.vlan_result_of ask.now) }
{
    dummy_vlan::vlan_result(alloc, ask)
}

// ---- the registry

/// The kinds of what `dummy` and `vlan` make: links alone.
pub(crate) fn links_alone(alloc: Global) -> Result<Items<Kind>, NoMemory>
    ensures { IfOk result (λ alone. alone ≡ kinds.Links ∷ []) }
{
    let mut alone = Items::new(alloc);
    alone.push(Kind::Links)?;
    Ok(alone)
}

/// Puts a plugin whose name isn't there at the end.
fn register(registry: &mut Registry<Suite>, plugin: Plugin<Suite>) -> Result<(), NoMemory>
    requires { list_any (λ p. bytes_eq p.name plugin.name) registry.old.plugins.items ≡ false }
    ensures { OnOk result (registry.new.plugins.items ≡ registry.old.plugins.items ++ plugin ∷ []) }
{
    match registry.add(plugin) {
        Ok(()) => Ok(()),
        Err(AddEnd::NoMemory(_)) => Err(NoMemory),
        Err(AddEnd::SameName(_)) => unreachable!(),
    }
}

/// A registry of these three.
pub(crate) fn registered(
    alloc: Global,
    guard: Plugin<Suite>,
    dummy: Plugin<Suite>,
    vlan: Plugin<Suite>,
) -> Result<Registry<Suite>, NoMemory>
    requires guard { guard.name ≡ guards.guard_name }
    requires dummy { dummy.name ≡ links.dummy_name }
    requires vlan { vlan.name ≡ links.vlan_name }
    ensures { IfOk result (λ registry. registry.plugins.items ≡ guard ∷ dummy ∷ vlan ∷ []) }
{
    let mut registry = Registry::new(alloc);
    register(&mut registry, guard)?;
    register(&mut registry, dummy)?;
    register(&mut registry, vlan)?;
    Ok(registry)
}
