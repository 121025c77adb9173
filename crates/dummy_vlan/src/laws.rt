//! What `dummy` and `vlan` owe to a registry, carried by a function that does nothing.

ghost use Rattle.std.specs.Prelude.{[], ◌∷◌};
ghost use Rattle.kernel_types.specs.declared.call.Kind.TheVariants.{Links};
ghost use Rattle.plugin_registry.specs.Needs.{IsAskable};
ghost use Rattle.plugin_registry.specs.Own.{OwnCalls};
ghost use Rattle.dummy_vlan.specs.DummyVlan.{dummy_calls_of, dummy_needs_of, vlan_calls_of, vlan_needs_of};

use plugin_registry::Ask;

/// Asked as their needs allow, `dummy` and `vlan` make objects of the attachment alone, all of them links or what lies
/// on links.
pub fn dummy_and_vlan_make_own_calls(ask: &Ask)
    ensures dummy { IsAskable dummy_needs_of ask.now → OwnCalls ask.now (Links ∷ []) (dummy_calls_of ask.now) }
    ensures vlan { IsAskable vlan_needs_of ask.now → OwnCalls ask.now (Links ∷ []) (vlan_calls_of ask.now) }
{}
