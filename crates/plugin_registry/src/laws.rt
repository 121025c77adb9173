//! What follows of the calls that a plugin may give, carried by a function that does nothing.

ghost use Rattle.plugin_registry.specs.Own.{OwnCallsArePluginCalls};

/// A call that a plugin of a registry may give is well formed, one that a plugin makes for this attachment, and makes
/// objects of the plugin's kinds alone: what `plugin_base` proves of the calls of plugins holds of it.
pub fn own_calls_are_plugins_calls()
    ensures { OwnCallsArePluginCalls }
{}
