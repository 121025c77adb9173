//! What follows for every plugin that keeps its laws, carried by a function that does nothing.

ghost use Rattle.plugin_base.specs.PluginLaws.{ChainedChangeTheirShares, FirstsAppendTheirShares};

/// In every sound host in which the calls of a plugin that keeps its laws (`specs/PluginLaws.antt`) are all done, they
/// append exactly the objects that the plugin says; those of a chained plugin besides make of the links what it says.
#[tactic(auto, using(crate::proofs::Appends::chained_change))]
pub fn plugins_add_their_shares()
    ensures firsts { FirstsAppendTheirShares }
    ensures chained { ChainedChangeTheirShares }
{}
