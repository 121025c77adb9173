//! What holds of every plugin.

ghost use Rattle.plugin_chain.specs.Laws.{ChainedKeepTheirLaws, FirstsKeepTheirLaws};

/// Each plugin keeps what it owes (`plugin_base/specs/PluginLaws.antt`), the first and the chained ones, however they
/// are configured.
#[tactic(auto, using(crate::proofs::PluginLaws::chained_laws))]
pub fn each_plugin_keeps_its_laws()
    ensures firsts { FirstsKeepTheirLaws }
    ensures chained { ChainedKeepTheirLaws }
{}
