//! Laws of plugins, each carried by a function that does nothing.

ghost use Rattle.plugin_laws.specs.Laws.{ChainedRulesStandInChains, FirstRulesStandInChains, ResultsAreReadable};

/// The result of an ADD of a well-formed network list is one that `cni_result` reads again as it was printed, whatever
/// addresses were leased: one that no range of the list holds isn't in it.
#[tactic(auto, using(crate::proofs::Results::results_are_readable))]
pub fn results_are_readable()
    ensures { ResultsAreReadable }
{}

/// Each rule that a plugin appends stands in one of the chains of its type, and in the table of that chain.
#[tactic(auto, using(crate::proofs::Chains::firsts_stand, crate::proofs::Chains::chained_stand))]
pub fn rules_stand_in_their_chains()
    ensures firsts { FirstRulesStandInChains }
    ensures chained { ChainedRulesStandInChains }
{}
