//! What `firewall` and `tuning` owe to the verbs, each law carried by a function that does nothing.

ghost use Rattle.plugin_base.specs.PluginLaws.{ChainedLaws};
ghost use Rattle.firewall_tuning.specs.Firewall.{firewall_plugin};
ghost use Rattle.firewall_tuning.specs.Tuning.{tuning_plugin};

use net_conf::TuningConf;

/// `firewall` keeps the laws of a chained plugin (`plugin_base/specs/PluginLaws.antt`).
#[tactic(auto, using(crate::proofs::FirewallLaws::firewall_laws))]
pub fn firewall_keeps_its_laws()
    ensures { ChainedLaws firewall_plugin }
{}

/// So does `tuning`.
#[tactic(auto, using(crate::proofs::TuningLaws::tuning_laws))]
pub fn tuning_keeps_its_laws(conf: &TuningConf)
    ensures { ChainedLaws (tuning_plugin conf.now) }
{}
