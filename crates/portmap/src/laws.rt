//! What `portmap` owes to the verbs, carried by a function that does nothing.

ghost use Rattle.plugin_base.specs.PluginLaws.{ChainedLaws};
ghost use Rattle.portmap.specs.Portmap.{portmap_plugin};

use net_conf::PortmapConf;

/// `portmap` keeps the laws of a chained plugin (`plugin_base/specs/PluginLaws.antt`).
#[tactic(auto, using(crate::proofs::PortmapLaws::portmap_laws))]
pub fn portmap_keeps_its_laws(conf: &PortmapConf)
    ensures { ChainedLaws (portmap_plugin conf.now) }
{}
