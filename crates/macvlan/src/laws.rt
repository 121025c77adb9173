//! What `macvlan` owes to the verbs, carried by a function that does nothing.

ghost use Rattle.plugin_base.specs.PluginLaws.{FirstLaws};
ghost use Rattle.macvlan.specs.Macvlan.{macvlan_plugin};

use net_conf::MacvlanConf;

/// `macvlan` keeps the laws of a first plugin (`plugin_base/specs/PluginLaws.antt`).
pub fn macvlan_keeps_its_laws(conf: &MacvlanConf)
    ensures { FirstLaws (macvlan_plugin conf.now) }
{}
