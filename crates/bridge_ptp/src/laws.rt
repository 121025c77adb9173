//! What `bridge` and `ptp` owe to the verbs, each law carried by a function that does nothing.

ghost use Rattle.plugin_base.specs.PluginLaws.{FirstLaws};
ghost use Rattle.bridge_ptp.specs.Bridge.{bridge_plugin};
ghost use Rattle.bridge_ptp.specs.Ptp.{ptp_plugin};

use net_conf::{BridgeConf, PtpConf};

/// `bridge` keeps the laws of a first plugin (`plugin_base/specs/PluginLaws.antt`).
pub fn bridge_keeps_its_laws(conf: &BridgeConf)
    ensures { FirstLaws (bridge_plugin conf.now) }
{}

/// So does `ptp`.
pub fn ptp_keeps_its_laws(conf: &PtpConf)
    ensures { FirstLaws (ptp_plugin conf.now) }
{}
