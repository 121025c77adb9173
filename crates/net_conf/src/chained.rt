//! The plugins that follow the first of a list.

ghost use Rattle.std.specs.Prelude.{◌≡◌};
ghost use Rattle.net_conf.specs.PluginTypes.{HaveTypesOnce};

use cni_addr::{Items, Mac, Text};
use std::marker::Model;

/// The configuration of `portmap`: whether the runtime hands it the port mappings (its `capabilities`), and whether
/// traffic to the ports from the container's own network, and of IPv4 from the host itself, is masqueraded.
#[derive(Clone, Copy, PartialEq, Eq)]
pub struct PortmapConf {
    pub mappings: bool,
    pub snat: bool,
}

/// The configuration of `firewall`, of which nothing is kept.
#[derive(Clone, Copy, PartialEq, Eq)]
pub struct FirewallConf;

/// A kernel setting and the value that it gets.
#[derive(PartialEq, Eq, Drop)]
pub struct Sysctl {
    pub key: Text,
    pub value: Text,
}

/// The configuration of `tuning`. In a list that is read, each key of `sysctl` begins with `net.` and comes once, and
/// an MTU passes [`is_mtu`](crate::is_mtu).
#[derive(PartialEq, Eq, Drop)]
pub struct TuningConf {
    pub sysctl: Items<Sysctl>,
    pub mac: Option<Mac>,
    pub mtu: Option<u32>,
    pub promisc: bool,
    pub allmulti: bool,
    pub tx_qlen: Option<u32>,
}

/// A later plugin of a list.
#[derive(PartialEq, Eq, Drop)]
pub enum Chained {
    Portmap(PortmapConf),
    Firewall(FirewallConf),
    Tuning(TuningConf),
}

/// Later plugins in the order of ADD, of which each type comes at most once.
#[derive(PartialEq, Eq, Drop)]
pub struct ChainedPlugins {
    plugins: Items<Chained>,
}

impl Model for ChainedPlugins {
    ghost use Rattle.std.specs.Prelude.{List};
    ghost use Rattle.net_conf.specs.declared.chained.Chained.{Chained};

    ghost Value = { List Chained };

    ghost use Rattle.net_conf.specs.PluginTypes.{HaveTypesOnce};

    ghost view = { λ c. c.plugins };

    ghost invariant = { λ c. HaveTypesOnce c.plugins };

    ghost inverse = { λ v. record { plugins = v } };
}

impl ChainedPlugins {
    /// The plugins of a list of them. Takes no memory.
    pub fn of_items(plugins: Items<Chained>) -> ChainedPlugins
        requires { HaveTypesOnce plugins }
        ensures { result ≡ plugins }
    {
        ChainedPlugins { plugins }
    }

    /// The plugins in order. Takes no memory.
    pub fn as_slice(&self) -> &[Chained]
        ensures { result.now ≡ self.now }
    {
        self.plugins.as_slice()
    }
}
