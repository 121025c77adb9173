//! What one plugin does, by its configuration.

ghost use Rattle.std.specs.Prelude.{◌≡◌, ◌<◌, length, IfOk};
ghost use Rattle.std.specs.Option.{option_copied};
ghost use Rattle.plugin_chain.specs.Plugins.{chained_plugin_of, plugin_of};

use bridge_ptp::{
    bridge_after, bridge_before, bridge_kinds, bridge_result, ptp_after, ptp_before, ptp_kinds,
    ptp_result,
};
use cni_addr::{Items, NoMemory, Text};
use cni_result::{AddResult, PortMapping};
use firewall_tuning::{
    firewall_calls, firewall_kinds, firewall_result, tuning_calls, tuning_kinds, tuning_result,
};
use kernel_types::{Att, Call, Given, Kind, NamedAtt};
use net_conf::{Chained, First, HostLocalConf};
use std::alloc::Global;

// ---- the first plugin

/// What it asks of `host-local`, if it does. Takes no memory.
#[tactic(auto, unfolding(crate::specs::Plugins::plugin_of))]
pub fn ipam_of(first: &First) -> Option<&HostLocalConf>
    ensures { option_copied result ≡ (plugin_of first.now).ipam }
{
    match first {
        First::Bridge(conf) => conf.ipam.as_ref(),
        First::Ptp(conf) => Some(&conf.ipam),
        First::Macvlan(conf) => conf.ipam.as_ref(),
    }
}

/// Its calls before an address is leased: at least the one that makes its link.
#[tactic(auto, unfolding(crate::specs::Plugins::plugin_of))]
pub fn calls_before(
    alloc: Global,
    first: &First,
    att: &NamedAtt,
    netns: &Text,
) -> Result<Items<Call>, NoMemory>
    ensures calls { IfOk result (λ calls. calls ≡ (plugin_of first.now).calls_before att.now netns.now) }
    ensures some { IfOk result (λ calls. 0 < length calls) }
{
    match first {
        First::Bridge(conf) => bridge_before(alloc, conf, att, netns),
        First::Ptp(conf) => ptp_before(alloc, conf, att, netns),
        First::Macvlan(conf) => macvlan::before(alloc, conf, att, netns),
    }
}

/// Its calls after the leases, with what was given of each range set.
#[tactic(auto, unfolding(crate::specs::Plugins::plugin_of))]
pub fn calls_after(
    alloc: Global,
    first: &First,
    att: &NamedAtt,
    netns: &Text,
    given: &[Given],
) -> Result<Items<Call>, NoMemory>
    ensures { IfOk result (λ calls. calls ≡ (plugin_of first.now).calls_after att.now netns.now given.now) }
{
    match first {
        First::Bridge(conf) => bridge_after(alloc, conf, att.att(), netns, given),
        First::Ptp(conf) => ptp_after(alloc, conf, att, netns, given),
        First::Macvlan(conf) => macvlan::after(alloc, conf, att.att(), netns, given),
    }
}

/// Its result, where `host-local` gave this one.
#[tactic(auto, unfolding(crate::specs::Plugins::plugin_of))]
pub fn first_result(
    alloc: Global,
    first: &First,
    att: &NamedAtt,
    netns: &Text,
    ipam: &AddResult,
) -> Result<AddResult, NoMemory>
    ensures { IfOk result (λ r. r ≡ (plugin_of first.now).result att.now netns.now ipam.now) }
{
    match first {
        First::Bridge(conf) => bridge_result(alloc, conf, att, netns, ipam),
        First::Ptp(conf) => ptp_result(alloc, conf, att, netns, ipam),
        First::Macvlan(conf) => macvlan::result(alloc, conf, att, netns, ipam),
    }
}

/// The kinds of its objects that a DEL takes back.
#[tactic(auto, unfolding(crate::specs::Plugins::plugin_of))]
pub fn first_kinds(alloc: Global, first: &First) -> Result<Items<Kind>, NoMemory>
    ensures { IfOk result (λ kinds. kinds ≡ (plugin_of first.now).kinds) }
{
    match first {
        First::Bridge(conf) => bridge_kinds(alloc, conf),
        First::Ptp(conf) => ptp_kinds(alloc, conf),
        First::Macvlan(conf) => macvlan::kinds(alloc, conf),
    }
}

/// The bridge that its link is under. Takes no memory.
#[tactic(auto, unfolding(crate::specs::Plugins::plugin_of))]
pub fn bridge_of(first: &First) -> Option<&Text>
    ensures { option_copied result ≡ (plugin_of first.now).bridge }
{
    match first {
        First::Bridge(conf) => Some(conf.bridge.name()),
        First::Ptp(_) | First::Macvlan(_) => None,
    }
}

/// The link of the host that its link is over. Takes no memory.
#[tactic(auto, unfolding(crate::specs::Plugins::plugin_of))]
pub fn master_of(first: &First) -> Option<&Text>
    ensures { option_copied result ≡ (plugin_of first.now).master }
{
    match first {
        First::Macvlan(conf) => Some(&conf.master),
        First::Bridge(_) | First::Ptp(_) => None,
    }
}

// ---- the chained plugins

/// Whether it asks for port mappings (the capability `portMappings`). Takes no memory.
#[tactic(auto, unfolding(crate::specs::Plugins::chained_plugin_of))]
pub fn takes_mappings(chained: &Chained) -> bool
    ensures { result ≡ (chained_plugin_of chained.now).takes_mappings }
{
    match chained {
        Chained::Portmap(conf) => conf.mappings,
        Chained::Firewall(_) => false,
        Chained::Tuning(_) => false,
    }
}

/// Its calls, where the plugin before it gave the result `prev`.
#[tactic(auto, unfolding(crate::specs::Plugins::chained_plugin_of))]
pub fn chained_calls(
    alloc: Global,
    chained: &Chained,
    att: &Att,
    netns: &Text,
    mappings: &[PortMapping],
    prev: &AddResult,
) -> Result<Items<Call>, NoMemory>
    ensures { IfOk result (λ calls.
        calls ≡ (chained_plugin_of chained.now).calls att.now netns.now mappings.now prev.now.ips) }
{
    match chained {
        Chained::Portmap(conf) => portmap::calls(alloc, conf, att, mappings, prev),
        Chained::Firewall(_) => firewall_calls(alloc, att, prev),
        Chained::Tuning(conf) => tuning_calls(alloc, conf, att, netns),
    }
}

/// Its result: `prev` with what it changes.
#[tactic(auto, unfolding(crate::specs::Plugins::chained_plugin_of))]
pub fn chained_result(
    alloc: Global,
    chained: &Chained,
    prev: AddResult,
) -> Result<AddResult, NoMemory>
    ensures { IfOk result (λ r. r ≡ (chained_plugin_of chained.now).result prev) }
{
    match chained {
        Chained::Portmap(_) => Ok(portmap::result(prev)),
        Chained::Firewall(_) => Ok(firewall_result(prev)),
        Chained::Tuning(conf) => {
            let tuned = tuning_result(alloc, conf, &prev);
            drop(prev);
            tuned
        }
    }
}

/// The kinds of its objects that a DEL takes back. Takes no memory.
#[tactic(auto, unfolding(crate::specs::Plugins::chained_plugin_of))]
pub fn chained_kinds(chained: &Chained) -> [Kind; 1]
    ensures { result ≡ (chained_plugin_of chained.now).kinds }
{
    match chained {
        Chained::Portmap(_) => portmap::kinds(),
        Chained::Firewall(_) => firewall_kinds(),
        Chained::Tuning(_) => tuning_kinds(),
    }
}
