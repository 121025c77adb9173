//! The `tuning` plugin.

ghost use Rattle.std.specs.Prelude.{◌≡◌, ◌++◌, map, IfOk, OnOk};
ghost use Rattle.kernel_types.specs.Apply.Calls.{is_same_setting};
ghost use Rattle.cni_addr.specs.Lists.{each_key_once};
ghost use Rattle.firewall_tuning.specs.Tuning as plan;

use cni_addr::{Duplicate, Items, NoMemory, Text};
use cni_result::{AddResult, Interface, Version, mtu_since_1_1};
use kernel_types::{Att, Call, Kind, Setting, Tag};
use net_conf::{Sysctl, TuningConf};
use plugin_base::{EachKeyOnce, ask_all, inner_key};
use std::alloc::Global;

// ---- settings

fn setting_of(att: &Att, netns: &Text, sysctl: &Sysctl) -> Result<Setting, NoMemory>
    ensures { IfOk result (λ setting. setting ≡ plan.setting_of att.now netns.now sysctl.now) }
{
    Ok(Setting {
        ns: netns.copy()?,
        key: sysctl.key.copy()?,
        value: sysctl.value.copy()?,
        tag: Tag::Own(att.copy()?),
    })
}

fn settings_of(
    alloc: Global,
    att: &Att,
    netns: &Text,
    sysctls: &[Sysctl],
) -> Result<EachKeyOnce<Setting>, NoMemory>
    ensures { IfOk result
        (λ settings. settings
        ≡ each_key_once is_same_setting (map (plan.setting_of att.now netns.now) sysctls.now)) }
{
    let mut settings = EachKeyOnce::new(alloc);
    for sysctl in sysctls {
        settings.push(setting_of(att, netns, sysctl)?)?;
    }
    Ok(settings)
}

// ---- the container's link

/// Whether any value of the link is configured.
fn sets_any(conf: &TuningConf) -> bool
    ensures { result ≡ plan.sets_any conf.now }
{
    conf.mac.is_some()
        || (conf.mtu.is_some() || (conf.tx_qlen.is_some() || (conf.promisc || conf.allmulti)))
}

/// Puts the call at the end that changes the link, where any value of it is configured.
fn ask_link_values(
    calls: &mut Vec<Call>,
    conf: &TuningConf,
    att: &Att,
    netns: &Text,
) -> Result<(), NoMemory>
    ensures { OnOk result (calls.new.items ≡ calls.old.items ++ plan.link_set_calls conf.now att.now netns.now) }
{
    if sets_any(conf) {
        calls.push(Call::LinkSet {
            att: att.copy()?,
            key: inner_key(att, netns)?,
            mac: conf.mac,
            mtu: conf.mtu,
            tx_qlen: conf.tx_qlen,
            promisc: conf.promisc,
            allmulti: conf.allmulti,
        })?;
    }
    Ok(())
}

/// The settings of the namespace, and the values of the container's link where any is configured. Linear in the
/// settings.
pub fn tuning_calls(
    alloc: Global,
    conf: &TuningConf,
    att: &Att,
    netns: &Text,
) -> Result<Items<Call>, NoMemory>
    ensures { IfOk result (λ calls. calls ≡ plan.tuning_calls_of conf.now att.now netns.now) }
{
    let settings = settings_of(alloc, att, netns, conf.sysctl.as_slice())?;
    let mut calls = Vec::new(alloc);
    ask_all(&mut calls, settings)?;
    ask_link_values(&mut calls, conf, att, netns)?;
    Ok(Items::of_vec(calls))
}

// ---- the result

fn tuned_interface(
    conf: &TuningConf,
    version: Version,
    interface: &Interface,
) -> Result<Interface, NoMemory>
    ensures { IfOk result (λ i. i ≡ plan.tuned_interface conf.now version interface.now) }
{
    if interface.sandbox.is_none() {
        return interface.copy();
    }
    Ok(Interface {
        name: interface.name.copy()?,
        mac: conf.mac.or(interface.mac),
        mtu: mtu_since_1_1(version, conf.mtu).or(interface.mtu),
        sandbox: interface.sandbox.copy()?,
    })
}

fn tuned_interfaces(
    alloc: Global,
    conf: &TuningConf,
    version: Version,
    interfaces: &[Interface],
) -> Result<Items<Interface>, NoMemory>
    ensures { IfOk result (λ all. all ≡ map (plan.tuned_interface conf.now version) interfaces.now) }
{
    let mut all = Vec::with_capacity(alloc, interfaces.len())?;
    for interface in interfaces {
        all.push(tuned_interface(conf, version, interface)?)?;
    }
    Ok(Items::of_vec(all))
}

/// The result before, with the configured hardware address and MTU of the container's end. Linear in its lists.
pub fn tuning_result(
    alloc: Global,
    conf: &TuningConf,
    prev: &AddResult,
) -> Result<AddResult, NoMemory>
    ensures { IfOk result (λ r. r ≡ plan.tuning_result_of conf.now prev.now) }
{
    Ok(AddResult {
        version: prev.version,
        interfaces: tuned_interfaces(alloc, conf, prev.version, prev.interfaces.as_slice())?,
        ips: prev.ips.copy()?,
        routes: prev.routes.copy()?,
        dns: prev.dns.copy()?,
    })
}

/// The kinds of objects that DEL takes back.
pub fn tuning_kinds() -> [Kind; 1]
    ensures { result ≡ plan.tuning_kinds }
{
    [Kind::Settings]
}
