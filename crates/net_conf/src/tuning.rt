//! The `tuning` plugin.

ghost use Rattle.std.specs.Prelude.{◌≡◌, codes};
ghost use Rattle.serde_json.specs.View.{view, members_view};
ghost use Rattle.cni_json.specs.Outcome.{Gives};
ghost use Rattle.net_conf.specs.Refusals.{is_out_of_memory};
ghost use Rattle.net_conf.specs.Tuning as defined;

use crate::chained::{Sysctl, TuningConf};
use crate::error::{ConfError, invalid, unsupported};
use crate::members::{flag, given_mtu};
use cni_addr::{Items, Mac, Text, read_mac};
use cni_json::{Field, Map, Value, field_str, field_u32, member};
use std::alloc::Global;

/// The configuration of the `tuning` plugin, from its object in a list.
#[tactic(auto, using(cni_json::proofs::Steps::steps), unfolding(crate::specs::Tuning::tuning_at))]
pub fn tuning(alloc: Global, object: &Value) -> Result<TuningConf, ConfError>
    ensures { Gives is_out_of_memory result (defined.tuning_at (view object.now)) }
{
    let sysctl = sysctl(alloc, object)?;
    let mac = new_mac(alloc, object)?;
    let mtu = given_mtu(alloc, object)?;
    let promisc = flag(alloc, object, "promisc", false)?;
    let allmulti = flag(alloc, object, "allmulti", false)?;
    let tx_qlen = queue_length(alloc, object)?;
    Ok(TuningConf {
        sysctl,
        mac,
        mtu,
        promisc,
        allmulti,
        tx_qlen,
    })
}

#[tactic(auto, using(cni_json::proofs::Steps::steps), unfolding(crate::specs::Tuning::sysctl_at))]
fn sysctl(alloc: Global, object: &Value) -> Result<Items<Sysctl>, ConfError>
    ensures { Gives is_out_of_memory result (defined.sysctl_at (view object.now)) }
{
    match member(object, "sysctl") {
        None => Ok(Items::new(alloc)),
        Some(Value::Object(members)) => settings(alloc, members),
        Some(_) => Err(invalid(alloc, "sysctl")),
    }
}

#[tactic(auto, using(cni_json::proofs::Steps::steps, crate::proofs::TuningLemmas::settings))]
fn settings(alloc: Global, members: &Map<String, Value>) -> Result<Items<Sysctl>, ConfError>
    ensures { Gives is_out_of_memory result (defined.settings_of (members_view members.now.entries)) }
{
    let mut found = Items::new(alloc);
    for (key, member) in members.iter() {
        if !member.is_null() {
            let setting = setting(alloc, key.as_str(), member)?;
            found.push(setting)?;
        }
    }
    Ok(found)
}

#[tactic(auto, using(cni_json::proofs::Steps::steps))]
fn setting(alloc: Global, key: &str, member: &Value) -> Result<Sysctl, ConfError>
    ensures { Gives is_out_of_memory result (defined.read_setting_of key.now (view member.now)) }
{
    match member {
        Value::String(text) => {
            if !is_network_setting(key) {
                Err(invalid(alloc, "sysctl"))
            } else if names_interface(key) {
                Err(unsupported(alloc, key, member))
            } else {
                Ok(Sysctl {
                    key: Text::of(alloc, key)?,
                    value: Text::of(alloc, text.as_str())?,
                })
            }
        }
        _ => Err(invalid(alloc, "sysctl")),
    }
}

fn is_network_setting(key: &str) -> bool
    ensures { result ≡ defined.is_network_setting key.now }
{
    key.as_bytes().starts_with(b"net.")
}

/// Whether the key has the place of an interface's name, as the `tuning` plugin of the CNI project writes it.
fn names_interface(key: &str) -> bool
    ensures { result ≡ defined.has_part (codes "IFNAME") key.now }
{
    has_part(key.as_bytes(), b"IFNAME")
}

#[tactic(auto, using(crate::proofs::TuningLemmas::parts))]
fn has_part(text: &[u8], part: &[u8]) -> bool
    ensures { result ≡ defined.has_part part.now text.now }
{
    for start in 0..text.len() {
        if text[start..].starts_with(part) {
            return true;
        }
    }
    false
}

#[tactic(auto, using(cni_json::proofs::Steps::steps), unfolding(crate::specs::Tuning::new_mac_at))]
fn new_mac(alloc: Global, object: &Value) -> Result<Option<Mac>, ConfError>
    ensures { Gives is_out_of_memory result (defined.new_mac_at (view object.now)) }
{
    match field_str(object, "mac") {
        Field::Absent | Field::Here("") => Ok(None),
        Field::Here(text) => read_mac(text.as_bytes())
            .map(Some)
            .ok_or_else(|| invalid(alloc, "mac")),
        Field::WrongKind => Err(invalid(alloc, "mac")),
    }
}

#[tactic(auto, using(cni_json::proofs::Steps::steps), unfolding(crate::specs::Tuning::queue_length_at))]
fn queue_length(alloc: Global, object: &Value) -> Result<Option<u32>, ConfError>
    ensures { Gives is_out_of_memory result (defined.queue_length_at (view object.now)) }
{
    match field_u32(object, "txQLen") {
        Field::Absent => Ok(None),
        Field::Here(number) => Ok(Some(number)),
        Field::WrongKind => Err(invalid(alloc, "txQLen")),
    }
}
