//! What becomes of packets, as lines.

ghost use Rattle.std.specs.Prelude.{◌≡◌, ◌++◌, false, IfOk, OnOk};
ghost use Rattle.serde_json.specs.View.{view};
ghost use Rattle.serde_json.specs.Written.{has_float};
ghost use Rattle.pod_text.specs.Fates.{fate_data, fates_from};

use cni_addr::NoMemory;
use cni_json::JsonObject;
use kernel_text::push_line;
use kernel_types::Host;
use packet_probe::{Fate, Packet, Ruleset};
use serde_json::Value;
use std::alloc::Global;

#[tactic(auto, using(crate::proofs::Whole::fate_is_whole), unfolding(crate::specs::Fates::fate_data))]
fn fate_value(alloc: Global, place: u64, fate: &Fate) -> Result<Value, NoMemory>
    ensures json { IfOk result (λ v. view v ≡ fate_data place fate.now) }
    ensures numbers { IfOk result (λ v. has_float (view v) ≡ false) }
{
    let mut object = JsonObject::new(alloc);
    object.put("accepted", &fate.accepted)?;
    object.put("dport", &fate.dport)?;
    object.put("dst", &fate.dst)?;
    object.put("masqueraded", &fate.masqueraded)?;
    object.put("packet", &place)?;
    object.put("rewritten", &fate.rewritten)?;
    Ok(object.into_value())
}

fn push_each_fate(
    alloc: Global,
    rules: &Ruleset,
    packets: &[Packet],
    lines: &mut Vec<u8>,
) -> Result<(), NoMemory>
    ensures { OnOk result (lines.new.items ≡ lines.old.items ++ fates_from 0 rules.now packets.now) }
{
    for (place, packet) in packets.iter().enumerate() {
        let value = fate_value(alloc, place as u64, &rules.fate(packet))?;
        push_line(alloc, &value, lines)?;
    }
    Ok(())
}

/// Appends a line for each packet: what becomes of it by the host's rules, which are filed once for all of them.
pub(crate) fn push_fates(
    alloc: Global,
    host: &Host,
    packets: &[Packet],
    lines: &mut Vec<u8>,
) -> Result<(), NoMemory>
    ensures { OnOk result (lines.new.items ≡ lines.old.items ++ fates_from 0 host.now.rules packets.now) }
{
    if packets.is_empty() {
        return Ok(());
    }
    let rules = Ruleset::of(alloc, host.rules.as_slice())?;
    push_each_fate(alloc, &rules, packets, lines)
}
