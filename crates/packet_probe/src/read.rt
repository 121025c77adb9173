//! The reader of packet files.

ghost use Rattle.std.specs.Prelude.{◌≡◌, ◌≤◌, ◌<◌, [], length};
ghost use Rattle.serde_json.specs.View.{view, items_view};
ghost use Rattle.cni_json.specs.Each.{each_after};
ghost use Rattle.cni_json.specs.Outcome.{Gives};
ghost use Rattle.packet_probe.specs.PacketFile as defined;
ghost use Rattle.packet_probe.specs.Refusals.{is_out_of_memory};

use crate::error::PacketsError;
use crate::packet::Packet;
use cni_addr::{Addr, Items, read_addr};
use cni_json::{Field, ReadEnd, Value, field_bool, field_str, field_u64, need_object};
use cni_result::{Proto, proto_named};
use std::alloc::Global;

/// The most packets of a file.
const MOST_PACKETS: usize = 65_536;

/// The packets that the bytes spell, in their order, or the first refusal: a list of objects.
///
/// Each has `protocol` (`tcp`, `udp` or `sctp`), the addresses `src` and `dst`, which have one family, and the port
/// `dport`, 1 to 65535; `established` may be absent, and is false then. A member that is null is as an absent one, and
/// unnamed members are ignored. It takes time and memory in proportion to the bytes.
#[tactic(auto, using(cni_json::proofs::Steps::steps), unfolding(crate::specs::PacketFile::packets_of))]
pub fn read_packets(alloc: Global, bytes: &[u8]) -> Result<Items<Packet>, PacketsError>
    ensures { Gives is_out_of_memory result (defined.packets_of bytes.now) }
{
    match cni_json::read(alloc, bytes) {
        Ok(top) => packets(alloc, &top),
        Err(ReadEnd::Decode) => Err(PacketsError::Decode),
        Err(ReadEnd::Number) => Err(PacketsError::Number),
        Err(ReadEnd::NoMemory) => Err(PacketsError::NoMemory),
    }
}

#[tactic(auto, using(cni_json::proofs::Steps::steps), unfolding(crate::specs::PacketFile::packets_at))]
fn packets(alloc: Global, top: &Value) -> Result<Items<Packet>, PacketsError>
    ensures { Gives is_out_of_memory result (defined.packets_at (view top.now)) }
{
    match top {
        Value::Array(members) => few_packets(alloc, members.as_slice()),
        _ => Err(PacketsError::List),
    }
}

#[tactic(auto, using(crate::proofs::Members::counted))]
fn few_packets(alloc: Global, list: &[Value]) -> Result<Items<Packet>, PacketsError>
    ensures { Gives is_out_of_memory result (defined.few_packets (items_view list.now)) }
{
    if list.len() <= MOST_PACKETS {
        all_packets(alloc, list)
    } else {
        Err(PacketsError::List)
    }
}

#[tactic(auto, using(cni_json::proofs::Steps::steps))]
fn all_packets(alloc: Global, list: &[Value]) -> Result<Items<Packet>, PacketsError>
    requires { length list.now ≤ defined.most_packets }
    ensures { Gives is_out_of_memory result (each_after defined.next_packet [] (items_view list.now)) }
{
    let mut found = Items::new(alloc);
    for member in list {
        let next = next_packet(found.as_slice(), member)?;
        found.push(next)?;
    }
    Ok(found)
}

fn next_packet(before: &[Packet], member: &Value) -> Result<Packet, PacketsError>
    requires { length before.now < defined.most_packets }
    ensures { Gives is_out_of_memory result (defined.next_packet before.now (view member.now)) }
{
    packet(before.len() as u32, member)
}

#[tactic(auto, using(cni_json::proofs::Steps::steps), unfolding(crate::specs::PacketFile::packet_at))]
fn packet(at: u32, member: &Value) -> Result<Packet, PacketsError>
    ensures { Gives is_out_of_memory result (defined.packet_at at (view member.now)) }
{
    need_object(member, || PacketsError::Packet { at })?;
    let protocol = protocol(at, member)?;
    let src = address(at, "src", member)?;
    let dst = address(at, "dst", member)?;
    let dport = port(at, member)?;
    let established = established(at, member)?;
    if src.family == dst.family {
        Ok(Packet {
            protocol,
            src,
            dst,
            dport,
            established,
        })
    } else {
        Err(PacketsError::Packet { at })
    }
}

#[tactic(auto, unfolding(crate::specs::PacketFile::protocol_at))]
fn protocol(at: u32, member: &Value) -> Result<Proto, PacketsError>
    ensures { result ≡ defined.protocol_at at (view member.now) }
{
    match field_str(member, "protocol") {
        Field::Absent | Field::WrongKind => Err(PacketsError::Packet { at }),
        Field::Here(text) => proto_named(text).ok_or(PacketsError::Packet { at }),
    }
}

#[tactic(auto, unfolding(crate::specs::PacketFile::address_at))]
fn address(at: u32, key: &str, member: &Value) -> Result<Addr, PacketsError>
    ensures { result ≡ defined.address_at at key.now (view member.now) }
{
    match field_str(member, key) {
        Field::Absent | Field::WrongKind => Err(PacketsError::Packet { at }),
        Field::Here(text) => read_addr(text.as_bytes()).ok_or(PacketsError::Packet { at }),
    }
}

#[tactic(auto, unfolding(crate::specs::PacketFile::port_at))]
fn port(at: u32, member: &Value) -> Result<u16, PacketsError>
    ensures { result ≡ defined.port_at at (view member.now) }
{
    match field_u64(member, "dport") {
        Field::Here(number) if 0 < number && number < 65_536 => Ok(number as u16),
        Field::Here(_) | Field::Absent | Field::WrongKind => Err(PacketsError::Packet { at }),
    }
}

#[tactic(auto, unfolding(crate::specs::PacketFile::established_at))]
fn established(at: u32, member: &Value) -> Result<bool, PacketsError>
    ensures { result ≡ defined.established_at at (view member.now) }
{
    match field_bool(member, "established") {
        Field::Absent => Ok(false),
        Field::WrongKind => Err(PacketsError::Packet { at }),
        Field::Here(established) => Ok(established),
    }
}
