//! What a verb asks of its command's fields, before its first call.

ghost use Rattle.std.specs.Prelude.{◌≡◌, ◌==◌, ◌&&◌, not, length, Some, None, is_some, find, option_map};
ghost use Rattle.std.specs.Prelude.{option_to_list, IfOk};
ghost use Rattle.std.specs.List.{list_all, list_any, slice_split};
ghost use Rattle.std.specs.Option.{option_copied};
ghost use Rattle.std.specs.Str.{bytes_eq};
ghost use Rattle.cni_errors.specs.CommandFields as fields;

use crate::answer::{Cause, WrongFields};
use cni_addr::{Addr, Duplicate, NoMemory, Text, read_addr};
use cni_result::{PortMapping, Proto, proto_named};
use kernel_types::terms::is_host_ns;
use kernel_types::{Att, NamedAtt};
use net_conf::{is_container_id, is_interface_name};
use pod_file::{Command, RawMapping};
use std::alloc::Global;

/// The attachment that the command speaks of.
pub fn att_of(command: &Command) -> Result<Att, NoMemory>
    ensures { IfOk result (λ att. att ≡ fields.att_of command.now) }
{
    Ok(Att {
        network: command.network.copy()?,
        container: command.container.copy()?,
        ifname: command.ifname.copy()?,
    })
}

/// The attachment that the command speaks of, with the names that are derived from it.
pub fn named_att_of(alloc: Global, command: &Command) -> Result<NamedAtt, NoMemory>
    ensures { IfOk result (λ att. att ≡ fields.att_of command.now) }
{
    NamedAtt::of(alloc, att_of(command)?)
}

// ---- arguments

fn has_equals_sign(text: &str) -> bool
    ensures { result ≡ list_any (λ b. b == fields.equals_sign) text.now }
{
    text.bytes().any(|byte| byte == b'=')
}

fn is_pair(key: &str, value: &str) -> bool
    ensures { result ≡ (not (length key.now == 0) && not (list_any (λ b. b == fields.equals_sign) value.now)) }
{
    !key.is_empty() && !has_equals_sign(value)
}

fn argument_of(piece: &str) -> Option<(&str, &str)>
    ensures { option_map (λ pair. (pair.0.now, pair.1.now)) result ≡ fields.argument_of piece.now }
{
    match piece.split_once('=') {
        Some((key, value)) => {
            if is_pair(key, value) {
                Some((key, value))
            } else {
                None
            }
        }
        None => None,
    }
}

fn is_argument(piece: &str) -> bool
    ensures { result ≡ is_some (fields.argument_of piece.now) }
{
    argument_of(piece).is_some()
}

fn all_arguments(text: &str) -> bool
    ensures { result
        ≡ list_all (λ piece. is_some (fields.argument_of piece)) (slice_split (λ b. b == fields.semicolon) text.now) }
{
    text.split(';').all(|piece| is_argument(piece))
}

/// Whether the text is nothing, or `KEY=VALUE` pairs that `;` joins (CNI specification, section 2, `CNI_ARGS`). No key
/// is empty, and `=` stands once in each pair. Takes no memory.
#[tactic(auto, unfolding(crate::specs::CommandFields::are_arguments))]
pub fn are_arguments(text: &str) -> bool
    ensures { result ≡ fields.are_arguments text.now }
{
    text.is_empty() || all_arguments(text)
}

fn value_if<'a>(key: &str, piece: &'a str) -> Option<&'a str>
    ensures { option_copied result
        ≡ option_map (λ pair. pair.1)
        (find (λ pair. bytes_eq pair.0 key.now) (option_to_list (fields.argument_of piece.now))) }
{
    match argument_of(piece) {
        Some((own, value)) => { if own == key { Some(value) } else { None } }
        None => None,
    }
}

/// The value of the first pair with this key, if there is one. What isn't a pair is ignored. Takes no memory.
pub fn value_of_argument<'a>(key: &str, text: &'a str) -> Option<&'a str>
    ensures { option_copied result ≡ fields.value_of_argument key.now text.now }
{
    let mut rest = text;
    'pieces: loop {
        match rest.split_once(';') {
            Some((piece, later)) => match value_if(key, piece) {
                Some(value) => return Some(value),
                None => rest = later,
            },
            None => return value_if(key, rest),
        }
    }
}

// ---- port mappings

fn proto_of(text: &str) -> Option<Proto>
    ensures { result ≡ fields.proto_of text.now }
{
    if text.is_empty() {
        Some(Proto::Tcp)
    } else {
        proto_named(text)
    }
}

fn is_any_host(text: &str) -> bool
    ensures { result ≡ fields.is_any_host text.now }
{
    text.is_empty() || text == "0.0.0.0" || text == "::"
}

fn host_ip_of(text: &str) -> Option<Option<Addr>>
    ensures { result ≡ fields.host_ip_of text.now }
{
    if is_any_host(text) {
        return Some(None);
    }
    match read_addr(text.as_bytes()) {
        Some(addr) => Some(Some(addr)),
        None => None,
    }
}

fn is_port(number: u64) -> bool
    ensures { result ≡ fields.is_port number }
{
    0 < number && number < 65536
}

fn mapping_by(
    host_port: u64,
    container_port: u64,
    protocol: Proto,
    host_ip: Option<Addr>,
) -> Option<PortMapping>
    ensures { result ≡ fields.mapping_by host_port container_port (Some protocol) (Some host_ip) }
{
    if is_port(host_port) && is_port(container_port) {
        Some(PortMapping {
            host_port: host_port as u16,
            container_port: container_port as u16,
            protocol,
            host_ip,
        })
    } else {
        None
    }
}

/// The mapping, where both ports are 1 to 65535, the protocol is `tcp`, `udp`, `sctp` or not given, and the address is
/// one or not given (the `portMappings` capability). `0.0.0.0` and `::` restrict no more than no address does. Takes no
/// memory.
pub fn mapping_of(raw: &RawMapping) -> Option<PortMapping>
    ensures { result ≡ fields.mapping_of raw.now }
{
    let protocol = proto_of(raw.protocol.as_str())?;
    let host_ip = host_ip_of(raw.host_ip.as_str())?;
    mapping_by(raw.host_port, raw.container_port, protocol, host_ip)
}

fn can_be_taken(raw: &RawMapping) -> bool
    ensures { result ≡ is_some (fields.mapping_of raw.now) }
{
    mapping_of(raw).is_some()
}

// ---- the tests, in order

/// Whether some field is outside its grammar. Takes no memory.
pub fn any_wrong(wrong: WrongFields) -> bool
    ensures { result ≡ fields.any_wrong wrong }
{
    wrong.container || wrong.netns || wrong.ifname || wrong.args
}

/// Each field is as its grammar wants it. Takes no memory.
pub fn none_wrong() -> WrongFields
    ensures { result ≡ fields.none_wrong }
{
    WrongFields {
        container: false,
        netns: false,
        ifname: false,
        args: false,
    }
}

fn wrong_for_del(command: &Command) -> WrongFields
    ensures { result ≡ fields.wrong_for_del command.now }
{
    WrongFields {
        container: !is_container_id(command.container.as_str()),
        ifname: !is_interface_name(command.ifname.as_str()),
        ..none_wrong()
    }
}

fn wrong_for_add(command: &Command) -> WrongFields
    ensures { result ≡ fields.wrong_for_add command.now }
{
    WrongFields {
        netns: is_host_ns(command.netns.as_str()),
        args: !are_arguments(command.args.as_str()),
        ..wrong_for_del(command)
    }
}

fn all_can_be_taken(raws: &[RawMapping]) -> bool
    ensures { result ≡ list_all (λ raw. is_some (fields.mapping_of raw)) raws.now }
{
    raws.iter().all(|raw| can_be_taken(raw))
}

fn mapping_refusal(command: &Command) -> Option<Cause>
    ensures { result ≡ fields.by_ip_argument command.now None }
{
    if all_can_be_taken(command.mappings.as_slice()) {
        None
    } else {
        Some(Cause::BadMapping)
    }
}

/// Why an ADD refuses its fields, if it does: fields outside their grammar come before the argument `IP`, and that
/// before the mappings.
#[tactic(auto, unfolding(crate::specs::CommandFields::add_refusal))]
pub fn add_refusal(alloc: Global, command: &Command) -> Result<Option<Cause>, NoMemory>
    ensures { IfOk result (λ cause. cause ≡ fields.add_refusal command.now) }
{
    if let Some(cause) = refusal_by(wrong_for_add(command)) {
        return Ok(Some(cause));
    }
    match value_of_argument("IP", command.args.as_str()) {
        Some(value) => Ok(Some(Cause::IpArgument(Text::of(alloc, value)?))),
        None => Ok(mapping_refusal(command)),
    }
}

fn refusal_by(wrong: WrongFields) -> Option<Cause>
    ensures { result ≡ fields.refusal_by wrong }
{
    if any_wrong(wrong) {
        Some(Cause::BadFields(wrong))
    } else {
        None
    }
}

/// Why a DEL or a CHECK refuses its fields, if it does. They need neither a namespace nor arguments. Takes no memory.
#[tactic(auto, unfolding(crate::specs::CommandFields::del_refusal))]
pub fn del_refusal(command: &Command) -> Option<Cause>
    ensures { result ≡ fields.del_refusal command.now }
{
    refusal_by(wrong_for_del(command))
}

/// Why a change of a namespace refuses its fields, if it does: it needs the namespace. Takes no memory.
#[tactic(auto, unfolding(crate::specs::CommandFields::netns_refusal))]
pub fn netns_refusal(command: &Command) -> Option<Cause>
    ensures { result ≡ fields.netns_refusal command.now }
{
    refusal_by(WrongFields {
        netns: is_host_ns(command.netns.as_str()),
        ..none_wrong()
    })
}

/// Why the loss of a link refuses its fields, if it does: it needs the namespace and the link's name. Takes no memory.
#[tactic(auto, unfolding(crate::specs::CommandFields::drop_refusal))]
pub fn drop_refusal(command: &Command) -> Option<Cause>
    ensures { result ≡ fields.drop_refusal command.now }
{
    refusal_by(WrongFields {
        netns: is_host_ns(command.netns.as_str()),
        ifname: !is_interface_name(command.ifname.as_str()),
        ..none_wrong()
    })
}
