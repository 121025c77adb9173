//! Why a file or a plan is refused, as an error.

ghost use Rattle.std.specs.Prelude.{◌≡◌, IfOk};
ghost use Rattle.tool_plan.specs.Refusals as refusals;
ghost use Rattle.tool_plan.specs.Refusals.{error_about, blamed_file, list_error, packets_error, plan_error, pods_error};

use cni_addr::{NoMemory, Text};
use cni_errors::{ErrorKind, memory_error, message_of_field, plain_error, titled_error};
use cni_result::CniError;
use net_conf::ConfError;
use packet_probe::PacketsError;
use pod_file::PodError;
use pod_workers::PlanError;
use std::alloc::Global;

/// The error of a network list that is refused.
pub(crate) fn list_error(alloc: Global, error: &ConfError) -> Result<CniError, NoMemory>
    ensures { IfOk result (λ e. e ≡ list_error error.now) }
{
    match error {
        ConfError::Version { found } => {
            error_about(alloc, ErrorKind::IncompatibleVersion, found.as_str())
        }
        ConfError::Unsupported { key, value } => unsupported(alloc, key.as_str(), value.as_str()),
        ConfError::Decode => titled_error(alloc, ErrorKind::DecodingFailed),
        ConfError::Invalid { why } => invalid_list(alloc, why.as_str()),
        ConfError::NoMemory => memory_error(alloc),
    }
}

/// The error of a pod file that is refused.
pub(crate) fn pods_error(alloc: Global, error: &PodError) -> Result<CniError, NoMemory>
    ensures { IfOk result (λ e. e ≡ pods_error error.now) }
{
    match error {
        PodError::Decode => titled_error(alloc, ErrorKind::DecodingFailed),
        PodError::Number => invalid_pods(alloc, "number"),
        PodError::Shape { path } => invalid_pods(alloc, path.as_str()),
        PodError::Alone { round } => {
            let round = *round;
            let why = format!(in alloc; "rounds[{round}] is not alone")?;
            invalid_pods(alloc, why.as_str())
        }
        PodError::NoMemory => memory_error(alloc),
    }
}

/// The error of a packet file that is refused.
pub(crate) fn packets_error(alloc: Global, error: &PacketsError) -> Result<CniError, NoMemory>
    ensures { IfOk result (λ e. e ≡ packets_error error.now) }
{
    match error {
        PacketsError::Decode => titled_error(alloc, ErrorKind::DecodingFailed),
        PacketsError::Number => invalid_packets(alloc, "number"),
        PacketsError::List => invalid_packets(alloc, "list"),
        PacketsError::Packet { at } => {
            let at = *at;
            let why = format!(in alloc; "packets[{at}]")?;
            invalid_packets(alloc, why.as_str())
        }
        PacketsError::NoMemory => memory_error(alloc),
    }
}

/// The error of a plan that is refused.
pub(crate) fn plan_error(alloc: Global, error: PlanError) -> Result<CniError, NoMemory>
    ensures { IfOk result (λ e. e ≡ plan_error error) }
{
    match error {
        PlanError::SameName { .. } => invalid_list(alloc, "name"),
        PlanError::NoNetwork { command } => {
            let why = format!(in alloc; "no network for command {command}")?;
            invalid_pods(alloc, why.as_str())
        }
    }
}

/// The file that is to blame: the network list that has the name of an earlier one, or else the pod file.
pub(crate) fn blamed_file<'a>(pods: &'a str, lists: &'a [Text], error: PlanError) -> &'a str
    ensures { result.now ≡ blamed_file pods.entry.now lists.entry.now error }
{
    match error {
        PlanError::SameName { list } => match lists.get(list as usize) {
            Some(name) => name.as_str(),
            None => "",
        },
        PlanError::NoNetwork { .. } => pods,
    }
}

fn error_about(alloc: Global, kind: ErrorKind, what: &str) -> Result<CniError, NoMemory>
    ensures { IfOk result (λ e. e ≡ error_about kind what.now) }
{
    let msg = kind.message_about(alloc, what)?;
    plain_error(alloc, kind, msg)
}

fn unsupported(alloc: Global, key: &str, value: &str) -> Result<CniError, NoMemory>
    ensures { IfOk result (λ e. e ≡ list_error (ConfError.Unsupported key.now value.now)) }
{
    let msg = message_of_field(alloc, key, value)?;
    plain_error(alloc, ErrorKind::UnsupportedField, msg)
}

fn invalid_list(alloc: Global, why: &str) -> Result<CniError, NoMemory>
    ensures { IfOk result (λ e. e ≡ refusals.invalid_list why.now) }
{
    error_about(alloc, ErrorKind::InvalidList, why)
}

fn invalid_packets(alloc: Global, why: &str) -> Result<CniError, NoMemory>
    ensures { IfOk result (λ e. e ≡ refusals.invalid_packets why.now) }
{
    error_about(alloc, ErrorKind::InvalidPacketFile, why)
}

fn invalid_pods(alloc: Global, why: &str) -> Result<CniError, NoMemory>
    ensures { IfOk result (λ e. e ≡ refusals.invalid_pods why.now) }
{
    error_about(alloc, ErrorKind::InvalidPodFile, why)
}
