//! What an error says by its kind: its code, and the title that its message begins with (CNI specification, section 5,
//! "Error").

ghost use Rattle.std.specs.Prelude.{◌≡◌, IfOk};
ghost use Rattle.cni_errors.specs.ErrorKinds as kinds;

use cni_addr::{NoMemory, Text};
use cni_result::{CniError, Version};
use std::alloc::Global;

/// What went wrong. The codes below 100 are the specification's, those from 100 on this project's own, and so are the
/// titles.
#[derive(Clone, Copy)]
pub enum ErrorKind {
    /// A version that isn't supported, or is older than the verb (code 1).
    IncompatibleVersion,
    /// A key that asks for what isn't done (code 2).
    UnsupportedField,
    /// An attachment without a cached result (code 3).
    ContainerUnknown,
    /// Fields of a command outside their grammar (code 4).
    InvalidVariables,
    /// Bytes that are no JSON text (code 6).
    DecodingFailed,
    /// A network list that is wrong (code 7).
    InvalidList,
    /// A pod file that is wrong (code 7).
    InvalidPodFile,
    /// A packet file that is wrong (code 7).
    InvalidPacketFile,
    /// An ADD could not be served now (code 50).
    NotAvailable,
    /// A namespace that isn't there (code 100).
    NamespaceMissing,
    /// An object that stands in the way (code 101).
    NameTaken,
    /// A range set without a free address (code 102).
    PoolEmpty,
    /// Calls of the kernel that failed (code 103).
    KernelFault,
    /// Memory that was refused (code 104).
    OutOfMemory,
    /// Nothing to take away (code 105).
    NothingThere,
    /// An object of a cached result that isn't there (code 110).
    CheckFailed,
}

impl ErrorKind {
    /// The code. Takes no memory.
    pub fn code(self) -> u32
        ensures { result ≡ kinds.error_kind_code self }
    {
        match self {
            ErrorKind::IncompatibleVersion => 1,
            ErrorKind::UnsupportedField => 2,
            ErrorKind::ContainerUnknown => 3,
            ErrorKind::InvalidVariables => 4,
            ErrorKind::DecodingFailed => 6,
            ErrorKind::InvalidList | ErrorKind::InvalidPodFile | ErrorKind::InvalidPacketFile => 7,
            ErrorKind::NotAvailable => 50,
            ErrorKind::NamespaceMissing => 100,
            ErrorKind::NameTaken => 101,
            ErrorKind::PoolEmpty => 102,
            ErrorKind::KernelFault => 103,
            ErrorKind::OutOfMemory => 104,
            ErrorKind::NothingThere => 105,
            ErrorKind::CheckFailed => 110,
        }
    }

    /// What each message of the kind begins with. Takes no memory.
    pub fn title(self) -> &'static str
        ensures { result.now ≡ kinds.error_kind_title self }
    {
        match self {
            ErrorKind::IncompatibleVersion => "incompatible CNI version",
            ErrorKind::UnsupportedField => "unsupported field",
            ErrorKind::ContainerUnknown => "container unknown",
            ErrorKind::InvalidVariables => "invalid environment variables",
            ErrorKind::DecodingFailed => "decoding failed",
            ErrorKind::InvalidList => "invalid network configuration",
            ErrorKind::InvalidPodFile => "invalid pod file",
            ErrorKind::InvalidPacketFile => "invalid packet file",
            ErrorKind::NotAvailable => "not available",
            ErrorKind::NamespaceMissing => "namespace missing",
            ErrorKind::NameTaken => "name taken",
            ErrorKind::PoolEmpty => "pool empty",
            ErrorKind::KernelFault => "kernel fault",
            ErrorKind::OutOfMemory => "out of memory",
            ErrorKind::NothingThere => "nothing there",
            ErrorKind::CheckFailed => "check failed",
        }
    }

    /// The message that says no more than the title.
    pub fn message(self, alloc: Global) -> Result<Text, NoMemory>
        ensures { IfOk result (λ msg. msg ≡ kinds.error_kind_title self) }
    {
        Text::of(alloc, self.title())
    }

    /// The message that says after the title what it is about.
    pub fn message_about(self, alloc: Global, what: &str) -> Result<Text, NoMemory>
        ensures { IfOk result (λ msg. msg ≡ kinds.message_about self what.now) }
    {
        let title = self.title();
        Text::of(alloc, format!(in alloc; "{title}: {what}")?.as_str())
    }
}

/// The message of a field that asks for what isn't done, by its key and its value.
pub fn message_of_field(alloc: Global, key: &str, value: &str) -> Result<Text, NoMemory>
    ensures { IfOk result (λ msg. msg ≡ kinds.message_of_field key.now value.now) }
{
    let title = ErrorKind::UnsupportedField.title();
    Text::of(alloc, format!(in alloc; "{title} {key}: {value}")?.as_str())
}

/// An error without details that belongs to no list, in the newest version.
pub fn plain_error(alloc: Global, kind: ErrorKind, msg: Text) -> Result<CniError, NoMemory>
    ensures { IfOk result (λ error. error ≡ kinds.plain_error kind msg) }
{
    Ok(CniError {
        version: Version::V1_1,
        code: kind.code(),
        msg,
        details: Text::of(alloc, "")?,
    })
}

/// One that says no more than its title.
pub fn titled_error(alloc: Global, kind: ErrorKind) -> Result<CniError, NoMemory>
    ensures { IfOk result (λ error. error ≡ kinds.titled_error kind) }
{
    let msg = kind.message(alloc)?;
    plain_error(alloc, kind, msg)
}

/// The error of what was refused memory.
pub fn memory_error(alloc: Global) -> Result<CniError, NoMemory>
    ensures { IfOk result (λ error. error ≡ kinds.memory_error) }
{
    titled_error(alloc, ErrorKind::OutOfMemory)
}
