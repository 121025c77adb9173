//! What a command is answered, and why an attachment's verb refuses.

use cni_addr::{Items, RefCounted, Text};
use cni_result::{AddResult, CniError, Version};
use kernel_types::{AddrObj, Call, Lease, Link, RouteObj, Rule, Setting, Tag};

/// A verb that a list disables (`disableCheck`, `disableGC`).
#[derive(Clone, Copy, PartialEq, Eq)]
pub enum Skip {
    Check,
    Gc,
}

/// What a command is answered. `OutOfMemory` and `Stopped` are given by the book, all else by the command's run.
#[derive(PartialEq, Eq, Drop)]
pub enum Answer {
    /// An ADD made its attachment.
    Added(RefCounted<AddResult>),
    /// The verb did what it was asked.
    Yes,
    /// The list disables the verb.
    Skipped(Skip),
    /// The version of the list, beside those that are supported.
    Versions(Version),
    /// The verb refused.
    Refused(CniError),
    /// Memory was refused.
    OutOfMemory,
    /// The command was stopped after so many calls.
    Stopped { calls: u32 },
}

/// Which of a command's fields are outside their grammar.
#[derive(Clone, Copy, PartialEq, Eq)]
pub struct WrongFields {
    pub container: bool,
    pub netns: bool,
    pub ifname: bool,
    pub args: bool,
}

/// An object that a check found missing. It shares the object that was asked for, and its error names that.
#[derive(PartialEq, Eq, Drop)]
pub enum Missed {
    /// The bridge of this name, with the MAC address of the result.
    Bridge(Text),
    Link(RefCounted<Link>),
    Address(RefCounted<AddrObj>),
    Route(RefCounted<RouteObj>),
    /// The number counts the wanted rules from 1.
    Rule { rule: RefCounted<Rule>, number: u64 },
    Setting(RefCounted<Setting>),
    Lease(RefCounted<Lease>),
}

/// Why a verb refuses.
#[derive(PartialEq, Eq, Drop)]
pub enum Cause {
    /// Fields of the command are outside their grammar (code 4).
    BadFields(WrongFields),
    /// The argument `IP` was given this value (code 2).
    IpArgument(Text),
    /// A port mapping can't be taken (code 7).
    BadMapping,
    /// The command's namespace isn't there (code 100).
    NoNamespace,
    /// An object with this tag stands in the way (code 101).
    NameTaken(Tag),
    /// The range set of this number, from 0, has no free address (code 102).
    PoolEmpty(u32),
    /// The `master` of `macvlan` can't be used (code 7).
    NoMaster,
    /// The call of this number, from 1, was a fault (code 103).
    Fault(u64),
    /// The calls of these numbers, from 1, were faults, and the verb went on (code 103).
    Faults(Items<u64>),
    /// The list is of this version, which is older than the verb (code 1).
    TooOld(Version),
    /// The attachment has no cached result (code 3).
    Unknown,
    /// The range set of this number, from 0, has no free address to give (code 50).
    NoFreeAddress(u32),
    /// The `master` of `macvlan` of this name isn't there (code 50).
    MasterAbsent(Text),
    /// What was to be taken away isn't there (code 105).
    NothingThere,
    /// An object that the cached result names isn't there (code 110).
    Missing(Missed),
}

/// A call that asks something, and why the verb refuses where the answer is no.
#[derive(PartialEq, Eq, Drop)]
pub struct Question {
    pub call: RefCounted<Call>,
    pub lack: Cause,
}

/// How a run ends. The result of an ADD is made from the addresses that it was leased, when it is asked for.
#[derive(PartialEq, Eq, Drop)]
pub enum Ending {
    Added,
    Yes,
    Skipped(Skip),
    Versions,
    Refused(Cause),
}
