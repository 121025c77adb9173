//! What is to be done, and one entry of what was done.

use cni_addr::{Items, RefCounted};
use cni_errors::Answer;
use kernel_types::{Call, Reply};
use net_conf::NetList;
use pod_file::Pods;

/// Network lists and a pod file, and the number of the history's entry after which its round is stopped.
#[derive(PartialEq, Eq, Drop)]
pub struct Plan {
    /// Each shared by the runs of its commands.
    pub lists: Items<RefCounted<NetList>>,
    pub pods: Pods,
    pub stop_at: Option<u32>,
}

/// Why lists and pods make no plan.
#[derive(Clone, Copy, Debug, PartialEq, Eq)]
pub enum PlanError {
    /// The list at this place, from 0, has the name of an earlier one.
    SameName { list: u32 },
    /// The command of this number is of a network that no list has.
    NoNetwork { command: u32 },
}

/// One call of one command, and its reply.
#[derive(PartialEq, Eq, Drop)]
pub struct Entry {
    /// The command's number in the file, from 1.
    pub command: u32,
    /// Shared with the run that made it, where the run keeps it.
    pub call: RefCounted<Call>,
    pub reply: Reply,
}

// Most of a long run's memory is its history, an entry for each call.
const _: () = prove!(size_of::<Entry>() == 64);

/// What a step came to: a call was made, or the command got its answer.
#[derive(Clone, Copy, Debug, PartialEq, Eq)]
pub enum StepEnd {
    Went,
    Over,
}

/// What a step is to do: give the command its answer, or make a call, which is a fault where the command lists it.
#[derive(Drop)]
pub enum Next {
    Answer(Answer),
    Call {
        call: RefCounted<Call>,
        faulty: bool,
    },
}
