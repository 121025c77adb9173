//! What a session is to do.

use cni_addr::{Items, Text};
use kernel_types::Host;
use net_conf::HostLocalConf;
use plugin_registry::Opt;
use pod_file::{ValidAtt, Verb};

/// One task of a session. What a verb doesn't use is kept and not used.
#[derive(Drop)]
pub struct Task {
    /// ADD, CHECK, DEL or GC.
    pub verb: Verb,
    /// The name of an ADD's plugin, its `type`.
    pub kind_name: Text,
    pub container: Text,
    pub netns: Text,
    pub ifname: Text,
    /// In the order of their keys, where they were read.
    pub options: Items<Opt>,
    /// The attachments that a GC is to keep.
    pub valid: Items<ValidAtt>,
    /// The number of calls after which the task is stopped.
    pub stop: Option<u32>,
    /// The numbers, from 1, of the calls that are to fail.
    pub faults: Items<u32>,
}

/// A network, what its host has at the start, and what is to be done.
#[derive(Drop)]
pub struct SessionConf {
    pub network: Text,
    /// The pools that every ADD leases from; none without.
    pub ipam: Option<HostLocalConf>,
    pub opening: Host,
    pub tasks: Items<Task>,
}
