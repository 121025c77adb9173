//! What a plugin is asked, and what it does of it.

use crate::env::Env;
use cni_addr::{Items, Text};
use cni_result::{AddResult, PortMapping, Version};
use kernel_types::Call;
use net_conf::Plugin;
use pod_file::ValidAtt;

/// What one plugin is asked: the words that it is called with, and what its request says.
#[derive(PartialEq, Eq, Drop)]
pub struct Request {
    pub env: Env,
    pub version: Version,
    /// The network's.
    pub name: Text,
    pub plugin: Plugin,
    /// The result of the plugin before it, or the cached one.
    pub prev: Option<AddResult>,
    pub mappings: Items<PortMapping>,
    /// The attachments that a GC keeps. An empty list keeps none.
    pub valid: Option<Items<ValidAtt>>,
}

/// What one plugin does at an ADD: its calls to the kernel, in order, and its result.
#[derive(Drop)]
pub struct Work {
    pub calls: Items<Call>,
    pub result: AddResult,
}

/// What all plugins of a list do at an ADD: the line of each one's request, in list order, all calls to the kernel, and
/// the last result.
#[derive(Drop)]
pub struct Chain {
    pub requests: Items<Text>,
    pub calls: Items<Call>,
    pub result: AddResult,
}
