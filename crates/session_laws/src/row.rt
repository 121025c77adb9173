//! What a task made, by which later tasks of its attachment go.

use cni_addr::{Items, RefCounted};
use cni_result::Cached;
use kernel_types::{Att, Call, Kind};

/// What an ADD whose Begin was granted made of its attachment. A deletion goes by its kinds, and a CHECK by its calls.
#[derive(Drop)]
pub struct Row {
    /// The ADD's number among the tasks, from 1.
    pub task: u32,
    pub att: Att,
    /// The kinds of its plugin.
    pub kinds: Items<Kind>,
    /// The calls that the plugin gave; none where it wasn't asked.
    pub calls: Items<Call>,
    /// The result that the plugin gave, as it is cached; None where the plugin wasn't asked.
    pub cached: Option<RefCounted<Cached>>,
}
