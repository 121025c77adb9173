//! One entry of what was done.

use cni_addr::RefCounted;
use kernel_types::{Call, Reply};

/// One call of one task, and its reply.
#[derive(Drop)]
pub struct Entry {
    /// The task's number, from 1.
    pub task: u32,
    pub call: RefCounted<Call>,
    pub reply: Reply,
}
