//! What a task is answered.

use cni_addr::RefCounted;
use cni_result::{AddResult, CniError};

/// What a task is answered.
#[derive(Drop)]
pub enum TaskAnswer {
    /// An ADD made its attachment.
    Added(RefCounted<AddResult>),
    /// The verb did what it was asked.
    Yes,
    /// The verb refused.
    Refused(CniError),
    /// Memory was refused.
    OutOfMemory,
    /// The task was stopped after so many calls.
    Stopped { calls: u32 },
}
