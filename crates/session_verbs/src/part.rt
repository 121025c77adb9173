//! How a part of a task ends.

use cni_errors::Ending;

/// How a part of a task ends, and the task with it.
#[derive(Drop)]
pub enum PartEnd {
    /// No call is left.
    Over(Ending),
    /// A call is left, and the task is stopped before it.
    Stopped,
}
