//! Where a command stands in its file.

/// Where a command stands in its file, by numbers from 0.
#[derive(Clone, Copy)]
pub enum Place {
    /// In a round of a pod file.
    InRound { round: usize, command: usize },
    /// Among the tasks of a session file.
    InTasks { index: usize },
}
