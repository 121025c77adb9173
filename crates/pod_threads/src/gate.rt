//! Where a worker may be held.

/// Is passed by a worker before each step, outside the lock. A gate that waits for a step of another worker shows in a
/// test that both are at work; one that returns at once holds nobody.
pub trait Gate: Sync {
    /// The command of this number is to be stepped, after so many steps of this worker for it; from the greatest number
    /// on they are not counted.
    fn pass(&self, command: u32, calls: u32);
}

/// Holds nobody.
#[derive(Clone, Copy)]
pub struct OpenGate;

impl Gate for OpenGate {
    fn pass(&self, _command: u32, _calls: u32) {}
}
