//! Gates: what a worker passes before it takes the lock.

/// A gate in front of the lock, which may make a worker wait, as a test of the workers does. The gate of a program does
/// nothing.
pub trait Gate {
    /// Called by a worker before its hold of the lock with this number, counted from 0. The worker doesn't have the lock.
    fn before(&self, worker: u32, hold: u64);
}
