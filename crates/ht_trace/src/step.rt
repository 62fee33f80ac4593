//! What a line of a trace brings to those who keep figures beside its tables.

use live_ledger::Event;

/// What the caller does after a line.
#[derive(Clone, Copy, Debug)]
pub enum Step {
    /// The line brings nothing.
    Nothing,
    /// One more stack is held.
    Stack,
    /// One more info is held, for blocks of `size` bytes in `stack`.
    Info { stack: u32, size: u64 },
    /// An allocation or a free of a held info, with its stack and size, or a clock value.
    Event { event: Event },
}
