//! The figures of one stack so far. Those of a whole trace are in another file.

/// The figures of one stack after some events.
#[derive(Clone, Copy, Debug, PartialEq, Eq)]
pub struct Figures {
    /// Bytes of the stack's blocks that are live.
    pub live: u64,
    /// The stack's blocks that are live.
    pub blocks: u64,
    /// The stack's allocations.
    pub calls: u64,
    /// The stack's allocations that the very next event freed, told by their info.
    pub temporary: u64,
    /// Bytes of the stack's allocations.
    pub allocated: u64,
}
