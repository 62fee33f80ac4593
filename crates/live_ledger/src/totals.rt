//! The figures of a whole trace so far. The figures of one stack are no part of it.

/// The figures of all stacks together after some events.
#[derive(Clone, Copy, Debug, PartialEq, Eq)]
pub struct Totals {
    /// Allocations and frees.
    pub events: u64,
    /// Allocations.
    pub calls: u64,
    /// Allocations that the very next event freed, told by their info.
    pub temporary: u64,
    /// Bytes of all allocations.
    pub allocated: u64,
    /// Bytes of the blocks that are live.
    pub live: u64,
    /// Blocks that are live.
    pub blocks: u64,
}
