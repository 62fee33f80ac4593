//! From which end the texts of stacks are read.

/// The end of a stack whose text stands next to the root of a tree.
#[derive(Clone, Copy)]
pub enum Direction {
    /// The innermost frame, where memory was allocated.
    FromAllocation,
    /// The outermost frame.
    FromRoot,
}
