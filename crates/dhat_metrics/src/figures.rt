//! The figures of one stack, under the names that DHAT's profile gives them.

/// What one stack's blocks came to after some events. Times are numbers of allocations and frees.
#[derive(Clone, Copy)]
pub struct LifeFigures {
    /// Bytes of the stack's allocations.
    pub tb: u64,
    /// The stack's allocations.
    pub tbk: u64,
    /// How long the stack's blocks lived, all together: from the event that allocated a block to the one that freed it,
    /// or to the last event.
    pub tl: u64,
    /// The most bytes of the stack that were live after an event.
    pub mb: u64,
    /// The blocks of the stack that were live when it first had the most bytes.
    pub mbk: u64,
    /// Bytes of the stack that are live at the end.
    pub eb: u64,
    /// Blocks of the stack that are live at the end.
    pub ebk: u64,
}
