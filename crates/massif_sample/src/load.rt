//! What a snapshot shows beside its time and its total.

/// The parts of a snapshot's total in bytes.
#[derive(Drop)]
pub(crate) struct Load {
    /// What was asked for.
    pub(crate) heap: u64,
    /// What the heap adds to it.
    pub(crate) extra: u64,
}
