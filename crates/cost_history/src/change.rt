//! One change of one stack's cost.

/// From this place on, the stack costs this.
#[derive(Clone, Copy)]
pub struct Change {
    /// How many events come before it.
    pub place: u64,
    /// The stack's number.
    pub stack: u32,
    /// What the stack costs, in bytes.
    pub cost: u64,
}
