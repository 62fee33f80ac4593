//! What is asked of a snapshot's tree. How it is built is no part of it.

/// Which places of a tree have a line of their own.
#[derive(Clone, Copy)]
pub struct TreeOptions {
    /// The least share of a snapshot's total that a place with a line of its own has, in hundredths of a percent.
    pub threshold: u64,
    /// The most frames that stand below one another.
    pub depth: u32,
}
