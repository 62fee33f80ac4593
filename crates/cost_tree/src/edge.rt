//! How a node goes on from another.

/// A node from its parent: the parent's number, and the number of the text that the node's front ends with.
#[derive(Clone, Copy, PartialEq, Eq, Hash)]
pub(crate) struct Edge {
    pub(crate) parent: usize,
    pub(crate) text: usize,
}
