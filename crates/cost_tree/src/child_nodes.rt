//! How many children a node has, where that is none, one or more.

/// The children of a node, of which only one alone is named.
#[derive(Clone, Copy)]
pub(crate) enum ChildNodes {
    /// It has none.
    None,
    /// It has one.
    One { child: usize },
    /// It has two or more.
    Several,
}
