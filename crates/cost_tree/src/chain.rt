//! How a list goes on with an earlier one.

/// A list: where its own numbers stand among those of all lists, which list follows them, if any, and how many numbers
/// it has in all.
#[derive(Clone, Copy)]
pub(crate) struct Chain {
    pub(crate) start: usize,
    pub(crate) end: usize,
    pub(crate) next: Option<u32>,
    pub(crate) count: usize,
}
