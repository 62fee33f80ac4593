//! One step of lists that are told.

/// How lists of numbers go on.
#[derive(Clone, Copy)]
pub(crate) enum ListStep {
    /// A list more, which begins with that of the caller; with nothing where the caller is 0.
    Begin { caller: u32 },
    /// A number more at the end of the last list.
    Push { number: usize },
}
