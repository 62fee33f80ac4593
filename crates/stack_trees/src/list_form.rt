//! How a stack's list is made.
use ht_trace::Style;

/// In which style the texts of a stack's list are, and how many there are at most.
#[derive(Clone, Copy)]
pub struct ListForm {
    pub style: Style,
    pub most: usize,
}
