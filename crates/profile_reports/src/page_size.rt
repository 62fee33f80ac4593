//! How the page of a Massif file is made: its threshold, and the size of its graph. The words that are shown on it are no part
//! of it.
ghost use Rattle.std.specs.Prelude.{◌≤◌};

/// How a page is made. The ranges of its numbers are facts of the type.
#[derive(Clone, Copy)]
pub struct PageSize {
    /// The least share of a snapshot's bytes that is shown by itself, in hundredths of a percent.
    pub threshold: u64,
    /// The columns of the graph.
    pub x: u32,
    /// The rows of the graph.
    pub y: u32,
    pub ghost threshold_in_range: { threshold ≤ 10000 },
    pub ghost least_x: { 4 ≤ x },
    pub ghost most_x: { x ≤ 1000 },
    pub ghost least_y: { 4 ≤ y },
    pub ghost most_y: { y ≤ 1000 },
}
