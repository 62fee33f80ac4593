//! What a page is asked for.
ghost use Rattle.std.specs.Prelude.{◌≤◌};

use hp_num::Text;

/// What a page shows of a profile, and how large its graph is. The ranges of its numbers are facts of the type.
#[derive(Drop)]
pub struct PageOptions {
    /// The least share of a snapshot's bytes that has an entry of its own, in hundredths of a percent: at most 10,000.
    pub threshold: u64,
    /// The columns of the graph: 4 to 1,000.
    pub x: u32,
    /// The rows of the graph: 4 to 1,000.
    pub y: u32,
    /// The words that the page is asked for with, as it shows them.
    pub words: Text,
    pub ghost threshold_in_range: { threshold ≤ 10000 },
    pub ghost least_x: { 4 ≤ x },
    pub ghost most_x: { x ≤ 1000 },
    pub ghost least_y: { 4 ≤ y },
    pub ghost most_y: { y ≤ 1000 },
}
