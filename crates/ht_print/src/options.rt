//! What a report is to show. How it is written is in `report`.
ghost use Rattle.std.specs.Prelude.{◌≡◌};
ghost use Rattle.ht_print.specs.HasGroups.{has_groups};

use crate::sections::SECTIONS;

/// What a report is to show, and how much of it.
#[derive(Clone, Copy)]
pub struct PrintOptions {
    /// Whether it has the section of the most allocations.
    pub allocators: bool,
    /// Whether it has the section of what is live at the peak.
    pub peaks: bool,
    /// Whether it has the section of what is live at the end.
    pub leaks: bool,
    /// Whether it has the section of the most temporary allocations.
    pub temporary: bool,
    /// Whether stacks with the same innermost frame stand together as a group.
    pub merge: bool,
    /// Whether it has the histogram of sizes.
    pub histogram: bool,
    /// How many groups of a section are shown at most, or stacks where they don't stand in groups.
    pub limit: u32,
    /// How many stacks of a group are shown at most.
    pub sub_limit: u32,
}

impl PrintOptions {
    /// Whether it has groups of stacks.
    pub(crate) fn has_groups(&self) -> bool
        ensures { result ≡ has_groups self.now }
    {
        self.merge && SECTIONS.iter().any(|section| section.is_wanted(self))
    }
}
