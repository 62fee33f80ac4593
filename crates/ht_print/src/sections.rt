//! The sections of a report as data: their order, and of each whether it is asked for, its heading, what its figures are
//! and count, and whether it leaves out suppressed stacks. How a section is written is in `section`.
ghost use Rattle.std.specs.Prelude.{◌≡◌};
ghost use Rattle.ht_print.specs.Sections.{cost_of, heading_of, is_wanted, leaves_out, unit_of};

use crate::flame::FlameCost;
use crate::options::PrintOptions;
use crate::scale::Unit;

/// A section of a report.
#[derive(Clone, Copy)]
pub(crate) enum Section {
    Calls,
    Peak,
    Leaks,
    Temporary,
}

/// The sections in their order.
pub(crate) const SECTIONS: [Section; 4] = [
    Section::Calls,
    Section::Peak,
    Section::Leaks,
    Section::Temporary,
];

impl Section {
    /// Whether the section is asked for.
    pub(crate) fn is_wanted(self, options: &PrintOptions) -> bool
        ensures { result ≡ is_wanted options.now self }
    {
        match self {
            Section::Calls => options.allocators,
            Section::Peak => options.peaks,
            Section::Leaks => options.leaks,
            Section::Temporary => options.temporary,
        }
    }

    pub(crate) fn heading(self) -> &'static [u8]
        ensures { result.now ≡ heading_of self }
    {
        match self {
            Section::Calls => b"MOST CALLS TO ALLOCATION FUNCTIONS\n",
            Section::Peak => b"PEAK MEMORY CONSUMERS\n",
            Section::Leaks => b"MEMORY LEAKS\n",
            Section::Temporary => b"MOST TEMPORARY ALLOCATIONS\n",
        }
    }

    /// What its figures count.
    pub(crate) fn unit(self) -> Unit
        ensures { result ≡ unit_of self }
    {
        match self {
            Section::Calls => Unit::Calls,
            Section::Peak => Unit::Bytes,
            Section::Leaks => Unit::Bytes,
            Section::Temporary => Unit::Temporary,
        }
    }

    /// What its figures are.
    pub(crate) fn cost(self) -> FlameCost
        ensures { result ≡ cost_of self }
    {
        match self {
            Section::Calls => FlameCost::Allocations,
            Section::Peak => FlameCost::Peak,
            Section::Leaks => FlameCost::Leaked,
            Section::Temporary => FlameCost::Temporary,
        }
    }

    /// Whether suppressed stacks are left out, and what they have together is told in a line.
    pub(crate) fn leaves_out(self) -> bool
        ensures { result ≡ leaves_out self }
    {
        matches!(self, Section::Leaks)
    }
}
