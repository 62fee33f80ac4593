//! The places of frames, in a list for each instruction, kept so that what is known isn't asked again.
ghost use Rattle.std.specs.Prelude.{◌≡◌, ◌<◌, [], All, IfOk, OnOk, Some, length, set, slice_get};
ghost use Rattle.dhat_trace.specs.PlaceRanges.{empty_range};

use hp_num::NoMemory;
use std::alloc::Global;
use std::marker::Model;

/// For the number of each instruction the places of its frames, none before they are set. All of them stand in one vector,
/// since a vector for each number would take as much memory again.
///
/// Contracts see it as the list of these lists.
#[derive(Drop)]
pub(crate) struct KnownPlaces {
    places: Vec<usize>,
    ranges: Vec<PlaceRange>,
}

/// From which place of the vector up to which one the places of a number stand.
#[derive(Clone, Copy)]
pub(crate) struct PlaceRange {
    pub(crate) start: usize,
    pub(crate) end: usize,
}

impl Model for KnownPlaces {
    ghost use Rattle.std.specs.Prelude.{ℕ, List};
    ghost use Rattle.dhat_trace.specs.PlaceRanges.{AreRanges, lists_of};

    ghost Value = { List (List ℕ) };

    ghost view = { λ known. lists_of known.places.items known.ranges.items };

    ghost invariant = { λ known. AreRanges known.places.items known.ranges.items };
}

impl KnownPlaces {
    /// So many numbers, of none of which the places are known, or `NoMemory`.
    pub(crate) fn new(alloc: Global, count: usize) -> Result<KnownPlaces, NoMemory>
        ensures count { IfOk result (λ known. length known ≡ count) }
        ensures empty { IfOk result (λ known. All (λ places. places ≡ []) known) }
    {
        Ok(KnownPlaces {
            places: Vec::new(alloc),
            ranges: empty_ranges(alloc, count)?,
        })
    }

    /// The places of a number's frames, or none.
    pub(crate) fn of(&self, number: usize) -> &[usize]
        requires { number < length self.now }
        ensures { slice_get self.now number ≡ Some result.now }
    {
        let range = self.ranges[number];
        &self.places[range.start..range.end]
    }

    /// Sets the places of a number's frames. On `NoMemory` this is of no use any more.
    pub(crate) fn set(&mut self, number: usize, places: &[usize]) -> Result<(), NoMemory>
        requires { number < length self.old }
        ensures { OnOk result (self.new ≡ set self.old number places.now) }
    {
        let start = self.places.len();
        self.places.extend_from_slice(places)?;
        let end = self.places.len();
        self.ranges[number] = PlaceRange { start, end };
        Ok(())
    }
}

fn empty_ranges(alloc: Global, count: usize) -> Result<Vec<PlaceRange>, NoMemory>
    ensures count { IfOk result (λ ranges. length ranges.items ≡ count) }
    ensures empty { IfOk result
        (λ ranges. All (λ range. range ≡ empty_range) ranges.items) }
{
    let mut ranges = Vec::with_capacity(alloc, count)?;
    'each_range: for _ in 0..count {
        ranges.push_reserved(PlaceRange { start: 0, end: 0 });
    }
    Ok(ranges)
}
