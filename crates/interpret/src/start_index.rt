//! The places of symbols by module and start, in order. What a symbol says is no part of it.
ghost use Rattle.std.specs.Prelude.{◌≡◌, ℕ, ◌≤◌, None, Some, IfNone, IfSome, OnOk, OnErr};
ghost use Rattle.interpret.specs.SymbolEntries.{IsLatest, SameElsewhere, SamePlaces, place_at};

use hp_num::NoMemory;
use std::alloc::Global;
use std::collections::BTreeMap;

/// Where a symbol starts in its module, and its place.
#[derive(Clone, Copy)]
pub struct Start {
    pub start: u64,
    pub place: usize,
}

/// A place for each module and start.
#[derive(Drop)]
pub struct StartIndex {
    places: BTreeMap<(usize, u64), usize>,
}

impl StartIndex {
    /// The index of no symbols. It takes no memory.
    pub fn new(alloc: Global) -> Self
        ensures { (number start : ℕ) → place_at result number start ≡ None }
    {
        StartIndex {
            places: BTreeMap::new(alloc),
        }
    }

    /// The last start of a module that isn't above an offset.
    pub fn last_up_to(&self, module: usize, offset: u64) -> Option<Start>
        ensures found { IfSome result
            (λ last. place_at self.now «module» last.start ≡ Some last.place) }
        ensures up_to { IfSome result (λ last. last.start ≤ offset) }
        ensures last { IfSome result (λ last. IsLatest self.now «module» offset last.start) }
        ensures none { IfNone result
            ((start : ℕ) → start ≤ offset → place_at self.now «module» start ≡ None) }
    {
        let ((number, start), place) = self.places.range(..=(module, offset)).next_back()?;
        if *number != module {
            return None;
        }
        Some(Start {
            start: *start,
            place: *place,
        })
    }

    /// Puts a place under a module and a start.
    pub fn insert(&mut self, module: usize, start: u64, place: usize) -> Result<(), NoMemory>
        ensures here { OnOk result (place_at self.new «module» start ≡ Some place) }
        ensures others { OnOk result (SameElsewhere self.old self.new «module» start) }
        ensures unchanged { OnErr result (SamePlaces self.old self.new) }
    {
        self.places.insert((module, start), place)?;
        Ok(())
    }
}
