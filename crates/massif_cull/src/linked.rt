//! Snapshots with their loads: each stays at its place, and links keep their order.
//! Which of them are removed is decided in `removal`.
ghost use Rattle.std.specs.Prelude.{◌≡◌, ◌+◌, ◌-◌, ◌<◌, ◌≤◌, [], ◌∷◌, ◌++◌, length, map, slice_get, Contains, Some, None, IfOk, IfSome, vec_capacity};
ghost use Rattle.std.specs.Option.{option_map};
ghost use Rattle.massif_cull.specs.ArrayState.{AreSound};
ghost use Rattle.massif_cull.specs.Entries.{NoOtherIsPeak, end_peak};
ghost use Rattle.massif_cull.specs.Held.{ended};
ghost use Rattle.massif_cull.specs.LinksState.{IsNext, IsPrevious, WhereIs};
ghost use Rattle.massif_cull.specs.Removed.{HoldsAt, Removes};
ghost use Rattle.massif_cull.specs.SnapsState.{ArePlaced, IsNumberedSnap};

use crate::links::Links;
use crate::peak::{after_peak, is_peak_entry};
use crate::snapshot::{NumberedSnap, SnapEntry};
use hp_num::NoMemory;
use std::alloc::Global;
use std::marker::Model;

/// A snapshot that is held, with its load.
#[derive(Drop)]
pub(crate) struct Held<T: Drop> {
    pub entry: SnapEntry,
    pub load: T,
}

/// Snapshots with their loads, in an order of their own.
#[derive(Drop)]
pub(crate) struct LinkedSnaps<T: Drop> {
    links: Links,
    // What stands at each place; nothing at those that are free.
    slots: Vec<Option<Held<T>>>,
}

impl<T: Drop> Model for LinkedSnaps<T> {
    ghost use Rattle.massif_cull.specs.SnapsState.{SnapsState};
    ghost use Rattle.massif_cull.specs.Held.{snaps_of, AreHeld};

    ghost Value = { SnapsState T };

    ghost view = { snaps_of };

    ghost invariant = { AreHeld };
}

impl<T: Drop> LinkedSnaps<T> {
    /// No snapshot, with room for `max`, which is at most 1000. No other call takes memory.
    pub fn new(alloc: Global, max: u32) -> Result<Self, NoMemory>
        requires { max ≤ 1000 }
        ensures max { IfOk result (λ snaps. snaps.max ≡ max) }
        ensures places { IfOk result (λ snaps. snaps.places ≡ []) }
        ensures entries { IfOk result (λ snaps. snaps.entries ≡ []) }
        ensures loads { IfOk result (λ snaps. snaps.loads ≡ []) }
    {
        let links = Links::new(alloc, max)?;
        let slots = empty_slots(alloc, max as usize)?;
        Ok(LinkedSnaps { links, slots })
    }

    /// Appends a snapshot. Fewer than `max` must be held.
    pub fn push(&mut self, entry: SnapEntry, load: T)
        requires { length self.old.entries < self.old.max }
        ensures max { self.new.max ≡ self.old.max }
        ensures entries { self.new.entries ≡ self.old.entries ++ entry ∷ [] }
        ensures loads { self.new.loads ≡ self.old.loads ++ load ∷ [] }
    {
        let place = self.links.push();
        self.slots[place as usize] = Some(Held { entry, load });
    }

    /// Removes the snapshot at the snap_at and gives it with its load. The others keep their order and their places.
    pub fn remove(&mut self, snap_at: NumberedSnap) -> Held<T>
        requires { IsNumberedSnap self.old snap_at }
        ensures removes { Removes self.old self.new snap_at.index }
        ensures held { HoldsAt self.old snap_at.index result }
    {
        self.take_out(snap_at.place)
    }

    /// Removes the snapshot at the place and gives it with its load. The others keep their order and their places.
    pub fn take_out(&mut self, place: u32) -> Held<T>
        requires { Contains self.old.places place }
        ensures max { self.new.max ≡ self.old.max }
        ensures removes { WhereIs self.old.places place (λ k. Removes self.old self.new k) }
        ensures held { WhereIs self.old.places place (λ k. HoldsAt self.old k result) }
    {
        self.links.unlink(place);
        self.slots[place as usize].take().unwrap()
    }

    /// The number of snapshots.
    pub fn len(&self) -> u32
        ensures entries { result ≡ length self.now.entries }
        ensures loads { result ≡ length self.now.loads }
        ensures most { result ≤ self.now.max }
        ensures placed { ArePlaced self.now }
    {
        self.links.len()
    }

    /// How many may be held.
    pub fn max(&self) -> u32
        ensures { result ≡ self.now.max }
    {
        self.links.max()
    }

    /// Where the first one stands. One must be held.
    pub fn first(&self) -> NumberedSnap
        requires { 0 < length self.now.entries }
        ensures snap_at { IsNumberedSnap self.now result }
        ensures index { result.index ≡ 0 }
    {
        let place = self.links.first().unwrap();
        NumberedSnap { index: 0, place }
    }

    /// Where the next one stands. The snap_at must not be the last.
    pub fn after(&self, snap_at: NumberedSnap) -> NumberedSnap
        requires snap_at { IsNumberedSnap self.now snap_at }
        requires inside { snap_at.index + 1 < length self.now.entries }
        ensures snap_at { IsNumberedSnap self.now result }
        ensures index { result.index ≡ snap_at.index + 1 }
    {
        let place = self.links.next(snap_at.place).unwrap();
        NumberedSnap {
            index: snap_at.index + 1,
            place,
        }
    }

    /// Where the one before stands. The snap_at must not be the first.
    pub fn before(&self, snap_at: NumberedSnap) -> NumberedSnap
        requires snap_at { IsNumberedSnap self.now snap_at }
        requires inside { 0 < snap_at.index }
        ensures snap_at { IsNumberedSnap self.now result }
        ensures index { result.index + 1 ≡ snap_at.index }
    {
        let place = self.links.prev(snap_at.place).unwrap();
        NumberedSnap {
            index: snap_at.index - 1,
            place,
        }
    }

    /// The place of the next snapshot, and None at the last one's.
    pub fn place_after(&self, place: u32) -> Option<u32>
        requires { Contains self.now.places place }
        ensures place { IsNext self.now.places place result }
        ensures placed { ArePlaced self.now }
    {
        self.links.next(place)
    }

    /// The place of the snapshot before, and None at the first one's.
    pub fn place_before(&self, place: u32) -> Option<u32>
        requires { Contains self.now.places place }
        ensures front { slice_get self.now.places 0 ≡ Some place → result ≡ None }
        ensures place { IsPrevious self.now.places place result }
    {
        self.links.prev(place)
    }

    /// Where the one stands before which `index` stand.
    pub fn snap_at(&self, index: u32) -> NumberedSnap
        requires { index < length self.now.entries }
        ensures snap_at { IsNumberedSnap self.now result }
        ensures index { result.index ≡ index }
    {
        let mut snap_at = self.first();
        'steps: for _ in 0..index {
            snap_at = self.after(snap_at);
        }
        snap_at
    }

    /// Replaces `out` by the entries in their order, by one walk. `out` must have room for them.
    pub fn entries_into(&self, out: &mut Vec<SnapEntry>)
        requires { length self.now.entries ≤ vec_capacity out.old }
        ensures { out.new.items ≡ self.now.entries }
    {
        out.clear();
        if self.len() == 0 {
            return;
        }
        let mut snap_at = self.first();
        out.push_reserved(self.entry(snap_at));
        'others: for _ in 1..self.len() {
            snap_at = self.after(snap_at);
            out.push_reserved(self.entry(snap_at));
        }
    }

    /// The entry at the snap_at.
    pub fn entry(&self, snap_at: NumberedSnap) -> SnapEntry
        requires { IsNumberedSnap self.now snap_at }
        ensures { slice_get self.now.entries snap_at.index ≡ Some result }
    {
        self.held(snap_at).entry
    }

    /// The load at the snap_at.
    pub fn load(&self, snap_at: NumberedSnap) -> &T
        requires { IsNumberedSnap self.now snap_at }
        ensures { slice_get self.now.loads snap_at.index ≡ Some result.now }
    {
        &self.held(snap_at).load
    }

    /// The last entry, and None where none is held.
    pub fn last(&self) -> Option<SnapEntry>
        ensures { result ≡ slice_get self.now.entries (length self.now.entries - 1) }
    {
        let snap_at = self.last_spot()?;
        Some(self.entry(snap_at))
    }

    /// Where the last one stands, and None where none is held.
    pub fn last_spot(&self) -> Option<NumberedSnap>
        ensures snap_at { IfSome result (λ snap_at. IsNumberedSnap self.now snap_at) }
        ensures last { IfSome result (λ snap_at. snap_at.index + 1 ≡ length self.now.entries) }
        ensures none { result ≡ None → self.now.entries ≡ [] }
    {
        let place = self.links.last()?;
        let index = self.len() - 1;
        Some(NumberedSnap { index, place })
    }

    /// The entry at the place.
    pub fn entry_at(&self, place: u32) -> SnapEntry
        requires { Contains self.now.places place }
        ensures { WhereIs self.now.places place
            (λ k. slice_get self.now.entries k ≡ Some result) }
    {
        self.held_at(place).entry
    }

    fn held(&self, snap_at: NumberedSnap) -> &Held<T>
        requires { IsNumberedSnap self.now snap_at }
        ensures { HoldsAt self.now snap_at.index result.now }
    {
        self.held_at(snap_at.place)
    }

    fn held_at(&self, place: u32) -> &Held<T>
        requires { Contains self.now.places place }
        ensures { WhereIs self.now.places place (λ k. HoldsAt self.now k result.now) }
    {
        self.slots[place as usize].as_ref().unwrap()
    }

    /// Where the peak stands, if there is one: no other is a peak. It is looked for from the last snapshot on. None comes where
    /// no snapshot is held.
    fn peak(&self) -> Option<NumberedSnap>
        requires { AreSound self.now.entries }
        ensures snap_at { IfSome result (λ snap_at. IsNumberedSnap self.now snap_at) }
        ensures others { IfSome result
            (λ snap_at. NoOtherIsPeak self.now.entries snap_at.index) }
        ensures none { result ≡ None → self.now.entries ≡ [] }
    {
        let mut snap_at = self.last_spot()?;
        'back: while snap_at.index > 0 {
            if is_peak_entry(&self.entry(snap_at)) {
                return Some(snap_at);
            }
            snap_at = self.before(snap_at);
        }
        Some(snap_at)
    }

    /// Makes the earlier peak a normal entry, where one is held.
    pub fn end_peak(&mut self)
        requires { AreSound self.old.entries }
        ensures max { self.new.max ≡ self.old.max }
        ensures places { self.new.places ≡ self.old.places }
        ensures entries { self.new.entries ≡ map end_peak self.old.entries }
        ensures loads { self.new.loads ≡ self.old.loads }
    {
        let Some(snap_at) = self.peak() else {
            return;
        };
        end_peak_at(&mut self.slots[snap_at.place as usize]);
    }
}

/// So many slots at which nothing stands.
fn empty_slots<T: Drop>(alloc: Global, count: usize) -> Result<Vec<Option<Held<T>>>, NoMemory>
    ensures { IfOk result (λ slots. length slots.items ≡ count) }
{
    let mut slots = Vec::with_capacity(alloc, count)?;
    'slots: for _ in 0..count {
        slots.push_reserved(None);
    }
    Ok(slots)
}

/// Makes what stands there a normal entry, where it is a peak.
fn end_peak_at<T: Drop>(slot: &mut Option<Held<T>>)
    ensures { slot.new ≡ option_map ended slot.old }
{
    if let Some(held) = slot {
        held.entry.kind = after_peak(held.entry.kind);
    }
}
