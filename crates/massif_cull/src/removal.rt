//! Removing snapshots by their times, and the interval of what is left.
//! When they are culled is decided by the array, and where their end goes whole in `ends`.
ghost use Rattle.std.specs.Prelude.{◌≡◌, ◌+◌, ◌-◌, ◌<◌, ◌≤◌, ◌^◌, length, slice_index, Contains};
ghost use Rattle.massif_cull.specs.ArrayState.{AreSound};
ghost use Rattle.massif_cull.specs.Culled.{AreCulled, CanCull};
ghost use Rattle.massif_cull.specs.Entries.{times};
ghost use Rattle.massif_cull.specs.Interval.{least_interval};
ghost use Rattle.massif_cull.specs.Keyed.{AreGapsOf, RemovesNext, gap_to_go, key_of};
ghost use Rattle.massif_cull.specs.Left.{AreLeft, IsHalved};
ghost use Rattle.massif_cull.specs.LinksState.{WhereIs};
ghost use Rattle.massif_cull.specs.Removed.{Removes};
ghost use Rattle.massif_cull.specs.SnapsState.{IsNumberedSnap};

use crate::gaps::{Gaps, Key, NEVER};
use crate::linked::LinkedSnaps;
use crate::peak::is_peak_entry;
use crate::snapshot::NumberedSnap;

impl<T: Drop> LinkedSnaps<T> {
    /// Removes snapshots with their loads, half of them rounded down, and answers the least time between two
    /// neighbours that are left. `gaps` has a key for each place; what they are before and behind the call doesn't matter. It
    /// takes no memory.
    pub fn cull(&mut self, gaps: &mut Gaps) -> u64
        requires room { CanCull self.old gaps.old }
        ensures gaps { length gaps.new.keys ≡ length gaps.old.keys }
        ensures max { self.new.max ≡ self.old.max }
        ensures snapshots { AreCulled self.old.entries self.old.loads self.new.entries self.new.loads }
        ensures interval { result ≡ least_interval self.new.entries }
        ensures interval_most { result ≤ 2 ^ 62 }
    {
        self.remove_half(gaps);
        self.least_difference()
    }

    /// Removes half of the snapshots, rounded down, with their loads.
    fn remove_half(&mut self, gaps: &mut Gaps)
        requires room { CanCull self.old gaps.old }
        ensures gaps { length gaps.new.keys ≡ length gaps.old.keys }
        ensures max { self.new.max ≡ self.old.max }
        ensures left { IsHalved self.old self.new }
    {
        match self.whole_end() {
            Some(snap_at) => self.remove_end(snap_at),
            None => self.remove_by_gaps(gaps),
        }
    }

    /// Removes half of the snapshots one by one, each time the one that goes next.
    fn remove_by_gaps(&mut self, gaps: &mut Gaps)
        requires room { CanCull self.old gaps.old }
        ensures gaps { length gaps.new.keys ≡ length gaps.old.keys }
        ensures max { self.new.max ≡ self.old.max }
        ensures left { IsHalved self.old self.new }
    {
        let left = self.remove_equals();
        if left == 0 {
            return;
        }
        self.note(gaps);
        'each_removal: for _ in 0..left {
            self.remove_next(gaps);
        }
    }

    /// Removes the snapshots whose neighbours have one time, in their order, until half of all are gone, and answers how
    /// many removals are left. They go before all others, and none of the gaps behind one changes by that.
    fn remove_equals(&mut self) -> u32
        requires long { 6 ≤ length self.old.entries }
        requires sound { AreSound self.old.entries }
        ensures max { self.new.max ≡ self.old.max }
        ensures left { AreLeft result self.old.entries self.old.loads self.new.entries
            self.new.loads }
    {
        let count = self.len();
        let mut left = count / 2;
        let mut last = count - 1;
        let first = self.first();
        let mut time = self.entry(first).time;
        let mut snap_at = self.after(first);
        'walk: while left > 0 && snap_at.index < last {
            if self.gap_from(snap_at, time) > 0 {
                time = self.entry(snap_at).time;
                snap_at = self.after(snap_at);
                continue;
            }
            snap_at = self.remove_at(snap_at);
            last -= 1;
            left -= 1;
        }
        left
    }

    /// Gives the place of each snapshot its key, and finds out which comes first.
    fn note(&self, gaps: &mut Gaps)
        requires some { 0 < length self.now.entries }
        requires sound { AreSound self.now.entries }
        requires gaps { length gaps.old.keys ≡ self.now.max }
        ensures gaps { length gaps.new.keys ≡ length gaps.old.keys }
        ensures keyed { AreGapsOf self.now gaps.new }
    {
        gaps.clear();
        let last = self.len() - 1;
        let mut snap_at = self.first();
        'walk: while snap_at.index < last {
            gaps.put(snap_at.place, self.key(snap_at));
            snap_at = self.after(snap_at);
        }
        gaps.put(snap_at.place, self.key(snap_at));
        gaps.build();
    }

    /// The gap of the snapshot at the snap_at, where the one before it has this time. The snap_at must be neither the first nor the
    /// last.
    pub(crate) fn gap_from(&self, snap_at: NumberedSnap, time: u64) -> u64
        requires snap_at { IsNumberedSnap self.now snap_at }
        requires inside { (0 < snap_at.index) × (snap_at.index + 1 < length self.now.entries) }
        requires sound { AreSound self.now.entries }
        requires time { time ≡ slice_index (times self.now.entries) (snap_at.index - 1) }
        ensures { result ≡ gap_to_go self.now.entries snap_at.index }
    {
        if is_peak_entry(&self.entry(snap_at)) {
            return NEVER;
        }
        self.entry(self.after(snap_at)).time - time
    }

    /// Removes the snapshot at the snap_at with its load, and answers where the next one stands. The snap_at must not be the last.
    pub(crate) fn remove_at(&mut self, snap_at: NumberedSnap) -> NumberedSnap
        requires snap_at { IsNumberedSnap self.old snap_at }
        requires inside { snap_at.index + 1 < length self.old.entries }
        ensures removes { Removes self.old self.new snap_at.index }
        ensures snap_at { IsNumberedSnap self.new result }
        ensures index { result.index ≡ snap_at.index }
    {
        let next = self.after(snap_at);
        let _ = self.remove(snap_at);
        NumberedSnap {
            index: snap_at.index,
            place: next.place,
        }
    }

    /// The key of the snapshot at the snap_at: its gap, and how many stand before it.
    fn key(&self, snap_at: NumberedSnap) -> Key
        requires snap_at { IsNumberedSnap self.now snap_at }
        requires sound { AreSound self.now.entries }
        ensures { result ≡ key_of self.now.entries snap_at }
    {
        Key {
            gap: self.gap(snap_at.place),
            number: snap_at.index,
            place: snap_at.place,
        }
    }

    /// The difference between the times of the neighbours of the snapshot at the place, and `NEVER` where it may not go:
    /// it is the first, the last or the peak.
    fn gap(&self, place: u32) -> u64
        requires held { Contains self.now.places place }
        requires sound { AreSound self.now.entries }
        ensures { WhereIs self.now.places place (λ k. result ≡ gap_to_go self.now.entries k) }
    {
        let Some(before) = self.place_before(place) else {
            return NEVER;
        };
        let Some(after) = self.place_after(place) else {
            return NEVER;
        };
        if is_peak_entry(&self.entry_at(place)) {
            return NEVER;
        }
        self.entry_at(after).time - self.entry_at(before).time
    }

    /// Removes the snapshot that goes next with its load: of those that are neither first, last nor the peak, the first
    /// with the least difference between the times of its neighbours. The neighbours' gaps are found anew.
    fn remove_next(&mut self, gaps: &mut Gaps)
        requires long { 4 ≤ length self.old.entries }
        requires sound { AreSound self.old.entries }
        requires keyed { AreGapsOf self.old gaps.old }
        ensures removed { RemovesNext self.old self.new }
        ensures keyed { AreGapsOf self.new gaps.new }
        ensures gaps { length gaps.new.keys ≡ length gaps.old.keys }
    {
        let place = gaps.first().place;
        let before = self.place_before(place).unwrap();
        let after = self.place_after(place).unwrap();
        let _ = self.take_out(place);
        gaps.set_gap(place, NEVER);
        gaps.set_gap(before, self.gap(before));
        gaps.set_gap(after, self.gap(after));
    }

    /// The least difference between the times of neighbours.
    fn least_difference(&self) -> u64
        requires long { 2 ≤ length self.now.entries }
        requires sound { AreSound self.now.entries }
        ensures value { result ≡ least_interval self.now.entries }
        ensures most { result ≤ 2 ^ 62 }
    {
        let first = self.first();
        let mut snap_at = self.after(first);
        let mut time = self.entry(snap_at).time;
        let mut least = time - self.entry(first).time;
        'spots: for _ in 2..self.len() {
            if least == 0 {
                return 0;
            }
            snap_at = self.after(snap_at);
            let next = self.entry(snap_at).time;
            least = least.min(next - time);
            time = next;
        }
        least
    }
}
