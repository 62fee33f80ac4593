//! The end of the snapshots that a cull removes whole: it takes less time than any gap before it.
//! What goes where there is no such end is in `removal`.
ghost use Rattle.std.specs.Prelude.{◌≡◌, ◌<◌, ◌≤◌, true, length, IfSome};
ghost use Rattle.massif_cull.specs.ArrayState.{AreSound};
ghost use Rattle.massif_cull.specs.Ends.{AreGapsAbove, GoesWhole, count_may_go_from};
ghost use Rattle.massif_cull.specs.Left.{IsHalved};
ghost use Rattle.massif_cull.specs.SnapsState.{IsNumberedSnap};

use crate::linked::LinkedSnaps;
use crate::peak::is_peak_entry;
use crate::snapshot::NumberedSnap;

impl<T: Drop> LinkedSnaps<T> {
    /// Where an end begins all of which a cull removes but for its last snapshot and the peak, and nothing before it. `None`
    /// where it isn't so of the end that has as many as go.
    pub(crate) fn whole_end(&self) -> Option<NumberedSnap>
        requires long { 6 ≤ length self.now.entries }
        requires sound { AreSound self.now.entries }
        ensures snap_at { IfSome result (λ snap_at. IsNumberedSnap self.now snap_at) }
        ensures whole { IfSome result (λ snap_at. GoesWhole self.now.entries snap_at.index) }
    {
        let first = self.first();
        if self.gap_from(self.after(first), self.entry(first).time) == 0 {
            // No end takes less time than none.
            return None;
        }
        let last = self.last()?;
        let snap_at = self.end_of(self.len() / 2)?;
        let span = last.time - self.entry(self.before(snap_at)).time;
        if self.are_gaps_above(snap_at, span) {
            return Some(snap_at);
        }
        None
    }

    /// Where an end begins of which so many may go. `None` where no such end stands behind the first snapshot.
    fn end_of(&self, count: u32) -> Option<NumberedSnap>
        requires long { 2 ≤ length self.now.entries }
        ensures snap_at { IfSome result (λ snap_at. IsNumberedSnap self.now snap_at) }
        ensures inside { IfSome result
            (λ snap_at. (0 < snap_at.index) × (snap_at.index < length self.now.entries)) }
        ensures count { IfSome result
            (λ snap_at. count_may_go_from self.now.entries snap_at.index ≡ count) }
    {
        let mut snap_at = self.last_spot()?;
        let mut found = 0;
        'back: while found < count {
            if snap_at.index == 1 {
                return None;
            }
            snap_at = self.before(snap_at);
            if is_peak_entry(&self.entry(snap_at)) {
                continue;
            }
            found += 1;
        }
        Some(snap_at)
    }

    /// Whether the gaps of all snapshots between the first and the snap_at are above so much.
    fn are_gaps_above(&self, end: NumberedSnap, span: u64) -> bool
        requires end { (0 < end.index) × (end.index < length self.now.entries) }
        requires sound { AreSound self.now.entries }
        ensures { result ≡ true → AreGapsAbove self.now.entries end.index span }
    {
        let first = self.first();
        let mut time = self.entry(first).time;
        let mut snap_at = self.after(first);
        'spots: while snap_at.index < end.index {
            if self.gap_from(snap_at, time) <= span {
                return false;
            }
            time = self.entry(snap_at).time;
            snap_at = self.after(snap_at);
        }
        true
    }

    /// Removes all from the snap_at on with their loads, but for the last snapshot and the peak.
    pub(crate) fn remove_end(&mut self, snap_at: NumberedSnap)
        requires sound { AreSound self.old.entries }
        requires snap_at { IsNumberedSnap self.old snap_at }
        requires whole { GoesWhole self.old.entries snap_at.index }
        ensures max { self.new.max ≡ self.old.max }
        ensures left { IsHalved self.old self.new }
    {
        let mut last = self.len() - 1;
        let mut snap_at = snap_at;
        'end: while snap_at.index < last {
            if is_peak_entry(&self.entry(snap_at)) {
                snap_at = self.after(snap_at);
                continue;
            }
            snap_at = self.remove_at(snap_at);
            last -= 1;
        }
    }
}
