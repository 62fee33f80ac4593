//! The array of snapshots: which offers it takes, and what it keeps of them.
//! How entries are removed is in `removal`.
ghost use Rattle.std.specs.Prelude.{◌≡◌, ◌+◌, ◌*◌, ◌/◌, ◌%◌, ◌==◌, ◌^◌, ◌<◌, ◌≤◌, [], ◌∷◌, ◌++◌, false, length, map, slice_get, Some, None, IfOk, IfSome, vec_capacity};
ghost use Rattle.massif_cull.specs.declared.snapshot.Taken.TheVariants.{No};
ghost use Rattle.massif_cull.specs.ArrayState.{AreInRange, AreSound, IsSound};
ghost use Rattle.massif_cull.specs.Culled.{AreCulled};
ghost use Rattle.massif_cull.specs.Entries.{MayFollow, end_peak, is_peak};
ghost use Rattle.massif_cull.specs.Kept.{nothing_kept, settings_with};
ghost use Rattle.massif_cull.specs.TakenAs.{next_time_after, taken_as};
ghost use Rattle.massif_cull.specs.Step.{culled, bounded, interval_bounded, entry_of};
ghost use Rattle.massif_cull.specs.StandsFor.{IsTakenBehind, StandsFor, StandsForMore};
ghost use Rattle.massif_cull.specs.TakenEntry.{Appends, CanAppend, TakesEntry};
ghost use Rattle.massif_cull.specs.TakenEntry.{held_with_normal, with_peak};
ghost use Rattle.massif_cull.specs.TakesOffer.{TakesOffer};

use crate::gaps::Gaps;
use crate::linked::{Held, LinkedSnaps};
use crate::snapshot::{Kind, Offer, SnapEntry, Taken};
use hp_num::NoMemory;
use std::alloc::Global;
use std::marker::Model;

/// The hundredths of a percent in a whole.
const WHOLE: u64 = 10_000;

/// Snapshots in the order of their offers, each with a load of the caller's, fewer than a set maximum.
/// It stands for the list of offers that were made to it.
///
/// Contracts see the settings, the entries, the loads, the interval, which is the least time from the last entry to
/// the next normal offer that is taken, the total of the last peak taken, and the number of normal offers taken modulo
/// `detailed_freq`.
#[derive(Drop)]
pub struct SnapArray<T: Drop> {
    max: u32,
    detailed_freq: u64,
    inaccuracy: u64,
    snaps: LinkedSnaps<T>,
    /// What a cull finds the snapshots by that go.
    gaps: Gaps,
    interval: u64,
    last_peak: u64,
    normals: u64,
    /// The least time at which a normal offer is taken.
    normal_from: u64,
    /// The greatest total that isn't taken as a peak.
    peak_above: u64,
}

impl<T: Drop> Model for SnapArray<T> {
    ghost use Rattle.massif_cull.specs.ArrayState.{ArrayState, IsSound};

    ghost Value = { ArrayState T };

    ghost use Rattle.massif_cull.specs.View.{state_of, IsAsLarge, JudgesBy};

    ghost view = { state_of };

    ghost invariant = { λ array. IsSound (state_of array) × IsAsLarge array × JudgesBy array };
}

impl<T: Drop> SnapArray<T> {
    /// An array of no offers, which will hold fewer than `max` snapshots. Of the normal offers taken each
    /// `detailed_freq`-th is detailed. A peak is taken where its total is above the last peak's by more than
    /// `inaccuracy` hundredths of a percent. `NoMemory` where memory is wanting; no other call takes memory.
    pub fn new(
        alloc: Global,
        max: u32,
        detailed_freq: u64,
        inaccuracy: u64,
    ) -> Result<Self, NoMemory>
        requires range { AreInRange (settings_with max detailed_freq inaccuracy) }
        ensures settings { IfOk result
            (λ array. array.settings ≡ settings_with max detailed_freq inaccuracy) }
        ensures kept { IfOk result (λ array. array.kept ≡ nothing_kept) }
        ensures loads { IfOk result (λ array. array.loads ≡ []) }
        ensures stands { IfOk result (λ array. StandsFor array []) }
    {
        let snaps = LinkedSnaps::new(alloc, max)?;
        let gaps = Gaps::new(alloc, max)?;
        Ok(SnapArray {
            max,
            detailed_freq,
            inaccuracy,
            snaps,
            gaps,
            interval: 0,
            last_peak: 0,
            normals: 0,
            normal_from: 0,
            peak_above: 0,
        })
    }

    /// Whether `offer` would take the offer, and as what. It changes nothing, and needs of the offer what `offer` needs.
    /// Nearly every offer is refused, by one test of a number that changes only where a snapshot is taken.
    #[inline(always)]
    pub fn judge(&self, offer: &Offer) -> Taken
        requires follows { MayFollow self.now.kept.entries offer.now.time offer.now.total }
        requires first_is_normal { length self.now.kept.entries ≡ 0 → offer.now.peak ≡ false }
        ensures taken { result ≡ taken_as self.now.settings self.now.kept offer.now }
        ensures of_offers { IsTakenBehind self.now offer.now result }
        ensures passed { result ≡ No → StandsForMore self.now self.now offer.now }
        ensures sound { IsSound self.now }
    {
        if offer.peak {
            if offer.total > self.peak_above {
                return Taken::Peak;
            }
            return Taken::No;
        }
        if offer.time < self.normal_from {
            return Taken::No;
        }
        if is_last_in_turn(self.normals, self.detailed_freq) {
            return Taken::Detailed;
        }
        Taken::Normal
    }

    /// Takes the offer as a snapshot with the load, or drops the load, and answers which. Where the snapshots then
    /// reach the maximum, half of them are removed, as `cull` does. It takes no memory.
    ///
    /// The offer's time must not be below the last snapshot's. Its time and its total are at most 2^62. The first offer
    /// is a normal one.
    pub fn offer(&mut self, offer: Offer, load: T) -> Taken
        requires follows { MayFollow self.old.kept.entries offer.time offer.total }
        requires first_is_normal { length self.old.kept.entries ≡ 0 → offer.peak ≡ false }
        ensures taken { result ≡ taken_as self.old.settings self.old.kept offer }
        ensures of_offers { IsTakenBehind self.old offer result }
        // From any state, also after a `cull` of the caller's.
        ensures takes { TakesOffer self.old self.new offer load result }
        ensures not_empty { 0 < length self.new.kept.entries }
    {
        let taken = self.judge(&offer);
        self.take(offer, taken, load);
        taken
    }

    /// Does what `offer` does of an offer that is judged: it is taken as `judge` says.
    pub fn take(&mut self, offer: Offer, taken: Taken, load: T)
        requires follows { MayFollow self.old.kept.entries offer.time offer.total }
        requires first_is_normal { length self.old.kept.entries ≡ 0 → offer.peak ≡ false }
        requires judged { taken ≡ taken_as self.old.settings self.old.kept offer }
        ensures takes { TakesOffer self.old self.new offer load taken }
        ensures not_empty { 0 < length self.new.kept.entries }
    {
        // Says what holds of every array.
        let _count = self.len();
        match taken {
            Taken::No => {}
            Taken::Normal => self.take_normal(snapshot(&offer, Kind::Normal), load),
            Taken::Detailed => self.take_normal(snapshot(&offer, Kind::Detailed), load),
            Taken::Peak => self.take_peak(snapshot(&offer, Kind::Peak), load),
        }
    }

    /// Removes half of the snapshots with their loads, rounded down: each time, of those that are neither first, last
    /// nor the peak, the first with the least difference between the times of its neighbours. The interval becomes
    /// the least difference between the times of neighbours that are left. It takes no memory.
    ///
    /// At least 6 snapshots must be held. The array need stand for no list of offers from then on.
    pub fn cull(&mut self)
        requires { 6 ≤ length self.old.kept.entries }
        ensures settings { self.new.settings ≡ self.old.settings }
        ensures kept { self.new.kept ≡ culled self.old.kept }
        ensures snapshots { AreCulled self.old.kept.entries self.old.loads
            self.new.kept.entries self.new.loads }
    {
        self.interval = self.snaps.cull(&mut self.gaps);
        self.normal_from = normal_from(&self.snaps, self.interval);
    }

    /// Takes the first snapshot out and gives it with its load, and None where none is held. It takes no memory.
    ///
    /// The array need stand for no list of offers from then on.
    pub fn take_first(&mut self) -> Option<(SnapEntry, T)>
        ensures settings { self.new.settings ≡ self.old.settings }
        ensures kept { self.new.kept ≡ record self.old.kept { entries = self.new.kept.entries } }
        ensures entry { IfSome result
            (λ taken. self.old.kept.entries ≡ taken.0 ∷ self.new.kept.entries) }
        ensures load { IfSome result (λ taken. self.old.loads ≡ taken.1 ∷ self.new.loads) }
        ensures none { result ≡ None → self.old.kept.entries ≡ [] }
        ensures unchanged { result ≡ None → self.new ≡ self.old }
    {
        if self.snaps.len() == 0 {
            return None;
        }
        let Held { entry, load } = self.snaps.remove(self.snaps.first());
        self.normal_from = normal_from(&self.snaps, self.interval);
        Some((entry, load))
    }

    /// The number of snapshots that are held.
    pub fn len(&self) -> u32
        ensures entries { result ≡ length self.now.kept.entries }
        ensures loads { result ≡ length self.now.loads }
        ensures sound { IsSound self.now }
    {
        self.snaps.len()
    }

    /// The snapshot at place `i`, from 0, which must be held.
    pub fn entry(&self, i: u32) -> SnapEntry
        requires { i < length self.now.kept.entries }
        ensures entry { slice_get self.now.kept.entries i ≡ Some result }
        ensures time_most { result.time ≤ 2 ^ 62 }
        ensures total_most { result.total ≤ 2 ^ 62 }
    {
        self.snaps.entry(self.snaps.snap_at(i))
    }

    /// Replaces `out` by the snapshots in their order, by one walk. It takes no memory: `out` must have room for them.
    pub fn entries_into(&self, out: &mut Vec<SnapEntry>)
        requires room { length self.now.kept.entries ≤ vec_capacity out.old }
        ensures entries { out.new.items ≡ self.now.kept.entries }
    {
        self.snaps.entries_into(out);
    }

    /// The load of the snapshot at place `i`, from 0, which must be held.
    pub fn load(&self, i: u32) -> &T
        requires { i < length self.now.kept.entries }
        ensures { slice_get self.now.loads i ≡ Some result.now }
    {
        self.snaps.load(self.snaps.snap_at(i))
    }

    /// The least time at which a normal offer is taken: the last snapshot's and the interval, and 0 where none is held.
    pub fn next_time(&self) -> u64
        ensures time { result ≡ next_time_after self.now.kept.entries self.now.kept.interval }
        ensures most { result ≤ 2 ^ 63 }
    {
        self.normal_from
    }

    /// Takes an entry that is no peak.
    fn take_normal(&mut self, entry: SnapEntry, load: T)
        requires follows { MayFollow self.old.kept.entries entry.time entry.total }
        requires kind { is_peak entry ≡ false }
        ensures kept { self.new.kept ≡ held_with_normal self.old.settings self.old.kept entry }
        ensures takes { TakesEntry self.old self.new entry (self.old.kept.entries ++ entry ∷ [])
            (self.old.loads ++ load ∷ []) }
    {
        self.normals = next_in_turn(self.normals, self.detailed_freq);
        self.interval = append(&mut self.snaps, &mut self.gaps, entry, load, self.interval);
        self.normal_from = normal_from(&self.snaps, self.interval);
    }

    /// Takes an entry that is the peak from then on.
    fn take_peak(&mut self, entry: SnapEntry, load: T)
        requires follows { MayFollow self.old.kept.entries entry.time entry.total }
        ensures kept { self.new.kept
            ≡ bounded self.old.settings (with_peak self.old.kept entry) }
        ensures takes { TakesEntry self.old self.new entry
            (with_peak self.old.kept entry).entries (self.old.loads ++ load ∷ []) }
    {
        self.snaps.end_peak();
        self.last_peak = entry.total;
        self.peak_above = entry.total + allowance(entry.total, self.inaccuracy);
        self.interval = append(&mut self.snaps, &mut self.gaps, entry, load, self.interval);
        self.normal_from = normal_from(&self.snaps, self.interval);
    }
}

/// Appends the entry and its load, culls where the entries then reach the maximum, and answers the interval.
fn append<T: Drop>(
    snaps: &mut LinkedSnaps<T>,
    gaps: &mut Gaps,
    entry: SnapEntry,
    load: T,
    interval: u64,
) -> u64
    requires room { CanAppend snaps.old gaps.old entry }
    requires interval { interval ≤ 2 ^ 62 }
    ensures appends { Appends snaps.old snaps.new entry load }
    ensures gaps { length gaps.new.keys ≡ length gaps.old.keys }
    ensures interval { result
        ≡ interval_bounded snaps.old.max (snaps.old.entries ++ entry ∷ []) interval }
    ensures interval_most { result ≤ 2 ^ 62 }
{
    let max = snaps.max();
    snaps.push(entry, load);
    if snaps.len() < max {
        return interval;
    }
    snaps.cull(gaps)
}

/// The least time at which a normal offer is taken: the last snapshot's and the interval, and 0 where none is held.
fn normal_from<T: Drop>(snaps: &LinkedSnaps<T>, interval: u64) -> u64
    requires sound { AreSound snaps.now.entries }
    requires interval { interval ≤ 2 ^ 62 }
    ensures time { result ≡ next_time_after snaps.now.entries interval }
    ensures most { result ≤ 2 ^ 63 }
{
    match snaps.last() {
        None => 0,
        Some(entry) => entry.time + interval,
    }
}

fn snapshot(offer: &Offer, kind: Kind) -> SnapEntry
    ensures { result ≡ entry_of offer.now kind }
{
    SnapEntry {
        place: offer.place,
        time: offer.time,
        total: offer.total,
        kind,
    }
}

/// Whether one more than the number comes to the length of a turn, which is above the number.
fn is_last_in_turn(number: u64, length: u64) -> bool
    requires { number < length }
    ensures { result ≡ ((number + 1) % length == 0) }
{
    number + 1 == length
}

/// One more than the number, and 0 where that comes to the length of a turn, which is above the number.
fn next_in_turn(number: u64, length: u64) -> u64
    requires { number < length }
    ensures { result ≡ (number + 1) % length }
{
    let next = number + 1;
    if next == length {
        return 0;
    }
    next
}

/// By how much at most a total may be above the last peak's and not be taken as one, in bytes.
fn allowance(last_peak: u64, inaccuracy: u64) -> u64
    requires last_peak { last_peak ≤ 2 ^ 62 }
    requires inaccuracy { inaccuracy ≤ 10000 }
    ensures exact { result ≡ last_peak * inaccuracy / 10000 }
    ensures most { result ≤ last_peak }
{
    (u128::from(last_peak) * u128::from(inaccuracy) / u128::from(WHOLE)) as u64
}
