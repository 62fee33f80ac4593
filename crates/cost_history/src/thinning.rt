//! Thinning: the changes that no kept place can see are taken out.
ghost use Rattle.std.specs.Prelude.{◌≡◌, ◌⊎◌, ℕ, ◌^◌, ◌≤◌, Contains, [], length, drop};
ghost use Rattle.cost_history.specs.Changes.{AreOfCells, AreParted, IsAsked};
ghost use Rattle.cost_history.specs.Seen.{AreAscending, AreFrom, AreSeen, AreSifted, IsFirstFrom};
ghost use Rattle.cost_history.specs.Steps.{SeesSame};

use crate::change::Change;

/// What `seen` has of a stack of which no change is kept yet.
const UNSEEN: u64 = u64::MAX;

/// Takes out the changes that are made good before the next kept place, and, behind the last of these, before the last
/// change. Each kept place, and each place behind all changes, sees the same costs. It takes no memory.
pub(crate) fn thin(changes: &mut Vec<Change>, seen: &mut Vec<u64>, kept: &mut Vec<u64>, last: u64)
    requires between { AreOfCells seen.old.items changes.old.items last }
    requires last { last ≤ 2 ^ 62 }
    ensures between { AreOfCells seen.new.items changes.new.items last }
    ensures seen { length seen.new.items ≡ length seen.old.items }
    ensures costs { SeesSame kept.old.items last changes.old.items changes.new.items }
    ensures parted { AreParted kept.old.items changes.new.items }
{
    kept.sort_unstable();
    forget(seen);
    let left = sift(changes, seen, kept, last);
    move_down(changes, left);
}

/// Says of each stack that it isn't seen.
fn forget(seen: &mut Vec<u64>)
    ensures length { length seen.new.items ≡ length seen.old.items }
    ensures unseen { AreSeen seen.new.items [] }
{
    for cell in seen.iter_mut() {
        *cell = UNSEEN;
    }
}

/// Moves the changes that stay to the end, and answers where they begin.
fn sift(changes: &mut Vec<Change>, seen: &mut Vec<u64>, kept: &[u64], last: u64) -> usize
    requires between { AreOfCells seen.old.items changes.old.items last }
    requires last { last ≤ 2 ^ 62 }
    requires ascending { AreAscending kept.now }
    requires unseen { AreSeen seen.old.items [] }
    ensures within { result ≤ length changes.new.items }
    ensures sifted { AreSifted kept.now last changes.old.items seen.old.items seen.new.items
        (drop result changes.new.items) }
{
    let mut left = changes.len();
    let mut next = kept.len();
    let mut i = changes.len();
    'changes: while i > 0 {
        i -= 1;
        let change = changes[i];
        next = kept_from(kept, next, change.place);
        let until = until(kept, next, change.place, last);
        if seen[change.stack as usize] > until {
            left -= 1;
            changes[left] = change;
            seen[change.stack as usize] = change.place;
        }
    }
    left
}

/// How many of the first so many kept places are below the place, which those behind them are not.
fn kept_from(kept: &[u64], mut next: usize, place: u64) -> usize
    requires within { next ≤ length kept.now }
    requires ahead { AreFrom kept.now next place }
    ensures most { result ≤ next }
    ensures first { IsFirstFrom kept.now result place }
{
    while next > 0 && kept[next - 1] >= place {
        next -= 1;
    }
    next
}

/// The kept place at `next`, which is the first from `place` on; where there is none, or it is behind the last place of
/// all, that one.
fn until(kept: &[u64], next: usize, place: u64, last: u64) -> u64
    requires first { IsFirstFrom kept.now next place }
    requires ascending { AreAscending kept.now }
    ensures asked { (seer : ℕ) → IsAsked kept.now last seer → place ≤ seer → result ≤ seer }
    ensures most { result ≤ last }
    ensures kept { (result ≡ last) ⊎ (Contains kept.now result × (place ≤ result)) }
{
    if next < kept.len() && kept[next] < last {
        return kept[next];
    }
    last
}

/// Takes out the changes in front of `left`.
fn move_down(changes: &mut Vec<Change>, left: usize)
    requires { left ≤ length changes.old.items }
    ensures { changes.new.items ≡ drop left changes.old.items }
{
    let count = changes.len() - left;
    changes.copy_within(left.., 0);
    changes.truncate(count);
}
