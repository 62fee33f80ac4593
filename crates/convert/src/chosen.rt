//! Which snapshot of a Massif profile is folded.
ghost use Rattle.std.specs.Prelude.{◌≡◌, slice_get, option_and_then, option_copied};
ghost use Rattle.convert.specs.Chosen.{chosen, has_tree, last_chosen, if_marked, is_detailed, is_peak, last_marked};

use massif_file::{HeapTree, Profile, Snap};

/// The snapshot with this number, where it is there and has a tree; without a number the last peak, and where there is none
/// the last detailed snapshot. It takes no memory.
pub(crate) fn chosen_snap(number: Option<u32>, profile: &Profile) -> Option<&Snap>
    ensures chosen { option_copied result ≡ chosen number profile.now }
{
    let snaps = profile.snaps.as_slice();
    match number {
        Some(number) => with_tree(snaps, number as usize),
        None => last_with_tree(snaps),
    }
}

/// The snapshot with this number, where it is there and has a tree.
fn with_tree(snaps: &[Snap], number: usize) -> Option<&Snap>
    ensures { option_copied result
        ≡ option_and_then (if_marked has_tree) (slice_get snaps.now number) }
{
    let snap = snaps.get(number)?;
    if has_tree(snap.mark) {
        Some(snap)
    } else {
        None
    }
}

/// The last peak, and where there is none the last detailed snapshot.
fn last_with_tree(snaps: &[Snap]) -> Option<&Snap>
    ensures { option_copied result
        ≡ last_chosen snaps.now }
{
    match last_peak(snaps) {
        Some(snap) => Some(snap),
        None => last_detailed(snaps),
    }
}

fn last_peak(snaps: &[Snap]) -> Option<&Snap>
    ensures { option_copied result ≡ last_marked is_peak snaps.now }
{
    snaps.iter().rev().find(|snap| is_peak(snap.mark))
}

fn last_detailed(snaps: &[Snap]) -> Option<&Snap>
    ensures { option_copied result ≡ last_marked is_detailed snaps.now }
{
    snaps.iter().rev().find(|snap| is_detailed(snap.mark))
}

fn is_peak(mark: HeapTree) -> bool
    ensures { result ≡ is_peak mark }
{
    match mark {
        HeapTree::Peak => true,
        HeapTree::Empty | HeapTree::Detailed => false,
    }
}

fn is_detailed(mark: HeapTree) -> bool
    ensures { result ≡ is_detailed mark }
{
    match mark {
        HeapTree::Detailed => true,
        HeapTree::Empty | HeapTree::Peak => false,
    }
}

/// A detailed snapshot and a peak have a tree.
fn has_tree(mark: HeapTree) -> bool
    ensures { result ≡ has_tree mark }
{
    match mark {
        HeapTree::Detailed | HeapTree::Peak => true,
        HeapTree::Empty => false,
    }
}
