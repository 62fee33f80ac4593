//! The places of the snapshots that have trees: what stacks cost there has to be known.
ghost use Rattle.std.specs.Prelude.{◌≡◌, IfOk};
ghost use Rattle.massif_sample.specs.Snapshots.{AreTreePlaces, shows_tree};

use crate::load::Load;
use hp_num::NoMemory;
use massif_cull::{Kind, SnapArray, SnapEntry};
use std::alloc::Global;

/// The places of the snapshots that have a tree, or `NoMemory`.
pub(crate) fn tree_places(alloc: Global, array: &SnapArray<Load>) -> Result<Vec<u64>, NoMemory>
    ensures { IfOk result (λ places. AreTreePlaces array.now.kept.entries places.items) }
{
    let mut entries = Vec::with_capacity(alloc, array.len() as usize)?;
    array.entries_into(&mut entries);
    places_with_tree(alloc, &entries)
}

/// The places of the entries that have a tree, or `NoMemory`.
fn places_with_tree(alloc: Global, entries: &[SnapEntry]) -> Result<Vec<u64>, NoMemory>
    ensures { IfOk result (λ places. AreTreePlaces entries.now places.items) }
{
    let mut places = Vec::new(alloc);
    'entries: for entry in entries {
        if !has_tree(entry.kind) {
            continue;
        }
        places.push(entry.place)?;
    }
    Ok(places)
}

/// Whether a snapshot of the kind has a tree.
fn has_tree(kind: Kind) -> bool
    ensures { result ≡ shows_tree kind }
{
    match kind {
        Kind::Normal => false,
        Kind::Detailed => true,
        Kind::Peak => true,
    }
}
