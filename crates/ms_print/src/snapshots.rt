//! How many snapshots a page has, and which of them have a tree.
#![tactic(auto, using(hp_num::proofs::Laws::extends_same, hp_num::proofs::Laws::extends_more, hp_num::proofs::Laws::extends_trans))]

ghost use Rattle.std.specs.Prelude.{◌≡◌, codes, [], if◌then◌else◌};
ghost use Rattle.hp_num.specs.Extends.{Extends};
ghost use Rattle.ms_print.specs.Appends.{Appends};
ghost use Rattle.ms_print.specs.SnapshotsText.{has_tree, marked_number, numbers_text, snapshots_text};

use hp_num::{NoMemory, put_bytes, put_dec};
use massif_file::{HeapTree, Snaps};

/// Appends how many snapshots there are, and the numbers of those that have a tree. On `NoMemory`, some of it may stand at the end
/// of `out`.
pub(crate) fn put_snapshots(snaps: &Snaps, out: &mut Vec<u8>) -> Result<(), NoMemory>
    ensures appended { Appends (snapshots_text snaps.now) out.old out.new result }
    ensures kept { Extends out.old.items out.new.items }
{
    put_bytes(out, b"Number of snapshots: ")?;
    put_dec(out, snaps.len() as u64)?;
    put_bytes(out, b"\n Detailed snapshots: [")?;
    put_numbers(snaps, out)?;
    put_bytes(out, b"]\n\n")
}

/// Appends the numbers of the snapshots that have a tree.
#[tactic(auto, unfolding(crate::specs::SnapshotsText::numbers_text))]
fn put_numbers(snaps: &Snaps, out: &mut Vec<u8>) -> Result<(), NoMemory>
    ensures appended { Appends (numbers_text snaps.now) out.old out.new result }
    ensures kept { Extends out.old.items out.new.items }
{
    let mut is_first = true;
    'each_snap: for place in 0..snaps.len() {
        let mark = snaps.at(place).mark;
        if has_tree(mark) {
            put_comma(is_first, out)?;
            put_number(place as u64, mark, out)?;
            is_first = false;
        }
    }
    Ok(())
}

/// Whether a snapshot with this mark has a tree.
fn has_tree(mark: HeapTree) -> bool
    ensures { result ≡ has_tree mark }
{
    match mark {
        HeapTree::Empty => false,
        HeapTree::Detailed | HeapTree::Peak => true,
    }
}

/// Appends what stands before a number, which is nothing before the first.
fn put_comma(is_first: bool, out: &mut Vec<u8>) -> Result<(), NoMemory>
    ensures appended { Appends (if is_first then [] else codes ", ") out.old out.new result }
    ensures kept { Extends out.old.items out.new.items }
{
    if is_first {
        return Ok(());
    }
    put_bytes(out, b", ")
}

/// Appends the number of a snapshot with its mark.
fn put_number(n: u64, mark: HeapTree, out: &mut Vec<u8>) -> Result<(), NoMemory>
    ensures appended { Appends (marked_number n mark) out.old out.new result }
    ensures kept { Extends out.old.items out.new.items }
{
    put_dec(out, n)?;
    match mark {
        HeapTree::Peak => put_bytes(out, b" (peak)"),
        HeapTree::Empty | HeapTree::Detailed => Ok(()),
    }
}
