//! The folded lines of a Massif profile: the lines of one snapshot's tree by the labels above them, with what their children
//! leave of their bytes.
#![tactic(auto, using(hp_num::proofs::Laws::extends_same, hp_num::proofs::Laws::extends_more, hp_num::proofs::Laws::extends_trans))]

ghost use Rattle.std.specs.Prelude.{◌≡◌, ◌≢◌, ◌≤◌, ◌^◌, ◌++◌, [], length, sum, Some, None, Err, IfErr, IfOk, OnErr, OnOk};
ghost use Rattle.hp_num.specs.Extends.{Extends};
ghost use Rattle.intern_tables.specs.Distinct.{AreDistinct};
ghost use Rattle.convert.specs.declared.fault.ConvertFault.TheVariants.{NoTree};
ghost use Rattle.convert.specs.AreFolded.{GainsLines};
ghost use Rattle.convert.specs.Chosen.{chosen, chosen_items, folded_of_massif};
ghost use Rattle.convert.specs.ConvertFault.{IsFaultOf, folded_massif_fault, items_fault};
ghost use Rattle.convert.specs.Folded.{folded_text};
ghost use Rattle.convert.specs.Levels.{HaveLength, left_in};
ghost use Rattle.dhat_view.specs.Numbers.{AreNumbers};
ghost use Rattle.convert.specs.Numbers.{SumsUp};
ghost use Rattle.convert.specs.TreeItems.{labels_of, tree_items};

use crate::chosen::chosen_snap;
use crate::fault::ConvertFault;
use crate::left_bytes::{left_bytes, sum_is_too_large};
use crate::lines::put_lines;
use crate::list_sums::ListSums;
use crate::path::{Level, enter, labels_into};
use dhat_view::ShownTexts;
use hp_num::NoMemory;
use massif_file::{Profile, Tree};
use std::alloc::Global;

/// Appends the folded lines of a snapshot of the profile: of the one with this number, or without a number of the last peak,
/// and where there is none of the last detailed snapshot. For each list of labels from the root's child down to some lines of
/// its tree, whose bytes without those of their children have a sum other than 0, a line has these labels from the last to the
/// first with `;` between them, a blank, the sum and a line feed. A `;` within a label is written `:`, what the root keeps for
/// itself is `(no stack)`, and the lines stand by the first line of the tree that has their list and keeps something. A line
/// whose children have more bytes than it keeps nothing. Labels are shown as `put_shown` shows texts.
///
/// `NoTree` comes exactly where no such snapshot has a tree, and takes no memory; then `TooLarge` where what the lines keep
/// sums to more than 2^62. On any fault, `out` holds what it held before.
pub fn put_folded_massif(
    alloc: Global,
    snapshot: Option<u32>,
    profile: &Profile,
    out: &mut Vec<u8>,
) -> Result<(), ConvertFault>
    ensures appended { OnOk result
        (out.new.items ≡ out.old.items ++ folded_of_massif snapshot profile.now) }

    // For each list the lines have the sum of the items with that list, and a list whose sum is 0 has no line.
    ensures sums { OnOk result
        (GainsLines (chosen_items snapshot profile.now) out.old.items out.new.items) }

    ensures no_fault { OnOk result (folded_massif_fault snapshot profile.now ≡ None) }
    ensures fault { IfErr result
        (λ fault. IsFaultOf (folded_massif_fault snapshot profile.now) fault) }
    ensures no_tree { chosen snapshot profile.now ≡ None → result ≡ Err NoTree }
    ensures unchanged { OnErr result (out.new.items ≡ out.old.items) }
{
    let Some(snap) = chosen_snap(snapshot, profile) else {
        return Err(ConvertFault::NoTree);
    };
    let start = out.len();
    match put_tree(alloc, &snap.tree, out) {
        Ok(()) => Ok(()),
        Err(fault) => {
            out.truncate(start);
            Err(fault)
        }
    }
}

/// Appends the lines of a tree. On a fault, some of them may stand at the end of `out`.
fn put_tree(alloc: Global, tree: &Tree, out: &mut Vec<u8>) -> Result<(), ConvertFault>
    ensures appended { OnOk result
        (out.new.items ≡ out.old.items ++ folded_text (tree_items tree.now)) }
    ensures no_fault { OnOk result (items_fault (tree_items tree.now) ≡ None) }
    ensures fault { IfErr result (λ fault. IsFaultOf (items_fault (tree_items tree.now)) fault) }
    ensures not_no_tree { IfErr result (λ fault. fault ≢ ConvertFault.NoTree) }
    ensures kept { Extends out.old.items out.new.items }
{
    let left = left_bytes(alloc, tree)?;
    if sum_is_too_large(&left) {
        return Err(ConvertFault::TooLarge);
    }
    let sums = tree_sums(alloc, tree, &left)?;
    put_lines(&sums, out)?;
    Ok(())
}

/// The sums of what lines keep by their lists.
fn tree_sums(alloc: Global, tree: &Tree, left: &[u64]) -> Result<ListSums, NoMemory>
    requires left { left.now ≡ left_in tree.now }
    requires within { sum left.now ≤ 2 ^ 62 }
    ensures sums { IfOk result (λ sums. SumsUp sums (tree_items tree.now)) }
{
    let texts = shown_labels(alloc, tree)?;
    let ShownTexts { names, numbers, .. } = texts;
    let mut sums = ListSums::new(alloc, names);
    let mut walk = Walk {
        levels: Vec::new(alloc),
        list: Vec::new(alloc),
    };
    add_lines(tree, &numbers, left, &mut walk, &mut sums)?;
    Ok(sums)
}

/// Where a walk over the lines stands, and a buffer for a list of labels.
#[derive(Drop)]
struct Walk {
    levels: Vec<Level>,
    list: Vec<usize>,
}

/// Adds what each line keeps to its list. The numbers are those of the lines' shown labels.
fn add_lines(
    tree: &Tree,
    numbers: &[usize],
    left: &[u64],
    walk: &mut Walk,
    sums: &mut ListSums,
) -> Result<(), NoMemory>
    requires left { left.now ≡ left_in tree.now }
    requires within { sum left.now ≤ 2 ^ 62 }
    requires counts { HaveLength (length tree.now) left.now numbers.now }
    requires numbers { AreNumbers sums.old.names numbers.now (labels_of tree.now) }
    requires begun { (walk.old.levels.items ≡ []) × SumsUp sums.old [] }
    ensures sums { OnOk result (SumsUp sums.new (tree_items tree.now)) }
{
    'each_line: for place in 0..tree.len() {
        enter(&mut walk.levels, numbers[place], tree.at(place).children)?;
        labels_into(&walk.levels, &mut walk.list)?;
        sums.add(&walk.list, left[place])?;
    }
    Ok(())
}

/// The shown labels of the lines under numbers.
fn shown_labels(alloc: Global, tree: &Tree) -> Result<ShownTexts, NoMemory>
    ensures numbers { IfOk result
        (λ texts. AreNumbers texts.names texts.numbers.items (labels_of tree.now)) }
    ensures distinct { IfOk result (λ texts. AreDistinct texts.names) }
{
    let mut texts = ShownTexts::new(alloc);
    'each_line: for place in 0..tree.len() {
        texts.push(tree.at(place).label)?;
    }
    Ok(texts)
}
