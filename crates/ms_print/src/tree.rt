//! The tree of a snapshot, written without recursion: what is still to be written is a list, the next entry last.
#![tactic(auto, using(hp_num::proofs::Laws::extends_same, hp_num::proofs::Laws::extends_more, hp_num::proofs::Laws::extends_trans))]

ghost use Rattle.std.specs.Prelude.{◌≡◌, ◌≤◌, ◌<◌, length, OnOk, reverse};
ghost use Rattle.hp_num.specs.Extends.{Extends};
ghost use Rattle.massif_file.specs.Trees.{IsTree};
ghost use Rattle.ms_print.specs.Appends.{Appends};
ghost use Rattle.ms_print.specs.Ends.{AreEnds, AreWhole};
ghost use Rattle.ms_print.specs.Pendings.{IsHeld, bar_before, blank_below};
ghost use Rattle.ms_print.specs.TreeText.{tree_text};
ghost use Rattle.ms_print.specs.Views.{AreBelowIn, below, line_of, lines_of, what_of};

use crate::children::{Entry, Pending, TreeView, children_into};
use crate::ends::ends_of;
use crate::entry::{Scale, put_entry, put_gathered};
use hp_num::{NoMemory, put_bytes};
use massif_file::Tree;
use std::alloc::Global;

/// Appends the tree: its root, and the entries below it. On `NoMemory`, some of it may stand at the end of `out`.
pub(crate) fn put_tree(
    alloc: Global,
    scale: Scale,
    tree: &Tree,
    out: &mut Vec<u8>,
) -> Result<(), NoMemory>
    requires tree { IsTree tree.now }
    requires threshold { scale.threshold ≤ 10000 }
    ensures appended { Appends (tree_text scale tree.now) out.old out.new result }
    ensures kept { Extends out.old.items out.new.items }
{
    let root = tree.at(0);
    put_entry(scale, root.bytes, root.label, out)?;
    put_bytes(out, b"\n")?;
    put_entries(alloc, scale, tree, out)
}

/// Appends the entries below the root.
fn put_entries(alloc: Global, scale: Scale, tree: &Tree, out: &mut Vec<u8>) -> Result<(), NoMemory>
    requires whole { AreWhole tree.now }
    requires some { 0 < length tree.now }
    requires threshold { scale.threshold ≤ 10000 }
    ensures appended { Appends (lines_of scale tree.now) out.old out.new result }
    ensures kept { Extends out.old.items out.new.items }
{
    let ends = ends_of(alloc, tree)?;
    let view = TreeView {
        tree,
        ends: &ends,
        scale,
    };
    let mut prefix = Vec::new(alloc);
    let mut children = Vec::new(alloc);
    let mut pending = Vec::new(alloc);
    children_into(&view, Entry::Line(0), 0, &mut children)?;
    push_reversed(&mut children, &mut pending)?;
    'each_entry: while let Some(next) = pending.pop() {
        prefix.truncate(next.indent);
        put_line(scale, tree, &prefix, next.entry, out)?;
        put_bytes(&mut prefix, bar_before(next.indent, &pending))?;
        put_below(&view, next.entry, &prefix, &mut children, out)?;
        push_reversed(&mut children, &mut pending)?;
    }
    Ok(())
}

/// Appends the line of an entry behind a prefix.
#[tactic(auto, unfolding(crate::specs::TreeText::entry_line))]
fn put_line(
    scale: Scale,
    tree: &Tree,
    prefix: &[u8],
    entry: Entry,
    out: &mut Vec<u8>,
) -> Result<(), NoMemory>
    requires held { IsHeld tree.now entry }
    requires threshold { scale.threshold ≤ 10000 }
    ensures appended { Appends (line_of scale prefix.now tree.now entry) out.old out.new result }
    ensures kept { Extends out.old.items out.new.items }
{
    put_bytes(out, prefix)?;
    put_bytes(out, b"->")?;
    put_what(scale, tree, entry, out)?;
    put_bytes(out, b"\n")
}

/// Appends what an entry says.
fn put_what(scale: Scale, tree: &Tree, entry: Entry, out: &mut Vec<u8>) -> Result<(), NoMemory>
    requires held { IsHeld tree.now entry }
    requires threshold { scale.threshold ≤ 10000 }
    ensures appended { Appends (what_of scale tree.now entry) out.old out.new result }
    ensures kept { Extends out.old.items out.new.items }
{
    match entry {
        Entry::Line(place) => {
            let line = tree.at(place);
            put_entry(scale, line.bytes, line.label, out)
        }
        Entry::Gathered(small) => put_gathered(scale, small.places, small.bytes, out),
    }
}

/// What leads on below an entry: a bar to the next one, where that stands on the same level.
fn bar_before(indent: usize, pending: &[Pending]) -> &'static [u8]
    ensures { result.now ≡ bar_before indent (reverse pending.now) }
{
    match pending.last() {
        Some(next) if next.indent == indent => b"| ",
        _ => b"  ",
    }
}

/// Puts the entries below one into `children`, and where it has none, appends the prefix that they would have.
fn put_below(
    view: &TreeView,
    entry: Entry,
    prefix: &[u8],
    children: &mut Vec<Pending>,
    out: &mut Vec<u8>,
) -> Result<(), NoMemory>
    requires whole { AreWhole view.now.tree.now }
    requires ends { AreEnds view.now.tree.now 0 view.now.ends.now }
    requires held { IsHeld view.now.tree.now entry }
    ensures roots { OnOk result
        (AreBelowIn view.now (length prefix.now) entry children.new.items) }
    ensures appended { Appends (blank_below (below view.now entry) prefix.now) out.old out.new result }
    ensures kept { Extends out.old.items out.new.items }
{
    children_into(view, entry, prefix.len(), children)?;
    if !children.is_empty() {
        return Ok(());
    }
    put_bytes(out, prefix)?;
    put_bytes(out, b"\n")
}

/// Moves the children to the end of what is pending, the first one last.
fn push_reversed(children: &mut Vec<Pending>, pending: &mut Vec<Pending>) -> Result<(), NoMemory>
    ensures appended { Appends (reverse children.old.items) pending.old pending.new result }
{
    'each_child: while let Some(child) = children.pop() {
        pending.push(child)?;
    }
    Ok(())
}
