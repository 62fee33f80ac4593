//! The entries that stand below an entry: its children with many bytes, and the others gathered.
ghost use Rattle.std.specs.Prelude.{◌≡◌, ◌+◌, ◌-◌, ◌<◌, ◌^◌, [], length, IfOk, OnOk, min};
ghost use Rattle.ms_print.specs.Appends.{Appends};
ghost use Rattle.ms_print.specs.Ends.{AreEnds, AreWhole};
ghost use Rattle.ms_print.specs.Pendings.{AreSmall, IsHeld, pending_gathered};
ghost use Rattle.ms_print.specs.Views.{AreKeptIn, AreRootsIn, below, children_of};

use crate::entry::Scale;
use hp_num::NoMemory;
use massif_file::Tree;

/// Places that are too small to be shown by themselves.
#[derive(Clone, Copy)]
pub(crate) struct Gathered {
    /// How many there are.
    pub(crate) places: u64,
    /// What they have together, or 2^64 - 1 where that is more.
    pub(crate) bytes: u64,
}

/// A tree of which entries are shown.
#[derive(Clone, Copy)]
pub(crate) struct TreeView<'a> {
    pub(crate) tree: &'a Tree,
    /// Where the lines of each line's own tree end.
    pub(crate) ends: &'a [usize],
    pub(crate) scale: Scale,
}

/// An entry of a tree.
#[derive(Clone, Copy)]
pub(crate) enum Entry {
    /// The line at this place of the tree.
    Line(usize),
    /// The places that are gathered.
    Gathered(Gathered),
}

/// An entry that is still to be written.
#[derive(Clone, Copy)]
pub(crate) struct Pending {
    /// How many bytes stand before it on its line.
    pub(crate) indent: usize,
    pub(crate) entry: Entry,
}

/// Puts the entries below an entry into `children`, in their order.
#[tactic(auto, unfolding(crate::specs::Shown::shown))]
pub(crate) fn children_into(
    view: &TreeView,
    entry: Entry,
    indent: usize,
    children: &mut Vec<Pending>,
) -> Result<(), NoMemory>
    requires whole { AreWhole view.now.tree.now }
    requires ends { AreEnds view.now.tree.now 0 view.now.ends.now }
    requires held { IsHeld view.now.tree.now entry }
    ensures roots { OnOk result
        (AreRootsIn view.now indent children.new.items (below view.now entry)) }
{
    children.clear();
    match entry {
        Entry::Line(place) => {
            let gathered = split_children(view, place, indent, children)?;
            push_gathered(indent, gathered, children)
        }
        Entry::Gathered(_) => Ok(()),
    }
}

/// Appends the children that are shown by themselves to none, and gathers the others.
fn split_children(
    view: &TreeView,
    place: usize,
    indent: usize,
    children: &mut Vec<Pending>,
) -> Result<Gathered, NoMemory>
    requires whole { AreWhole view.now.tree.now }
    requires ends { AreEnds view.now.tree.now 0 view.now.ends.now }
    requires held { place < length view.now.tree.now }
    requires empty { children.old.items ≡ [] }
    ensures kept { OnOk result
        (AreKeptIn view.now indent children.new.items (children_of view.now place)) }
    ensures gathered { IfOk result (AreSmall view.now.scale (children_of view.now place)) }
{
    let mut gathered = Gathered {
        places: 0,
        bytes: 0,
    };
    let mut child = place + 1;
    'each_child: for _ in 0..view.tree.at(place).children {
        let bytes = view.tree.at(child).bytes;
        if view.scale.is_small(bytes) {
            gathered = gathered.with(bytes);
        } else {
            let entry = Entry::Line(child);
            children.push(Pending { indent, entry })?;
        }
        child = view.ends[child];
    }
    Ok(gathered)
}

impl Gathered {
    /// These and one place more.
    fn with(self, bytes: u64) -> Gathered
        requires few { self.places < 2 ^ 32 }
        ensures places { result.places ≡ self.places + 1 }
        ensures bytes { result.bytes ≡ min (self.bytes + bytes) (2 ^ 64 - 1) }
    {
        Gathered {
            places: self.places + 1,
            bytes: self.bytes.saturating_add(bytes),
        }
    }
}

/// Appends the entry of places that are gathered, where there are some.
fn push_gathered(
    indent: usize,
    gathered: Gathered,
    children: &mut Vec<Pending>,
) -> Result<(), NoMemory>
    ensures appended { Appends (pending_gathered indent gathered) children.old children.new result }
{
    if gathered.places == 0 {
        return Ok(());
    }
    let entry = Entry::Gathered(gathered);
    children.push(Pending { indent, entry })?;
    Ok(())
}
