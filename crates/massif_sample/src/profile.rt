//! The profile that the kept snapshots make.
ghost use Rattle.std.specs.Prelude.{◌≡◌, IfOk};
ghost use Rattle.massif_file.specs.Blanks.{without_blanks};
ghost use Rattle.massif_sample.specs.Made.{AreMade, IsMade, IsShownAt};
ghost use Rattle.massif_sample.specs.Sampled.{description, shown_command};
ghost use Rattle.massif_sample.specs.Snapshots.{mark_of};

use crate::load::Load;
use crate::place_tree::place_tree;
use cost_history::Replay;
use cost_tree::CutFronts;
use hp_num::{NoMemory, Text};
use massif_cull::{Kind, SnapArray, SnapEntry};
use massif_file::{HeapTree, Snap, Snaps, Tree};
use massif_tree::TreeOptions;
use stack_trees::CallChains;
use std::alloc::Global;

/// The snapshots of an array, which it hands out, with the trees of their places over the stacks' lists, or `NoMemory`. The lists
/// are cut where no tree has a line that needs more of them.
pub(crate) fn take_snaps(
    alloc: Global,
    array: &mut SnapArray<Load>,
    fronts: CallChains,
    replay: &mut Replay,
    options: &TreeOptions,
) -> Result<Snaps, NoMemory>
    ensures { IfOk result (AreMade options.now fronts replay.old.changes array.old) }
{
    let mut cut = fronts.into_cut(alloc)?;
    take_all(alloc, array, &mut cut, replay, options)
}

/// The snapshots of the array, over lists that are cut.
fn take_all(
    alloc: Global,
    array: &mut SnapArray<Load>,
    fronts: &mut CutFronts,
    replay: &mut Replay,
    options: &TreeOptions,
) -> Result<Snaps, NoMemory>
    ensures { IfOk result (AreMade options.now fronts.old.whole replay.old.changes array.old) }
{
    let mut snaps = Snaps::new(alloc);
    'each_snapshot: while let Some((entry, load)) = array.take_first() {
        let snap = snapshot(alloc, &entry, load, fronts, replay, options)?;
        snaps.push(snap)?;
    }
    Ok(snaps)
}

/// The snapshot of an entry and its load, or `NoMemory`.
fn snapshot(
    alloc: Global,
    entry: &SnapEntry,
    load: Load,
    fronts: &mut CutFronts,
    replay: &mut Replay,
    options: &TreeOptions,
) -> Result<Snap, NoMemory>
    ensures snap { IfOk result
        (IsMade options.now fronts.old.whole replay.old.changes entry.now load) }
    ensures changes { replay.new.changes ≡ replay.old.changes }
    ensures whole { fronts.new.whole ≡ fronts.old.whole }
{
    let tree = shown_tree(alloc, entry, fronts, replay, options)?;
    Ok(Snap {
        time: entry.time,
        heap: load.heap,
        extra: load.extra,
        stacks: 0,
        mark: mark_of(entry.kind),
        tree,
    })
}

/// Which tree a snapshot has.
fn mark_of(kind: Kind) -> HeapTree
    ensures { result ≡ mark_of kind }
{
    match kind {
        Kind::Normal => HeapTree::Empty,
        Kind::Detailed => HeapTree::Detailed,
        Kind::Peak => HeapTree::Peak,
    }
}

/// The tree of an entry, or `NoMemory`: that of what stacks cost at its place, and none where it's a normal one.
fn shown_tree(
    alloc: Global,
    entry: &SnapEntry,
    fronts: &mut CutFronts,
    replay: &mut Replay,
    options: &TreeOptions,
) -> Result<Tree, NoMemory>
    ensures tree { IfOk result
        (IsShownAt options.now fronts.old.whole replay.old.changes entry.now) }
    ensures changes { replay.new.changes ≡ replay.old.changes }
    ensures whole { fronts.new.whole ≡ fronts.old.whole }
{
    match entry.kind {
        Kind::Normal => Ok(Tree::new(alloc)),
        Kind::Detailed | Kind::Peak => {
            replay.move_to(entry.place);
            place_tree(alloc, fronts, options, entry.total, replay.costs())
        }
    }
}

/// What a profile says of how it was made.
pub(crate) fn description(alloc: Global) -> Result<Text, NoMemory>
    ensures { IfOk result (λ text. text ≡ description) }
{
    Text::new(alloc, b"heapsuite massif")
}

/// The command without its leading blanks, or `(none)` where nothing is left of it.
pub(crate) fn shown_command(alloc: Global, cmd: &[u8]) -> Result<Text, NoMemory>
    ensures { IfOk result (λ text. text ≡ shown_command cmd.now) }
{
    let shown = without_blanks(cmd);
    if shown.is_empty() {
        return Text::new(alloc, b"(none)");
    }
    Text::new(alloc, shown)
}

/// The text without the blanks that it begins with.
fn without_blanks(text: &[u8]) -> &[u8]
    ensures { result.now ≡ without_blanks text.now }
{
    let mut rest = text;
    'each_blank: while let [b' ', after @ ..] = rest {
        rest = after;
    }
    rest
}
