//! The tree of a snapshot of a trace, over the stacks as they are trimmed.
//! Which stacks are ignored, and so cost nothing, is said by the costs.
ghost use Rattle.std.specs.Prelude.{◌≡◌, length, IfOk};
ghost use Rattle.cost_tree.specs.Costs.{HasCosts, IsStated};
ghost use Rattle.massif_tree.specs.FirstLists.{AreSnapshotLines};

use crate::lines::tree_lines;
use crate::options::TreeOptions;
use cost_tree::{CostTree, Costing, CutFronts, Scale};
use hp_num::NoMemory;
use massif_file::Tree;
use std::alloc::Global;

/// The lines of the tree of a trace's first stacks with these costs, or `NoMemory`: each stack has the addressed texts of
/// its frames, from the innermost on, without its front of allocation functions. The snapshot has this total in bytes.
///
/// The lists are those that `add_trimmed` makes for these options, cut somewhere: they are made longer where lines need it,
/// and no text is made here. Those whose first text is too small as a whole are only counted.
pub fn snapshot_tree<F: Fn(u32) -> u64>(
    alloc: Global,
    fronts: &mut CutFronts,
    costing: &Costing<F>,
    options: &TreeOptions,
    total: u64,
) -> Result<Tree, NoMemory>
    requires as_many { costing.now.stacks ≡ length fronts.old.whole }
    requires stated { IsStated F.pre F.post costing.now }
    ensures lines { IfOk result
        (AreSnapshotLines (HasCosts F.pre F.post costing.now) options.now total fronts.old.whole) }
    ensures whole { fronts.new.whole ≡ fronts.old.whole }
{
    let scale = Scale {
        total,
        threshold: options.threshold,
    };
    let mut room = fronts.take_room(alloc);
    let gathered = fronts.gather_small(costing, scale, options.depth, &mut room)?;
    fronts.lengthen(alloc, scale, &mut room)?;
    // Says how many lists there may be.
    let _count = fronts.len();
    let tree = CostTree::of_cut(alloc, fronts, options.depth, &mut room)?;
    let lines = tree_lines(alloc, &tree, gathered, options, total);
    tree.into_room(&mut room);
    fronts.put_room(room);
    lines
}
