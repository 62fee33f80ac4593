//! The lines of a view's tree.
//! Which places have lines of their own, and in which order, is `cost_tree`'s part.
#![tactic(auto, using(hp_num::proofs::Laws::extends_same, hp_num::proofs::Laws::extends_more, hp_num::proofs::Laws::extends_trans))]

ghost use Rattle.std.specs.Prelude.{◌≡◌, ◌-◌, ◌≤◌, ◌++◌, [], List, All, OnOk};
ghost use Rattle.cost_tree.specs.Costed.{Costed};
ghost use Rattle.cost_tree.specs.TreeLines.{front_at};
ghost use Rattle.hp_num.specs.Extends.{Extends};
ghost use Rattle.dhat_view.specs.LinesIn.{IsViewed, IsWritten, text_in, GainsTree, texts_in};

use crate::lines::{put_gathered, put_line};
use crate::options::ViewOptions;
use cost_tree::{CostLine, CostTree, Place, Scale, cost_lines};
use hp_num::NoMemory;
use std::alloc::Global;

/// Appends the lines of the nodes below node 0, whose costs are shares of the sum. On `NoMemory`, some of them may stand at
/// the end of `out`.
pub(crate) fn put_tree(
    alloc: Global,
    options: &ViewOptions,
    sum: u64,
    tree: &CostTree,
    out: &mut Vec<u8>,
) -> Result<(), NoMemory>
    requires tree { (stacks : List Costed) × IsViewed sum tree.now stacks options.now.depth }
    ensures appended { OnOk result
        (GainsTree sum options.now tree.now out.old.items out.new.items) }
    ensures kept { Extends out.old.items out.new.items }
{
    let scale = Scale {
        total: sum,
        threshold: options.threshold,
    };
    let lines = cost_lines(alloc, tree, scale)?;
    let Some((_root, below)) = lines.split_first() else {
        return Ok(());
    };
    put_lines(tree, scale, below, out)
}

fn put_lines(
    tree: &CostTree,
    scale: Scale,
    lines: &[CostLine],
    out: &mut Vec<u8>,
) -> Result<(), NoMemory>
    requires threshold { scale.threshold ≤ 10000 }
    requires root { front_at tree.now 0 ≡ [] }
    requires written { All (IsWritten scale tree.now) lines.now }
    ensures appended { OnOk result
        (out.new.items ≡ out.old.items ++ texts_in scale tree.now lines.now) }
    ensures kept { Extends out.old.items out.new.items }
{
    'each_line: for line in lines {
        put_cost_line(tree, scale, line, out)?;
    }
    Ok(())
}

/// Appends the line of a place.
fn put_cost_line(
    tree: &CostTree,
    scale: Scale,
    line: &CostLine,
    out: &mut Vec<u8>,
) -> Result<(), NoMemory>
    requires threshold { scale.threshold ≤ 10000 }
    requires root { front_at tree.now 0 ≡ [] }
    requires written { IsWritten scale tree.now line.now }
    ensures appended { OnOk result
        (out.new.items ≡ out.old.items ++ text_in scale tree.now line.now) }
    ensures kept { Extends out.old.items out.new.items }
{
    let level = line.level.saturating_sub(1);
    match line.place {
        Place::Node { node } => put_line(scale, level, line.cost, tree.text(node), out),
        Place::Gathered { places } => put_gathered(scale, level, line.cost, places, out),
    }
}
