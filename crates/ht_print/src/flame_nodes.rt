//! The nodes of a tree that have a line, in the order of the lines: those of a node stand before those of its children, whose
//! order is the tree's; and how long a line may be. What the tree stands for is no part of it.
ghost use Rattle.std.specs.Prelude.{◌≡◌, ◌+◌, ◌<◌, ◌≤◌, All, List, length, reverse, IfOk, OnOk};
ghost use Rattle.cost_tree.specs.Children.{children_of};
ghost use Rattle.cost_tree.specs.Costed.{Costed};
ghost use Rattle.cost_tree.specs.IsTreeOf.{IsTreeOf};
ghost use Rattle.ht_print.specs.Appends.{Appends};
ghost use Rattle.ht_print.specs.FlameLines.{AddsLineOf, HasLine, StillHaveLines, line_bytes, lines_at};
ghost use Rattle.ht_print.specs.FlameWalk.{AreFlamesOf, IsRooted};
ghost use Rattle.stack_table.specs.Stack.{most_frames};

use cost_tree::CostTree;
use hp_num::NoMemory;
use std::alloc::Global;

/// A line has so many bytes behind its front's text at most: a blank, 20 digits and a line feed.
const FIGURE: usize = 22;

/// The nodes that have a line, in the order of the lines.
pub(crate) fn line_nodes(alloc: Global, tree: &CostTree) -> Result<Vec<usize>, NoMemory>
    requires tree { (stacks : List Costed) × IsTreeOf tree.now stacks most_frames }
    ensures lines { IfOk result (λ nodes. All (HasLine tree.now) nodes.items) }
    ensures text { IfOk result (λ nodes. AreFlamesOf tree.now (lines_at tree.now nodes.items)) }
{
    let mut nodes = Vec::new(alloc);
    // The nodes that are still to be gone to, the next one last.
    let mut left = Vec::new(alloc);
    let mut buffer = Vec::new(alloc);
    left.push(0)?;
    'each_node: while let Some(n) = left.pop() {
        push_node(tree, n, &mut nodes)?;
        push_children(tree, n, &mut buffer, &mut left)?;
    }
    Ok(nodes)
}

/// Appends node `n`, where its own cost isn't 0.
fn push_node(tree: &CostTree, n: usize, nodes: &mut Vec<usize>) -> Result<(), NoMemory>
    requires held { n < length tree.now.nodes }
    ensures lines { OnOk result (StillHaveLines tree.now nodes.old.items nodes.new.items) }
    ensures text { OnOk result (AddsLineOf tree.now n nodes.old.items nodes.new.items) }
{
    if tree.node(n).own == 0 {
        return Ok(());
    }
    nodes.push(n)?;
    Ok(())
}

/// Appends the children of node `n`, the first one last. `children` is a buffer.
fn push_children(
    tree: &CostTree,
    n: usize,
    children: &mut Vec<usize>,
    left: &mut Vec<usize>,
) -> Result<(), NoMemory>
    requires held { n < length tree.now.nodes }
    ensures appended { Appends (reverse (children_of tree.now.nodes n)) left.old left.new result }
{
    tree.children_into(n, children)?;
    children.reverse();
    left.extend_from_slice(children)?;
    Ok(())
}

/// The most bytes that a line may have, with a byte to spare.
pub(crate) fn longest_line(alloc: Global, tree: &CostTree) -> Result<usize, NoMemory>
    requires tree { IsRooted tree.now }
    ensures { IfOk result
        (λ longest. All (λ texts. line_bytes texts ≤ longest) tree.now.fronts) }
{
    let mut lengths = Vec::with_capacity(alloc, tree.len())?;
    lengths.push(FIGURE)?;
    let mut longest = FIGURE;
    'each_node: for n in 1..tree.len() {
        let above = lengths[tree.node(n).parent];
        let length = longer(above, tree.text(n))?;
        lengths.push(length)?;
        longest = longest.max(length);
    }
    Ok(longest)
}

/// The bytes of a front's text with one text more, of those of the front. One that is no number can't be held.
fn longer(above: usize, text: &[u8]) -> Result<usize, NoMemory>
    ensures { IfOk result (λ bytes. bytes ≡ above + (length text.now + 1)) }
{
    above.checked_add(text.len() + 1).ok_or(NoMemory)
}
