//! The lines of a tree: that of a node stands before those of its children.
//! Where a tree comes from, and how a line is written, are no part of it.
ghost use Rattle.std.specs.Prelude.{◌≡◌, ℕ, ◌+◌, ◌<◌, ◌≤◌, ◌^◌, if◌then◌else◌, nat_lt, List, [], ◌++◌, length, IfOk, OnOk, sum_by};
ghost use Rattle.cost_tree.specs.declared.line.CostLine.{CostLine};
ghost use Rattle.cost_tree.specs.Costed.{Costed};
ghost use Rattle.cost_tree.specs.Gathering.{HaveLines, TakesBoth};
ghost use Rattle.cost_tree.specs.Pendings.{AddsChildren, IsPending, child_lines, children_below, gathered_line, pending_alone, pending_below, pending_gathered, pending_line, pending_of};
ghost use Rattle.cost_tree.specs.WalkLines.{IsWalking, TakesBehind, TakesLeft, few_lines, root_line};
ghost use Rattle.cost_tree.specs.Shares.{HasFewChildren, cost_at};
ghost use Rattle.cost_tree.specs.AreLinesOf.{AreInTree, GivesLines, StandForAll, TakesLines};

use crate::child_nodes::ChildNodes;
use crate::children::{Child, Gathered, sort_children, split_children};
use crate::line::{CostLine, Place};
use crate::line_taker::CostLineTaker;
use crate::scale::Scale;
use crate::tree::CostTree;
use hp_num::NoMemory;
use std::alloc::Global;

/// What still has no line.
#[derive(Clone, Copy)]
pub(crate) enum Pending {
    /// A node on a level, and the nodes below it.
    Below { level: usize, node: usize },
    /// A line that has nothing below it.
    Line { line: CostLine },
}

/// Buffers for the children of a node.
#[derive(Drop)]
struct Children {
    nodes: Vec<usize>,
    kept: Vec<Child>,
}

/// The lines of the tree, or `NoMemory`: a line for node 0, and below a line the children whose share of the total reaches
/// the threshold, by descending cost and then by their least stack, before one line for all others.
///
/// The tree must be one of fewer than 2^32 stacks, which cost at most 2^62 together.
pub fn cost_lines(alloc: Global, tree: &CostTree, scale: Scale) -> Result<Vec<CostLine>, NoMemory>
    requires tree { GivesLines tree.now }
    ensures lines { IfOk result (λ lines. StandForAll scale tree.now lines.items) }
    ensures each { IfOk result (λ lines. AreInTree tree.now lines.items) }
{
    let mut lines = Vec::new(alloc);
    take_lines(alloc, tree, scale, &mut lines)?;
    Ok(lines)
}

/// Gives the lines of the tree, which must be as `cost_lines` says, to a taker one by one. After `NoMemory` the taker is of no use.
pub fn take_lines<T: CostLineTaker>(
    alloc: Global,
    tree: &CostTree,
    scale: Scale,
    taker: &mut T,
) -> Result<(), NoMemory>
    requires tree { GivesLines tree.now }
    requires none_yet { T.takes tree.now taker.old [] taker.old }
    ensures taken { OnOk result (TakesLines T.takes scale tree.now taker.old taker.new) }
{
    let mut children = Children {
        nodes: Vec::new(alloc),
        kept: Vec::new(alloc),
    };
    let mut pending = Vec::new(alloc);
    pending.push(Pending::Below { level: 0, node: 0 })?;
    take_left(tree, scale, &mut children, &mut pending, taker)
}

/// Gives the lines of the tree and of what is gathered beside it to a taker one by one: the line of node 0 counts both, and that of
/// what is gathered comes last. After `NoMemory` the taker is of no use.
pub fn take_both_lines<T: CostLineTaker>(
    alloc: Global,
    tree: &CostTree,
    scale: Scale,
    gathered: Gathered,
    taker: &mut T,
) -> Result<(), NoMemory>
    requires both { (stacks : List Costed) × (depth : ℕ)
        × HaveLines scale tree.now gathered stacks depth }
    requires none_yet { T.takes tree.now taker.old [] taker.old }
    ensures taken { OnOk result (TakesBoth T.takes scale tree.now gathered taker.old taker.new) }
{
    let mut children = Children {
        nodes: Vec::new(alloc),
        kept: Vec::new(alloc),
    };
    let mut pending = Vec::new(alloc);
    let root = Pending::Below { level: 0, node: 0 };
    let line = take_pending(tree, scale, root, &mut children, &mut pending)?;
    taker.take_line(tree, with_gathered(line, gathered))?;
    take_left(tree, scale, &mut children, &mut pending, taker)?;
    take_gathered(tree, gathered, taker)
}

/// Gives the line of what is gathered beside the tree to a taker, where there is some.
fn take_gathered<T: CostLineTaker>(
    tree: &CostTree,
    gathered: Gathered,
    taker: &mut T,
) -> Result<(), NoMemory>
    requires tree { GivesLines tree.now }
    ensures taken { OnOk result
        (TakesBehind (T.takes tree.now) (few_lines gathered) taker.old taker.new) }
{
    if gathered.places > 0 {
        return taker.take_line(tree, gathered_line(1, gathered));
    }
    Ok(())
}

/// The line of node 0 with what is gathered beside the tree.
fn with_gathered(root: CostLine, gathered: Gathered) -> CostLine
    requires children { root.children + (if nat_lt 0 gathered.places then 1 else 0) < 2 ^ 32 }
    requires cost { root.cost + gathered.cost < 2 ^ 64 }
    ensures { result ≡ root_line root gathered }
{
    CostLine {
        level: root.level,
        children: root.children + u32::from(gathered.places > 0),
        cost: root.cost + gathered.cost,
        place: root.place,
    }
}

/// Gives the lines of what is pending to a taker, and leaves nothing. `children` are buffers.
fn take_left<T: CostLineTaker>(
    tree: &CostTree,
    scale: Scale,
    children: &mut Children,
    pending: &mut Vec<Pending>,
    taker: &mut T,
) -> Result<(), NoMemory>
    requires tree { GivesLines tree.now }
    requires walking { (lines : List CostLine) × IsWalking scale tree.now lines pending.old.items }
    ensures taken { OnOk result
        (TakesLeft T.takes scale tree.now pending.old.items taker.old taker.new) }
{
    'each_pending: while let Some(next) = pending.pop() {
        let line = take_pending(tree, scale, next, children, pending)?;
        taker.take_line(tree, line)?;
    }
    Ok(())
}

/// The line of what is pending; what stands below it is put in its place, the first one last. `children` are buffers.
fn take_pending(
    tree: &CostTree,
    scale: Scale,
    next: Pending,
    children: &mut Children,
    pending: &mut Vec<Pending>,
) -> Result<CostLine, NoMemory>
    requires pending { IsPending tree.now next }
    requires within { sum_by (cost_at tree.now) (children_below tree.now next) ≤ 2 ^ 62 }
    requires few { length (children_below tree.now next) < 2 ^ 32 }
    ensures line { IfOk result (λ line. line ≡ pending_line scale tree.now next) }
    ensures below { OnOk result
        (pending.new.items ≡ pending.old.items ++ pending_below scale tree.now next) }
{
    match next {
        Pending::Below { level, node } => {
            let count = push_children(tree, scale, level + 1, node, children, pending)?;
            Ok(CostLine {
                level,
                children: count,
                cost: tree.cost(node),
                place: Place::Node { node },
            })
        }
        Pending::Line { line } => Ok(line),
    }
}

/// Appends the children of a node, which stand on this level, the first one last, and answers how many lines they have.
/// `children` are buffers, and needed only where it has several.
fn push_children(
    tree: &CostTree,
    scale: Scale,
    level: usize,
    node: usize,
    children: &mut Children,
    pending: &mut Vec<Pending>,
) -> Result<u32, NoMemory>
    requires few { HasFewChildren tree.now node }
    ensures appended { OnOk result
        (AddsChildren scale tree.now level node pending.old.items pending.new.items) }
    ensures count { IfOk result (λ count. count ≡ child_lines scale tree.now level node) }
{
    match tree.child_nodes(node) {
        ChildNodes::None => Ok(0),
        ChildNodes::One { child } => {
            pending.push(only_child(tree, scale, level, child))?;
            Ok(1)
        }
        ChildNodes::Several => push_several(tree, scale, level, node, children, pending),
    }
}

/// What is pending of a node that has no siblings and stands on this level.
fn only_child(tree: &CostTree, scale: Scale, level: usize, child: usize) -> Pending
    requires held { child < length tree.now.nodes }
    ensures { result ≡ pending_alone scale tree.now level child }
{
    let cost = tree.cost(child);
    if !scale.is_small(cost) {
        return Pending::Below { level, node: child };
    }
    Pending::Line {
        line: CostLine {
            level,
            children: 0,
            cost,
            place: Place::Gathered { places: 1 },
        },
    }
}

/// Appends the children of a node, and answers how many lines they have, as `push_children` does.
fn push_several(
    tree: &CostTree,
    scale: Scale,
    level: usize,
    node: usize,
    children: &mut Children,
    pending: &mut Vec<Pending>,
) -> Result<u32, NoMemory>
    requires few { HasFewChildren tree.now node }
    ensures appended { OnOk result
        (AddsChildren scale tree.now level node pending.old.items pending.new.items) }
    ensures count { IfOk result (λ count. count ≡ child_lines scale tree.now level node) }
{
    let before = pending.len();
    push_shown(tree, scale, level, node, children, pending)?;
    Ok((pending.len() - before) as u32)
}

/// Appends the children of a node, which stand on this level, the first one last. `children` are buffers.
fn push_shown(
    tree: &CostTree,
    scale: Scale,
    level: usize,
    node: usize,
    children: &mut Children,
    pending: &mut Vec<Pending>,
) -> Result<(), NoMemory>
    requires few { HasFewChildren tree.now node }
    ensures appended { OnOk result
        (AddsChildren scale tree.now level node pending.old.items pending.new.items) }
{
    tree.children_into(node, &mut children.nodes)?;
    children.kept.clear();
    let gathered = split_children(tree, scale, &children.nodes, &mut children.kept)?;
    sort_children(&mut children.kept);
    push_gathered(level, gathered, pending)?;
    push_kept(level, &mut children.kept, pending)
}

/// Appends the line of the children that are gathered, where there are some.
fn push_gathered(
    level: usize,
    gathered: Gathered,
    pending: &mut Vec<Pending>,
) -> Result<(), NoMemory>
    ensures appended { OnOk result
        (pending.new.items ≡ pending.old.items ++ pending_gathered level gathered) }
{
    if gathered.places > 0 {
        pending.push(Pending::Line {
            line: gathered_line(level, gathered),
        })?;
    }
    Ok(())
}

/// The line of what is gathered on a level.
fn gathered_line(level: usize, gathered: Gathered) -> CostLine
    ensures { result ≡ gathered_line level gathered }
{
    CostLine {
        level,
        children: 0,
        cost: gathered.cost,
        place: Place::Gathered {
            places: gathered.places,
        },
    }
}

/// Appends the children, the first one last, and leaves none of them.
fn push_kept(
    level: usize,
    kept: &mut Vec<Child>,
    pending: &mut Vec<Pending>,
) -> Result<(), NoMemory>
    ensures appended { OnOk result
        (pending.new.items ≡ pending.old.items ++ pending_of level kept.old.items) }
{
    'each_child: while let Some(child) = kept.pop() {
        pending.push(Pending::Below {
            level,
            node: child.node,
        })?;
    }
    Ok(())
}
