//! The tree of what the stacks of a trace cost.
//! What its nodes say is in `cost_tree`.
ghost use Rattle.std.specs.Prelude.{◌≡◌, ◌+◌, length, IfOk};
ghost use Rattle.cost_tree.specs.Costs.{HasCosts, IsStated};
ghost use Rattle.cost_tree.specs.TreeState.{TreeState};
ghost use Rattle.stack_trees.specs.StackTexts.{IsTreeOfStacks};

use crate::direction::Direction;
use crate::trace_lists::trace_lists;
use cost_tree::{CostTree, Costing};
use hp_num::NoMemory;
use ht_trace::{Style, Tables};
use std::alloc::Global;

/// What is made of the stacks of a trace: a `CostTree`.
pub trait OfStacks: Sized {
    /// What contracts see of it.
    ghost tree: { Self → TreeState };

    /// The tree of the stacks of a trace with these costs, to fronts of at most `depth` texts, or `NoMemory`. A stack's
    /// texts are those of its frames in this style, from the innermost one or from the outermost.
    fn build<F: Fn(u32) -> u64>(
        alloc: Global,
        tables: &Tables,
        costing: &Costing<F>,
        direction: Direction,
        style: Style,
        depth: u32,
    ) -> Result<Self, NoMemory>
        requires as_many { costing.now.stacks ≡ length tables.now.nodes + 1 }
        requires stated { IsStated F.pre F.post costing.now }
        ensures tree { IfOk result
            (λ made. IsTreeOfStacks (HasCosts F.pre F.post costing.now) direction style tables.now
            depth (tree made)) };
}

impl<'a> OfStacks for CostTree<'a> {
    ghost tree = { λ made. made };

    fn build<F: Fn(u32) -> u64>(
        alloc: Global,
        tables: &Tables,
        costing: &Costing<F>,
        direction: Direction,
        style: Style,
        depth: u32,
    ) -> Result<CostTree<'a>, NoMemory> {
        let costs = costing.list(alloc)?;
        let lists = trace_lists(alloc, tables, &costs, direction, style, depth)?;
        CostTree::of_lists(alloc, lists, &costs, depth)
    }
}
