//! The lists of texts with which a tree is that of a trace's stacks.
ghost use Rattle.std.specs.Prelude.{◌≡◌, ◌+◌, length, IfOk};
ghost use Rattle.stack_trees.specs.Needed.{StandFor};

use crate::direction::Direction;
use crate::list_form::ListForm;
use crate::root_lists::lists_from_root;
use crate::stack_lists::stack_lists;
use cost_tree::CallerLists;
use hp_num::NoMemory;
use ht_trace::{Style, Tables};
use std::alloc::Global;

/// Lists for the stacks with these costs, for a tree to fronts of at most `depth` texts, or `NoMemory`.
pub(crate) fn trace_lists(
    alloc: Global,
    tables: &Tables,
    costs: &[u64],
    direction: Direction,
    style: Style,
    depth: u32,
) -> Result<CallerLists, NoMemory>
    requires as_many { length costs.now ≡ length tables.now.nodes + 1 }
    ensures lists { IfOk result
        (λ lists. StandFor direction style tables.now costs.now depth lists) }
{
    match direction {
        Direction::FromAllocation => {
            // One text more than a front has says that a stack goes on.
            let most = depth as usize + 1;
            stack_lists(alloc, tables, costs, ListForm { style, most })
        }
        Direction::FromRoot => lists_from_root(alloc, tables, style),
    }
}
