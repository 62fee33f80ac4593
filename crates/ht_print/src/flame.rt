//! Flame stacks: for each list of texts that some stacks have, a line with what these stacks cost.
//! How the lines of a tree are written is in `flame_lines`, and what a stack costs in `costs`.
ghost use Rattle.std.specs.Prelude.{◌≡◌, ◌+◌, ◌^◌, ◌≤◌, length, sum, OnErr};
ghost use Rattle.peak_costs.specs.Peak.{StandsFor};
ghost use Rattle.ht_print.specs.Appends.{Appends, AppendsFor};
ghost use Rattle.ht_print.specs.FlameCosts.{flame_costs};
ghost use Rattle.ht_print.specs.FlameText.{flame_of_lists, flame_of_trace, flame_text};

use crate::costs::stack_costs;
use crate::flame_lines::FlameLines;
use cost_tree::CallerLists;
use hp_num::NoMemory;
use ht_trace::{Style, Tables};
use peak_costs::Peaks;
use stack_trees::lists_from_root;
use std::alloc::Global;

/// Which figure of a stack is its cost.
#[derive(Clone, Copy)]
pub enum FlameCost {
    /// How many blocks were allocated.
    Allocations,
    /// How many of them the very next event freed.
    Temporary,
    /// The bytes that are live at the end.
    Leaked,
    /// The bytes that are live at the peak.
    Peak,
}

/// Appends the flame stacks of a trace: for each list of frame texts, from the outermost frame on, that some stacks have
/// whose costs have a sum other than 0, these texts with `;` between them, a blank, the sum and a line feed. A `;` within
/// a text is written `:`.
///
/// There must be as many stacks in the peaks as in the tables. On `NoMemory`, `out` holds what it held before. A caller that
/// has no more use for the peaks or the tables can take these steps itself, and let each go after its own; and one that writes
/// the lines one after another takes them from `FlameLines`.
pub fn put_flame(
    alloc: Global,
    cost: FlameCost,
    tables: &Tables,
    peaks: &Peaks,
    out: &mut Vec<u8>,
) -> Result<(), NoMemory>
    requires as_many { peaks.now.ledger.stacks ≡ length tables.now.nodes + 1 }
    ensures appended { Appends (flame_text tables.now (flame_costs cost peaks.now)) out.old out.new result }
    ensures trace { AppendsFor (StandsFor peaks.now) (flame_of_trace cost tables.now) out.old out.new
        result }
    ensures unchanged { OnErr result (out.new.items ≡ out.old.items) }
{
    let costs = stack_costs(alloc, cost, peaks)?;
    let lists = lists_from_root(alloc, tables, Style::Plain)?;
    put_flame_of_lists(alloc, lists, costs, out)
}

/// Appends the flame stacks of lists of texts: for each list whose costs have a sum other than 0, its line.
///
/// There must be a cost for each list, and they sum to at most 2^62. On `NoMemory`, `out` holds what it held before.
pub fn put_flame_of_lists(
    alloc: Global,
    lists: CallerLists,
    costs: Vec<u64>,
    out: &mut Vec<u8>,
) -> Result<(), NoMemory>
    requires as_many { length costs.items ≡ length lists }
    requires bound { sum costs.items ≤ 2 ^ 62 }
    ensures appended { Appends (flame_of_lists lists costs.items) out.old out.new result }
    ensures unchanged { OnErr result (out.new.items ≡ out.old.items) }
{
    let mut lines = FlameLines::of_lists(alloc, lists, costs)?;
    lines.put_all(out)
}
