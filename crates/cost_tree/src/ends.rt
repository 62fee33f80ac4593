//! What lists cost together that end at one node.
ghost use Rattle.std.specs.Prelude.{◌≡◌, ◌^◌, ◌<◌, ◌≤◌, All, length, map, slice_index, sum, OnOk};
ghost use Rattle.cost_tree.specs.CutShapes.{AreEndedCosts};

use hp_num::NoMemory;
use std::alloc::Global;

/// What lists cost together that end at one node.
#[derive(Drop)]
pub(crate) struct EndedCosts {
    /// For each node.
    pub(crate) at_nodes: Vec<u64>,
    /// For each list what those cost that end where it does.
    pub(crate) of_lists: Vec<u64>,
}

impl EndedCosts {
    /// Those of no lists. It takes no memory.
    pub(crate) fn new(alloc: Global) -> EndedCosts {
        EndedCosts {
            at_nodes: Vec::new(alloc),
            of_lists: Vec::new(alloc),
        }
    }
}

/// Replaces `sums` by what the lists cost that end at each of so many nodes.
pub(crate) fn ended_costs_into(
    ends: &[usize],
    costs: &[u64],
    nodes: usize,
    sums: &mut Vec<u64>,
) -> Result<(), NoMemory>
    requires held { All (λ end. end < nodes) ends.now }
    requires as_many { length costs.now ≡ length ends.now }
    requires bound { sum costs.now ≤ 2 ^ 62 }
    ensures count { OnOk result (length sums.new.items ≡ nodes) }
    ensures sums { OnOk result (AreEndedCosts ends.now costs.now nodes sums.new.items) }
{
    sums.clear();
    sums.resize(nodes, 0)?;
    'each_list: for list in 0..ends.len() {
        sums[ends[list]] += costs[list];
    }
    Ok(())
}

/// Replaces `costs` by what stands at the node where each list ends.
pub(crate) fn costs_at_into(
    ends: &[usize],
    sums: &[u64],
    costs: &mut Vec<u64>,
) -> Result<(), NoMemory>
    requires held { All (λ end. end < length sums.now) ends.now }
    ensures costs { OnOk result (costs.new.items ≡ map (slice_index sums.now) ends.now) }
{
    costs.clear();
    costs.reserve(ends.len())?;
    'each_list: for list in 0..ends.len() {
        costs.push_reserved(sums[ends[list]]);
    }
    Ok(())
}
