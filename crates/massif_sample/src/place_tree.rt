//! The tree of a place that was kept, of what each stack cost there.
ghost use Rattle.std.specs.Prelude.{◌≡◌, ◌==◌, ◌^◌, ◌≤◌, if◌then◌else◌, slice_index_or, sum, IfOk, IfSome};
ghost use Rattle.massif_sample.specs.Made.{IsTreeOfCosts};

use cost_tree::{Costing, CutFronts};
use hp_num::NoMemory;
use massif_file::Tree;
use massif_tree::{TreeOptions, snapshot_tree};
use std::alloc::Global;

/// The most that all stacks cost together, in bytes.
const MOST: u64 = 0x4000_0000_0000_0000;

/// The lines of the tree with this total, over the stacks' lists, or `NoMemory`. A stack behind the costs costs nothing.
pub(crate) fn place_tree(
    alloc: Global,
    fronts: &mut CutFronts,
    options: &TreeOptions,
    total: u64,
    costs: &[u64],
) -> Result<Tree, NoMemory>
    ensures lines { IfOk result
        (IsTreeOfCosts options.now total fronts.old.whole costs.now) }
    ensures whole { fronts.new.whole ≡ fronts.old.whole }
{
    // What stacks cost together at a place is live there, and a trace allocates at most 2^62 bytes in all. So it always
    // has a sum, and this only tells the bound.
    let Some(live) = bounded_sum(costs) else {
        return Err(NoMemory);
    };
    let costing = Costing::new(fronts.len(), |stack: u32| cost_at(costs, stack));
    snapshot_tree(alloc, fronts, &costing, options, shared_total(total, live))
}

/// What the costs sum to, or `None` where it's more than 2^62.
fn bounded_sum(costs: &[u64]) -> Option<u64>
    ensures sum { IfSome result (λ live. live ≡ sum costs.now) }
    ensures bound { IfSome result (λ live. sum costs.now ≤ 2 ^ 62) }
{
    let mut total: u64 = 0;
    for cost in costs {
        if *cost > MOST - total {
            return None;
        }
        total += *cost;
    }
    Some(total)
}

/// The total that shares are of. Where nothing is live a tree has one line by any total; but by a total of 0 no share is
/// small, and each stack's list would be made as long as it is.
fn shared_total(total: u64, live: u64) -> u64
    ensures { result ≡ if live == 0 then 1 else total }
{
    if live == 0 {
        return 1;
    }
    total
}

fn cost_at(costs: &[u64], stack: u32) -> u64
    ensures { result ≡ slice_index_or costs.now stack 0 }
{
    match costs.get(stack as usize) {
        Some(cost) => *cost,
        None => 0,
    }
}
