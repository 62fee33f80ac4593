//! What each stack costs by one of four figures, for flame stacks and for the sections of a report.
ghost use Rattle.std.specs.Prelude.{◌≡◌, ◌^◌, ◌<◌, ◌≤◌, length, sum, IfOk, Some, slice_get};
ghost use Rattle.peak_costs.specs.PeakState.{IsSound};
ghost use Rattle.ht_print.specs.FlameCosts.{AreTraceCosts, flame_costs};

use crate::flame::FlameCost;
use hp_num::NoMemory;
use peak_costs::Peaks;
use std::alloc::Global;

/// What each stack costs, by ascending number, or `NoMemory`: blocks where allocations or temporary ones are asked for, and else bytes.
pub fn stack_costs(alloc: Global, cost: FlameCost, peaks: &Peaks) -> Result<Vec<u64>, NoMemory>
    ensures costs { IfOk result (λ costs. costs.items ≡ flame_costs cost peaks.now) }
    ensures trace { IfOk result (λ costs. AreTraceCosts cost peaks.now costs.items) }
    ensures count { IfOk result (λ costs. length costs.items ≡ peaks.now.ledger.stacks) }
    ensures few { IfOk result (λ costs. length costs.items < 2 ^ 32) }
    ensures bound { IfOk result (λ costs. sum costs.items ≤ 2 ^ 62) }
{
    // Says what holds of all peaks.
    let _total = peaks.peak_total();
    let stacks = peaks.ledger().stacks();
    let mut costs = Vec::with_capacity(alloc, stacks as usize)?;
    'each_stack: for stack in 0..stacks {
        costs.push(cost_of(cost, peaks, stack))?;
    }
    Ok(costs)
}

fn cost_of(cost: FlameCost, peaks: &Peaks, stack: u32) -> u64
    requires held { stack < peaks.now.ledger.stacks }
    requires sound { IsSound peaks.now }
    ensures { slice_get (flame_costs cost peaks.now) stack ≡ Some result }
{
    match cost {
        FlameCost::Allocations => peaks.ledger().stack(stack).calls,
        FlameCost::Temporary => peaks.ledger().stack(stack).temporary,
        FlameCost::Leaked => peaks.ledger().stack(stack).live,
        FlameCost::Peak => peaks.peak_of(stack),
    }
}
