//! What each stack costs, by a closure that is kept.
ghost use Rattle.std.specs.Prelude.{◌≡◌, ℕ, ◌<◌, List, IfOk, OnOk};
ghost use Rattle.cost_tree.specs.Costs.{AreAllCosts, AreCosts, IsCostAt, IsStated, KeepsCosts};

use hp_num::NoMemory;
use std::alloc::Global;

/// The costs of the stacks below a number of stacks, in whatever unit the caller counts.
#[derive(Drop)]
pub struct Costing<F: Fn(u32) -> u64> {
    stacks: u32,
    cost: F,
}

impl<F: Fn(u32) -> u64> Costing<F> {
    /// Keeps the closure, which may be called on each stack below `stacks` and gives that stack's cost. Some list is to
    /// have these costs; they sum to at most 2^62.
    pub fn new(stacks: u32, cost: F) -> Costing<F>
        requires stated { (costs : List ℕ) × AreCosts (F.pre cost) (F.post cost) stacks costs }
        ensures stacks { result.stacks ≡ stacks }
        ensures closure { result.cost ≡ cost }
        ensures stated { KeepsCosts F.pre F.post stacks cost result }
    {
        Costing { stacks, cost }
    }

    /// How many stacks have a cost.
    pub fn stacks(&self) -> u32
        ensures { result ≡ self.now.stacks }
    {
        self.stacks
    }

    /// The cost of the stack, which must be below `stacks`.
    pub fn of(&self, stack: u32) -> u64
        requires stated { IsStated F.pre F.post self.now }
        requires below { stack < self.now.stacks }
        ensures cost { IsCostAt F.pre F.post self.now stack result }
    {
        (self.cost)(stack)
    }

    /// Replaces `costs` by those of all stacks, in their order.
    pub(crate) fn list_into(&self, costs: &mut Vec<u64>) -> Result<(), NoMemory>
        requires stated { IsStated F.pre F.post self.now }
        ensures costs { OnOk result (AreAllCosts F.pre F.post self.now costs.new.items) }
    {
        costs.clear();
        costs.reserve(self.stacks as usize)?;
        for stack in 0..self.stacks {
            costs.push_reserved(self.of(stack));
        }
        Ok(())
    }

    /// The costs of all stacks, in their order, or `NoMemory`.
    pub fn list(&self, alloc: Global) -> Result<Vec<u64>, NoMemory>
        requires stated { IsStated F.pre F.post self.now }
        ensures costs { IfOk result (λ list. AreAllCosts F.pre F.post self.now list.items) }
    {
        let mut costs = Vec::new(alloc);
        self.list_into(&mut costs)?;
        Ok(costs)
    }
}
