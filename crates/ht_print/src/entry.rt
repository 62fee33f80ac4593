//! The entries of a report's sections: stacks, and groups of them, each with a figure; and their order.
ghost use Rattle.std.specs.Prelude.{◌≡◌, ◌^◌, ◌<◌, IfOk, length};
ghost use Rattle.std.specs.Ordering.{is_lt};
ghost use Rattle.ht_print.specs.Appends.{Appends};
ghost use Rattle.ht_print.specs.ReportOrder.{in_order, is_before, ordered_stacks, some_stack, some_stacks};

use hp_num::NoMemory;
use std::alloc::Global;
use std::cmp::Ordering;

/// A stack and its figure, or a group's least stack and the sum of its stacks' figures.
#[derive(Clone, Copy)]
pub(crate) struct Entry {
    pub(crate) figure: u64,
    pub(crate) stack: u32,
}

impl Entry {
    /// `Less` where this entry stands before the other: its figure is greater, or it is the same and the stack's number is
    /// lower.
    pub(crate) fn compare(&self, other: &Entry) -> Ordering
        ensures { is_lt result ≡ is_before self.now other.now }
    {
        other
            .figure
            .cmp(&self.figure)
            .then(self.stack.cmp(&other.stack))
    }
}

/// The stacks whose figure isn't 0, in order, or `NoMemory`.
pub(crate) fn ordered_stacks(alloc: Global, figures: &[u64]) -> Result<Vec<Entry>, NoMemory>
    requires few { length figures.now < 2 ^ 32 }
    ensures stacks { IfOk result (λ stacks. stacks.items ≡ ordered_stacks figures.now) }
    ensures few { IfOk result (λ stacks. length stacks.items < 2 ^ 32) }
{
    let mut stacks = some_stacks(alloc, figures)?;
    sort(&mut stacks);
    Ok(stacks)
}

/// The stacks whose figure isn't 0, by number, or `NoMemory`.
fn some_stacks(alloc: Global, figures: &[u64]) -> Result<Vec<Entry>, NoMemory>
    requires few { length figures.now < 2 ^ 32 }
    ensures stacks { IfOk result (λ stacks. stacks.items ≡ some_stacks figures.now) }
{
    let mut stacks = Vec::new(alloc);
    'each_stack: for stack in 0..figures.len() {
        add_stack(&mut stacks, figures[stack], stack as u32)?;
    }
    Ok(stacks)
}

/// Adds the stack where its figure isn't 0.
fn add_stack(stacks: &mut Vec<Entry>, figure: u64, stack: u32) -> Result<(), NoMemory>
    ensures { Appends (some_stack figure stack) stacks.old stacks.new result }
{
    if figure == 0 {
        return Ok(());
    }
    stacks.push(Entry { figure, stack })?;
    Ok(())
}

/// Puts the entries in order.
pub(crate) fn sort(entries: &mut Vec<Entry>)
    ensures { entries.new.items ≡ in_order entries.old.items }
{
    entries.sort_unstable_by(|one, other| one.compare(other));
}
