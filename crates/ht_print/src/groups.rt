//! The groups of a section: the stacks of each place as one entry. How a group is written is in `report_lines`.
ghost use Rattle.std.specs.Prelude.{◌≡◌, ◌<◌, IfOk, OnOk, length};
ghost use Rattle.ht_print.specs.PlacedStacks.{AddsGroup, AreGroups, ArePlaced, HasBound};
ghost use Rattle.ht_print.specs.ReportGroups.{joined};

use crate::entry::{Entry, sort};
use crate::placed_stacks::PlacedStacks;
use crate::places::Places;
use hp_num::NoMemory;
use std::alloc::Global;

/// The groups of the stacks, in order, or `NoMemory`.
pub(crate) fn ordered_groups(
    alloc: Global,
    places: &Places,
    placed: &PlacedStacks<'_>,
) -> Result<Vec<Entry>, NoMemory>
    requires placed { ArePlaced places.now placed.now }
    requires bound { HasBound placed.now.stacks.now }
    ensures { IfOk result (λ groups. AreGroups places.now placed.now groups.items) }
{
    let mut groups = Vec::new(alloc);
    let mut members = Vec::new(alloc);
    'each_stack: for k in 0..placed.stacks.len() {
        add_group(places, placed, k, &mut members, &mut groups)?;
    }
    sort(&mut groups);
    Ok(groups)
}

/// Adds the group of a stack's place where it is the first one that has it. `members` is a buffer.
fn add_group(
    places: &Places,
    placed: &PlacedStacks<'_>,
    k: usize,
    members: &mut Vec<Entry>,
    groups: &mut Vec<Entry>,
) -> Result<(), NoMemory>
    requires placed { ArePlaced places.now placed.now }
    requires within { k < length placed.now.stacks.now }
    requires bound { HasBound placed.now.stacks.now }
    ensures { OnOk result (AddsGroup places.now placed.now k groups.old.items groups.new.items) }
{
    if placed.before[k] > 0 {
        return Ok(());
    }
    let number = places.numbers[placed.stacks[k].stack as usize];
    placed.members_into(places, number, members)?;
    groups.push(joined(members))?;
    Ok(())
}

/// The stacks as one entry: the sum of their figures, and the least of them.
fn joined(stacks: &[Entry]) -> Entry
    requires bound { HasBound stacks.now }
    ensures { result ≡ joined stacks.now }
{
    let Some((first, others)) = stacks.split_first() else {
        return Entry {
            figure: 0,
            stack: 0,
        };
    };
    let mut entry = *first;
    'each_other: for stack in others {
        entry.figure += stack.figure;
        entry.stack = entry.stack.min(stack.stack);
    }
    entry
}
