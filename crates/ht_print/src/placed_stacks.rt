//! The stacks of a section by their places. Those of a place are found by links from the last of them to the first, so that
//! a group needs no list of its own.
ghost use Rattle.std.specs.Prelude.{◌≡◌, ℕ, ◌+◌, ◌^◌, ◌<◌, ◌≤◌, All, IfOk, OnOk, length};
ghost use Rattle.ht_print.specs.PlacedStacks.{AreHeld, ArePlaced, stacks_numbered};

use crate::entry::Entry;
use crate::places::Places;
use hp_num::NoMemory;
use std::alloc::Global;

/// The stacks of a section; for each place which of them is its last, from 1 on, or 0 where it has none; and for each of
/// them in the same way which one before it has its place.
#[derive(Drop)]
pub(crate) struct PlacedStacks<'s> {
    pub(crate) stacks: &'s [Entry],
    pub(crate) last: Vec<u32>,
    pub(crate) before: Vec<u32>,
}

impl<'s> PlacedStacks<'s> {
    /// The stacks by their places, or `NoMemory`.
    pub(crate) fn of(
        alloc: Global,
        places: &Places,
        stacks: &'s [Entry],
    ) -> Result<PlacedStacks<'s>, NoMemory>
        requires held { AreHeld places.now stacks.now }
        requires few { length stacks.now < 2 ^ 32 }
        ensures stacks { IfOk result (λ placed. placed.stacks.now ≡ stacks.now) }
        ensures placed { IfOk result (λ placed. ArePlaced places.now placed) }
    {
        let mut last = vec![in alloc; 0; places.count]?;
        let mut before = Vec::with_capacity(alloc, stacks.len())?;
        'each_stack: for k in 0..stacks.len() {
            let number = places.numbers[stacks[k].stack as usize] as usize;
            before.push(last[number])?;
            last[number] = k as u32 + 1;
        }
        Ok(PlacedStacks {
            stacks,
            last,
            before,
        })
    }

    /// Replaces `members` by the stacks of a place, in their order.
    pub(crate) fn members_into(
        &self,
        places: &Places,
        number: u32,
        members: &mut Vec<Entry>,
    ) -> Result<(), NoMemory>
        requires placed { ArePlaced places.now self.now }
        requires within { number < places.now.count }
        ensures { OnOk result
            (members.new.items ≡ stacks_numbered places.now number self.now.stacks.now) }
    {
        members.clear();
        let mut at = self.last[number as usize];
        'backwards: while at > 0 {
            let place = at as usize - 1;
            members.push(self.stacks[place])?;
            at = self.before[place];
        }
        members.reverse();
        Ok(())
    }
}
