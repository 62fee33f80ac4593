//! Marks: which stacks' costs have changed, in the order in which they were marked.
ghost use Rattle.std.specs.Prelude.{◌≡◌, ℕ, ◌+◌, ◌^◌, ◌<◌, ◌≤◌, ◌-◌, length, slice_get, slice_set, Some, OnOk, OnErr};
ghost use Rattle.cost_history.specs.Marks.{candidates, marked_with, no_marks, with_mark};

use hp_num::NoMemory;
use std::alloc::Global;
use std::marker::Model;

/// A set of stacks. `order` has each stack for which there is room, and the first `count` of them are listed; `places`
/// says where in `order` each stack stands.
#[derive(Drop)]
pub(crate) struct Marks {
    order: Vec<u32>,
    places: Vec<u32>,
    count: u32,
    all: bool,
}

impl Model for Marks {
    ghost use Rattle.cost_history.specs.Marks.{RoomyMarks};
    ghost use Rattle.cost_history.specs.MarksView.{marks_of, ArePlaced};

    ghost Value = { RoomyMarks };

    ghost view = { λ marks. marks_of marks.order.items marks.count marks.all };

    ghost invariant = { λ marks. ArePlaced marks.order.items marks.places.items marks.count };
}

impl Marks {
    /// No mark, and room for none. It takes no memory.
    pub(crate) fn new(alloc: Global) -> Marks
        ensures { result ≡ record { marks = no_marks; room = 0 } }
    {
        Marks {
            order: Vec::new(alloc),
            places: Vec::new(alloc),
            count: 0,
            all: false,
        }
    }

    /// Makes room for the mark of one more stack, of fewer than 2^32 - 1. On `NoMemory` there is as much as before.
    pub(crate) fn make_room(&mut self) -> Result<(), NoMemory>
        requires { self.old.room < 2 ^ 32 - 1 }
        ensures more { OnOk result (self.new ≡ record self.old { room = self.old.room + 1 }) }
        ensures unchanged { OnErr result (self.new ≡ self.old) }
    {
        self.order.reserve(1)?;
        self.places.reserve(1)?;
        let stack = self.order.len() as u32;
        self.order.push_reserved(stack);
        self.places.push_reserved(stack);
        Ok(())
    }

    /// For how many stacks there is room.
    pub(crate) fn room(&self) -> u32
        ensures { result ≡ self.now.room }
    {
        self.order.len() as u32
    }

    /// Marks the stack, and no other. It takes no memory: where there is no room to list it, all stacks are marked.
    pub(crate) fn mark(&mut self, stack: u32)
        ensures { self.new ≡ marked_with self.old stack }
    {
        if stack >= self.room() {
            self.all = true;
            return;
        }
        self.list(stack);
    }

    /// Lists the stack, for which there is room.
    fn list(&mut self, stack: u32)
        requires { stack < self.old.room }
        ensures { self.new ≡ record self.old { marks = with_mark self.old.marks stack } }
    {
        let place = self.places[stack as usize];
        if place < self.count {
            return;
        }
        let other = self.order[self.count as usize];
        exchange(
            &mut self.order,
            &mut self.places,
            stack,
            place,
            other,
            self.count,
        );
        self.count += 1;
    }

    /// Takes all marks off.
    pub(crate) fn clear(&mut self)
        ensures { self.new ≡ record self.old { marks = no_marks } }
    {
        self.count = 0;
        self.all = false;
    }

    /// How many of so many stacks may be marked.
    pub(crate) fn candidates(&self, stacks: u32) -> usize
        ensures { result ≡ length (candidates self.now.marks stacks) }
    {
        if self.all {
            return stacks as usize;
        }
        self.count as usize
    }

    /// The `i`-th of them.
    pub(crate) fn candidate(&self, stacks: u32, i: usize) -> u32
        requires { i < length (candidates self.now.marks stacks) }
        ensures { slice_get (candidates self.now.marks stacks) i ≡ Some result }
    {
        if self.all {
            return i as u32;
        }
        self.order[i]
    }
}

/// Exchanges two stacks, of which the one stands at `place` and the other at `end`.
fn exchange(
    order: &mut Vec<u32>,
    places: &mut Vec<u32>,
    stack: u32,
    place: u32,
    other: u32,
    end: u32,
)
    requires place { place < length order.old.items }
    requires end { end < length order.old.items }
    requires stack { stack < length places.old.items }
    requires other { other < length places.old.items }
    ensures order { order.new.items ≡ slice_set (slice_set order.old.items place other) end stack }
    ensures places { places.new.items
        ≡ slice_set (slice_set places.old.items other place) stack end }
{
    order[place as usize] = other;
    order[end as usize] = stack;
    places[other as usize] = place;
    places[stack as usize] = end;
}
