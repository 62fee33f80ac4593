//! A replay: the costs of all stacks at one kept place after another.
ghost use Rattle.std.specs.Prelude.{◌≡◌, ℕ, ◌+◌, ◌-◌, ◌^◌, ◌<◌, ◌≤◌, List, [], ◌∷◌, ◌++◌, true, false, length, slice_index};
ghost use Rattle.cost_history.specs.Changes.{cost_at};
ghost use Rattle.cost_history.specs.ReplayState.{AreOrdered, AreTold, IsDue, IsPast, ReplayState};

use crate::change::Change;
use std::marker::Model;

/// Costs that move on from place to place.
#[derive(Drop)]
pub struct Replay {
    changes: Vec<Change>,
    costs: Vec<u64>,
    next: usize,
    reached: u64,
}

impl Model for Replay {
    ghost use Rattle.cost_history.specs.ReplayState.{IsReplay, ReplayState};

    ghost Value = { ReplayState };

    ghost view = { λ replay.
        record {
          changes = replay.changes.items;
          costs = replay.costs.items;
          reached = replay.reached;
        } };

    ghost invariant = { λ replay.
        IsReplay replay.changes.items replay.costs.items replay.next replay.reached };
}

impl Replay {
    /// The costs before any change, in cells that are given.
    pub(crate) fn new(changes: Vec<Change>, mut cells: Vec<u64>) -> Replay
        requires { AreOrdered (length cells.items) changes.items }
        ensures changes { result.changes ≡ changes.items }
        ensures reached { result.reached ≡ 0 }
    {
        zero(&mut cells);
        Replay {
            changes,
            costs: cells,
            next: 0,
            reached: 0,
        }
    }

    /// Moves to the place. One that is before that of the last call costs another walk from the first change on.
    pub fn move_to(&mut self, place: u64)
        ensures costs { (stack : ℕ) →
            slice_index self.new.costs stack ≡ cost_at self.new.changes place stack }
        ensures rest { self.new ≡ record self.old { costs = self.new.costs; reached = place } }
    {
        self.be_before(place);
        self.next = advance(&mut self.costs, &self.changes, self.next, place);
        self.reached = place;
    }

    /// Begins again where the place is passed.
    fn be_before(&mut self, place: u64)
        ensures reached { self.new.reached ≤ place }
        ensures changes { self.new.changes ≡ self.old.changes }
    {
        if self.reached <= place {
            return;
        }
        zero(&mut self.costs);
        self.next = 0;
        self.reached = 0;
    }

    /// What each stack costs at the place that is reached, by the stacks' numbers. Those behind the last one cost nothing.
    pub fn costs(&self) -> &[u64]
        ensures { result.now ≡ self.now.costs }
    {
        &self.costs
    }
}

/// Makes each number 0.
fn zero(cells: &mut Vec<u64>)
    ensures length { length cells.new.items ≡ length cells.old.items }
    ensures zero { (stack : ℕ) →
        stack < length cells.new.items → slice_index cells.new.items stack ≡ 0 }
{
    for cell in cells.iter_mut() {
        *cell = 0;
    }
}

/// Takes the changes from `next` on that are made at the place or before, and answers how many are then taken.
fn advance(costs: &mut Vec<u64>, changes: &[Change], mut next: usize, place: u64) -> usize
    requires ordered { AreOrdered (length costs.old.items) changes.now }
    requires told { AreTold costs.old.items changes.now next place }
    ensures told { AreTold costs.new.items changes.now result place }
    ensures length { length costs.new.items ≡ length costs.old.items }
    ensures whole { (stack : ℕ) →
        slice_index costs.new.items stack ≡ cost_at changes.now place stack }
{
    'changes: while is_due(changes, next, place) {
        let change = changes[next];
        costs[change.stack as usize] = change.cost;
        next += 1;
    }
    next
}

/// Whether there is a change at `next`, and it is made at the place or before.
fn is_due(changes: &[Change], next: usize, place: u64) -> bool
    ensures due { result ≡ true → IsDue changes.now next place }
    ensures past { result ≡ false → IsPast changes.now next place }
{
    if next >= changes.len() {
        return false;
    }
    let change = changes[next];
    change.place <= place
}
