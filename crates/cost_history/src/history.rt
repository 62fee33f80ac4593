//! A history of what stacks cost: the marks of those that have changed, and the changes at the places that were kept.
ghost use Rattle.std.specs.Prelude.{◌≡◌, ℕ, ◌+◌, ◌-◌, ◌^◌, ◌<◌, ◌≤◌, max, min, true, false, length, OnOk, OnErr};
ghost use Rattle.cost_history.specs.Changes.{AreParted, CostNothingFrom};
ghost use Rattle.cost_history.specs.Marks.{is_marked, no_marks, with_all, with_mark};
ghost use Rattle.cost_history.specs.HistoryState.{AreCallable, IsRoomy, RoomyHistory, TellsNow, no_history};
ghost use Rattle.cost_history.specs.Steps.{GainsMarked, GainsOfMarked, GainsSaid, KeepsBefore, KeepsOthers, SeesSameOf, StayBetween, TellsChange, TellsFrom, with_left, with_marks, with_stacks};

use crate::change::Change;
use crate::marks::Marks;
use crate::replay::Replay;
use crate::thinning::thin;
use hp_num::NoMemory;
use std::alloc::Global;
use std::marker::Model;

/// What stacks cost at the places that were kept. A place is a number of events, and places ascend.
///
/// A change says what its stack costs from its place on. A place that is dropped asks for nothing: the changes that it
/// alone could see are taken out by the next `thin`, which is told which places are kept.
#[derive(Drop)]
pub struct CostHistory {
    marks: Marks,
    changes: Vec<Change>,
    /// A cell for each stack, which `thin` and a replay use.
    cells: Vec<u64>,
    /// How many changes were left the last time that they were thinned.
    left: usize,
    last: u64,
}

impl Model for CostHistory {
    ghost use Rattle.cost_history.specs.HistoryState.{RoomyHistory};
    ghost use Rattle.cost_history.specs.HistoryView.{IsKept, history_of};

    ghost Value = { RoomyHistory };

    ghost view = { λ history.
        history_of history.marks history.changes.items history.cells.items history.left
        history.last };

    ghost invariant = { λ history. IsKept history.changes.items history.cells.items history.last };
}

impl CostHistory {
    /// No stack, room for the mark of none, and no place kept. It takes no memory.
    pub fn new(alloc: Global) -> CostHistory
        ensures empty { result ≡ record { history = no_history; room = 0 } }
        ensures tells { (costs : ℕ → ℕ) → ((stack : ℕ) → costs stack ≡ 0)
            → TellsNow result.history costs }
    {
        CostHistory {
            marks: Marks::new(alloc),
            changes: Vec::new(alloc),
            cells: Vec::new(alloc),
            left: 0,
            last: 0,
        }
    }

    /// Makes room for the mark of one more stack: of the stacks that are numbered below the room, which stays at 2^32 - 1,
    /// where each has it. On `NoMemory` there is as much as before.
    pub fn make_room(&mut self) -> Result<(), NoMemory>
        ensures more { OnOk result
            (self.new ≡ record self.old { room = min (self.old.room + 1) (2 ^ 32 - 1) }) }
        ensures unchanged { OnErr result (self.new ≡ self.old) }
    {
        if self.marks.room() == u32::MAX {
            return Ok(());
        }
        self.marks.make_room()
    }

    /// Says that the stack's cost has changed since the last place that was kept. It takes no memory: of a stack for whose
    /// mark no room was made, it marks all.
    pub fn mark(&mut self, stack: u32)
        ensures others { stack < self.old.room
            → KeepsOthers self.old.history.marks self.new.history.marks stack }
        ensures listed { stack < self.old.room →
            self.new.history.marks ≡ with_mark self.old.history.marks stack }
        ensures full { self.old.room ≤ stack
            → self.new.history.marks ≡ with_all self.old.history.marks }
        ensures marked { is_marked self.new.history.marks stack ≡ true }
        ensures rest { self.new ≡ with_marks self.old self.new.history.marks }
        ensures tells { TellsChange self.old.history self.new.history stack }
    {
        self.marks.mark(stack);
    }

    /// Keeps a place, at which so many stacks cost what the closure says: it is asked of the marked ones, which are marked
    /// no more. On `NoMemory` the marks and the changes are as before.
    pub fn keep<F: Fn(u32) -> u64>(
        &mut self,
        place: u64,
        stacks: u32,
        cost: &F,
    ) -> Result<(), NoMemory>
        requires ascends { self.old.history.last ≤ place }
        requires most { place ≤ 2 ^ 62 }
        requires callable { AreCallable (F.pre cost.now) stacks }
        ensures before { OnOk result
            (KeepsBefore (F.post cost.now) stacks place self.old.history self.new.history) }
        ensures here { OnOk result
            (TellsFrom (F.post cost.now) stacks place self.old.history self.new.history) }
        ensures most { OnOk result (GainsOfMarked stacks self.old.history self.new.history) }
        ensures marks { OnOk result (self.new.history.marks ≡ no_marks) }
        ensures left { OnOk result (self.new.history.left ≡ self.old.history.left) }
        ensures last { OnOk result (self.new.history.last ≡ place) }
        ensures stacks { OnOk result
            (self.new.history.stacks ≡ max self.old.history.stacks stacks) }
        ensures room { OnOk result (self.new.room ≡ self.old.room) }
        ensures unchanged { OnErr result (self.new ≡ with_stacks self.old self.new.history.stacks) }
    {
        grow(&mut self.cells, stacks)?;
        push_changes(&mut self.changes, &self.marks, stacks, place, cost)?;
        self.marks.clear();
        self.last = place;
        Ok(())
    }

    /// Whether it is time to thin: there are more changes than twice those that were left the last time, and one for each
    /// stack.
    pub fn is_crowded(&self) -> bool
        ensures crowded { result ≡ true → IsRoomy self.now.history → ⊥ }
        ensures roomy { result ≡ false → IsRoomy self.now.history }
    {
        let more = self.changes.len().saturating_sub(self.left);
        if more <= self.left {
            return false;
        }
        more - self.left > self.cells.len()
    }

    /// Takes out the changes that no kept place sees, nor the present one. The places come in any order, and are sorted. It
    /// takes no memory.
    pub fn thin(&mut self, kept: &mut Vec<u64>)
        ensures costs { SeesSameOf kept.old.items self.old.history self.new.history }
        ensures parted { AreParted kept.old.items self.new.history.changes }
        ensures rest { self.new ≡ with_left self.old self.new.history.changes }
        ensures tells { (costs : ℕ → ℕ) → TellsNow self.old.history costs
            → TellsNow self.new.history costs }
    {
        thin(&mut self.changes, &mut self.cells, kept, self.last);
        self.left = self.changes.len();
    }

    /// The replay of the history, before its first place. It takes no memory.
    pub fn into_replay(self) -> Replay
        ensures changes { result.changes ≡ self.history.changes }
        ensures none { CostNothingFrom self.history.stacks self.history.changes }
    {
        let CostHistory { changes, cells, .. } = self;
        Replay::new(changes, cells)
    }
}

/// Makes a cell for each of so many stacks.
fn grow(cells: &mut Vec<u64>, stacks: u32) -> Result<(), NoMemory>
    ensures grown { OnOk result (length cells.new.items ≡ max (length cells.old.items) stacks) }
    ensures enough { OnOk result (stacks ≤ length cells.new.items) }
    ensures least { length cells.old.items ≤ length cells.new.items }
{
    if cells.len() < stacks as usize {
        cells.resize(stacks as usize, 0)?;
    }
    Ok(())
}

/// Appends a change of each marked stack, of so many.
fn push_changes<F: Fn(u32) -> u64>(
    changes: &mut Vec<Change>,
    marks: &Marks,
    stacks: u32,
    place: u64,
    cost: &F,
) -> Result<(), NoMemory>
    requires callable { AreCallable (F.pre cost.now) stacks }
    ensures pushed { OnOk result (GainsSaid (F.post cost.now) stacks place marks.now.marks
        changes.old.items changes.new.items) }
    ensures most { OnOk result
        (GainsMarked stacks marks.now.marks changes.old.items changes.new.items) }
    ensures between { OnOk result (StayBetween stacks place changes.old.items changes.new.items) }
    ensures unchanged { OnErr result (changes.new.items ≡ changes.old.items) }
{
    let count = marks.candidates(stacks);
    changes.reserve(count)?;
    for i in 0..count {
        let stack = marks.candidate(stacks, i);
        if stack >= stacks {
            continue;
        }
        changes.push_reserved(Change {
            place,
            stack,
            cost: cost(stack),
        });
    }
    Ok(())
}
