//! The figures of turns that are taken one after another: what they allocate, what they leave live, and the greatest total.
//! In which order scripts take their turns is no part of it.
ghost use Rattle.std.specs.Prelude.{◌≡◌, ℕ, ◌+◌, ◌^◌, ◌≤◌, if◌then◌else◌, List, [], OnOk, is_some};
ghost use Rattle.record_scripts.specs.ScriptTurns.{turn_said};
ghost use Rattle.record_scripts.specs.Turns.{IsBounded};
ghost use Rattle.record_book.specs.Actions.{Action};
ghost use Rattle.record_book.specs.TallyState.{CountsAllocation, CountsFree, CountsTurn, HasCountRoom, IsTally};

use hp_num::NoMemory;
use record_scripts::ScriptLine;
use std::alloc::Global;
use std::collections::HashMap;

/// The sizes of live blocks by thread and ID, and figures in bytes, blocks and calls.
#[derive(Drop)]
pub struct Tally {
    live: HashMap<(u32, u64), u64>,
    pub calls: u64,
    pub allocated: u64,
    /// The bytes that are live.
    pub total: u64,
    /// The blocks that are live.
    pub blocks: u64,
    /// The greatest total so far.
    pub peak: u64,
}

impl Tally {
    /// The figures of no turns. It takes no memory.
    pub fn new(alloc: Global) -> Self
        ensures none { IsTally result [] }
        ensures no_bytes { result.allocated ≡ 0 }
        ensures no_calls { result.calls ≡ 0 }
    {
        Tally {
            live: HashMap::new(alloc),
            calls: 0,
            allocated: 0,
            total: 0,
            blocks: 0,
            peak: 0,
        }
    }

    /// Takes a turn of a thread. On `NoMemory` nothing is said of the figures.
    pub fn take_turn(&mut self, thread: u32, turn: ScriptLine) -> Result<(), NoMemory>
        requires bounded { (ips : List ℕ) × IsBounded (turn_said turn ips) }
        requires room { HasCountRoom self.old }
        ensures taken { OnOk result (CountsTurn self.old self.new thread turn) }
        ensures bytes { self.new.allocated ≤ self.old.allocated + 2 ^ 32 }
        ensures calls { self.new.calls ≤ self.old.calls + 1 }
    {
        match turn {
            ScriptLine::Allocation { id, size } => self.allocate(thread, id, size),
            ScriptLine::Free { id } => {
                self.free(thread, id);
                Ok(())
            }
            ScriptLine::Reallocation { id, size } => {
                self.free(thread, id);
                self.allocate(thread, id, size)
            }
        }
    }

    fn allocate(&mut self, thread: u32, id: u64, size: u64) -> Result<(), NoMemory>
        requires few_bytes { size ≤ 2 ^ 32 }
        requires room { HasCountRoom self.old }
        ensures taken { OnOk result (CountsAllocation self.old self.new thread id size) }
        ensures bytes { self.new.allocated ≤ self.old.allocated + 2 ^ 32 }
        ensures calls { self.new.calls ≤ self.old.calls + 1 }
    {
        let before = self.live.insert((thread, id), size)?;
        self.total -= before.unwrap_or(0);
        self.blocks -= count_of(before);
        self.calls += 1;
        self.allocated += size;
        self.total += size;
        self.blocks += 1;
        self.peak = self.total.max(self.peak);
        Ok(())
    }

    /// Takes a free. It takes no memory.
    fn free(&mut self, thread: u32, id: u64)
        requires { (actions : List Action) × IsTally self.old actions }
        ensures taken { CountsFree self.old self.new thread id }
        ensures bytes { self.new.allocated ≡ self.old.allocated }
        ensures calls { self.new.calls ≡ self.old.calls }
    {
        let before = self.live.remove(&(thread, id));
        self.total -= before.unwrap_or(0);
        self.blocks -= count_of(before);
        self.peak = self.total.max(self.peak);
    }
}

/// 1 for a block, and 0 for none.
fn count_of(size: Option<u64>) -> u64
    ensures { result ≡ (if is_some size then 1 else 0) }
{
    match size {
        Some(_) => 1,
        None => 0,
    }
}
