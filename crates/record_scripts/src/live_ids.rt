//! The IDs of the blocks that are live in a script. What a turn does with its block is no part of it.
ghost use Rattle.std.specs.Prelude.{◌≡◌, ℕ, true, false, not, IfOk, OnErr, OnOk};
ghost use Rattle.record_scripts.specs.LiveIds.{HasSameIds, SetsId, has_id};

use hp_num::NoMemory;
use std::alloc::Global;
use std::collections::HashSet;

/// How many IDs have a place in a table, from 0 on.
const LOW_IDS: usize = 65_536;

/// The IDs that are live. One that has a place in the table is looked up there, and any other by its hash, so that the memory
/// goes by the IDs that are live, whatever numbers they are.
#[derive(Drop)]
pub struct LiveIds {
    low: Vec<bool>,
    high: HashSet<u64>,
}

impl LiveIds {
    /// No IDs, and no table. It takes no memory.
    pub fn none(alloc: Global) -> LiveIds
        ensures { (id : ℕ) → has_id result id ≡ false }
    {
        LiveIds {
            low: Vec::new(alloc),
            high: HashSet::new(alloc),
        }
    }

    /// No IDs.
    pub fn new(alloc: Global) -> Result<LiveIds, NoMemory>
        ensures { IfOk result (λ ids. (id : ℕ) → has_id ids id ≡ false) }
    {
        let low = vec![in alloc; false; LOW_IDS]?;
        Ok(LiveIds {
            low,
            high: HashSet::new(alloc),
        })
    }

    /// Whether an ID is live.
    pub fn contains(&self, id: u64) -> bool
        ensures { result ≡ has_id self.now id }
    {
        if id < self.low.len() as u64 {
            return self.low[id as usize];
        }
        self.high.contains(&id)
    }

    /// Takes in an ID, and answers whether it wasn't live. On `NoMemory` the IDs are as before.
    pub fn insert(&mut self, id: u64) -> Result<bool, NoMemory>
        ensures added { IfOk result (λ added. added ≡ not (has_id self.old id)) }
        ensures live { OnOk result (SetsId self.old self.new id true) }
        ensures unchanged { OnErr result (HasSameIds self.old self.new) }
    {
        if id < self.low.len() as u64 {
            let added = !self.low[id as usize];
            self.low[id as usize] = true;
            return Ok(added);
        }
        Ok(self.high.insert(id)?)
    }

    /// Takes out an ID, and answers whether it was live. It takes no memory.
    pub fn remove(&mut self, id: u64) -> bool
        ensures removed { result ≡ has_id self.old id }
        ensures live { SetsId self.old self.new id false }
    {
        if id < self.low.len() as u64 {
            let removed = self.low[id as usize];
            self.low[id as usize] = false;
            return removed;
        }
        self.high.remove(&id)
    }
}
