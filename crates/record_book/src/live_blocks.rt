//! Where the live blocks lie, by thread and ID. Which places have no block, is no part of it.
ghost use Rattle.std.specs.Prelude.{◌≡◌, ℕ, ◌≤◌, false, length, None, Some, IfNone, IfOk, IfSome, IsOk, OnErr, OnOk};
ghost use Rattle.record_book.specs.LiveBlocks.{HasRoom, HasSameBlocks, IsPlaceIn, SetsBlock, block_at, is_low};

use hp_num::NoMemory;
use std::alloc::Global;
use std::collections::HashMap;

/// How many IDs of each thread have a place in a table, from 0 on.
const LOW_IDS: u64 = 1024;

/// Where a live block lies: the address of its place, and the place's class.
#[derive(Clone, Copy)]
pub struct LiveEntry {
    pub address: u64,
    pub class: u64,
}

/// The live blocks. One whose ID has a place in the table is looked up there, and any other by a hash.
#[derive(Drop)]
pub struct LiveBlocks {
    low: Vec<Option<LiveEntry>>,
    high: HashMap<(u32, u64), LiveEntry>,
}

impl LiveBlocks {
    /// No blocks, with a table for so many threads.
    pub fn new(alloc: Global, threads: u32) -> Result<LiveBlocks, NoMemory>
        requires { threads ≤ 64 }
        ensures { IfOk result (λ blocks. (thread id : ℕ) → block_at blocks thread id ≡ None) }
    {
        let low = vec![in alloc; None; threads as usize * LOW_IDS as usize]?;
        Ok(LiveBlocks {
            low,
            high: HashMap::new(alloc),
        })
    }

    /// Where the block of a thread's ID lies, if it is live.
    pub fn get(&self, thread: u32, id: u64) -> Option<LiveEntry>
        ensures { result ≡ block_at self.now thread id }
    {
        match self.place(thread, id) {
            Some(place) => self.low[place],
            None => self.high.get(&(thread, id)).copied(),
        }
    }

    /// Makes room for one block more. The blocks stay.
    pub fn reserve(&mut self) -> Result<(), NoMemory>
        ensures same { HasSameBlocks self.old self.new }
        ensures room { OnOk result (HasRoom self.new) }
    {
        self.high.reserve(1)?;
        Ok(())
    }

    /// Puts in the block of a thread's ID, in the place of the one that was live. On `NoMemory` the blocks are as before. It
    /// can't fail where there is room.
    pub fn insert(&mut self, thread: u32, id: u64, entry: LiveEntry) -> Result<(), NoMemory>
        ensures put { OnOk result (SetsBlock self.old self.new thread id (Some entry)) }
        ensures unchanged { OnErr result (HasSameBlocks self.old self.new) }
        ensures room { HasRoom self.old → IsOk result }
    {
        match self.place(thread, id) {
            Some(place) => {
                self.low[place] = Some(entry);
                Ok(())
            }
            None => {
                self.high.insert((thread, id), entry)?;
                Ok(())
            }
        }
    }

    /// Takes out the block of a thread's ID, and answers where it lay, if it was live. It takes no memory.
    pub fn remove(&mut self, thread: u32, id: u64) -> Option<LiveEntry>
        ensures taken { result ≡ block_at self.old thread id }
        ensures left { SetsBlock self.old self.new thread id None }
        ensures room { HasRoom self.old → HasRoom self.new }
    {
        match self.place(thread, id) {
            Some(place) => {
                let entry = self.low[place];
                self.low[place] = None;
                entry
            }
            None => self.high.remove(&(thread, id)),
        }
    }

    /// The place of a thread's ID in the table, where it has one.
    fn place(&self, thread: u32, id: u64) -> Option<usize>
        ensures low { IfSome result (IsPlaceIn self.now thread id) }
        ensures high { IfNone result (is_low (length self.now.low.items) thread id ≡ false) }
    {
        if id >= LOW_IDS {
            return None;
        }
        let place = thread as usize * LOW_IDS as usize + id as usize;
        if place < self.low.len() {
            Some(place)
        } else {
            None
        }
    }
}
