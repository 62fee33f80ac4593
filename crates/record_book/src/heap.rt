//! Where blocks lie: the address of each live block, and those that may be handed out again. What a block is for is no part
//! of it.
ghost use Rattle.std.specs.Prelude.{◌≡◌, ◌+◌, ◌^◌, ◌≤◌, false, [], IfNone, IfOk, IfSome, OnOk, OnErr};
ghost use Rattle.record_book.specs.HeapPlaces.{class_of};
ghost use Rattle.record_book.specs.HeapState.{FreesBlock, HasSamePlaces, HasSpace, IsAddressOf, IsHeap, IsSameHeap, PutsBlock, PutsPlaceOf, TakesAddress, entry_at, has_place};

use crate::free_places::FreePlaces;
use crate::live_blocks::{LiveBlocks, LiveEntry};
use hp_num::NoMemory;
use std::alloc::Global;

/// The address of the first place.
const FIRST_ADDRESS: u64 = 0x10000;

/// What the size of a place is a multiple of, in bytes.
const ALIGNMENT: u64 = 16;

/// The live blocks by thread and ID, the places without a block, and the address behind all places.
#[derive(Drop)]
pub struct Heap {
    live: LiveBlocks,
    free: FreePlaces,
    end: u64,
}

/// The class of a size: the size rounded up to a multiple of 16, and at least 16.
pub fn class_of(size: u64) -> u64
    requires { size ≤ 2 ^ 32 }
    ensures class { result ≡ class_of size }
    ensures few_bytes { result ≤ size + 16 }
{
    (size.max(1) + (ALIGNMENT - 1)) / ALIGNMENT * ALIGNMENT
}

impl Heap {
    /// No places, for the blocks of so many threads.
    pub fn new(alloc: Global, threads: u32) -> Result<Heap, NoMemory>
        requires { threads ≤ 64 }
        ensures empty { IfOk result (λ heap. IsHeap heap []) }
        ensures end { IfOk result (λ heap. heap.end ≡ 65536) }
    {
        let live = LiveBlocks::new(alloc, threads)?;
        Ok(Heap {
            live,
            free: FreePlaces::new(alloc),
            end: FIRST_ADDRESS,
        })
    }

    /// Where the live block of a thread's ID lies, if there is one.
    pub fn entry(&self, thread: u32, id: u64) -> Option<LiveEntry>
        ensures entry { result ≡ entry_at self.now thread id }
    {
        self.live.get(thread, id)
    }

    /// Puts a block of at most 2^32 bytes under a thread's ID, at the next address of its class, and answers that. The live
    /// block of the ID, which lies at `left`, is freed before. On `NoMemory` the heap is as before.
    pub fn put(
        &mut self,
        thread: u32,
        id: u64,
        left: Option<LiveEntry>,
        size: u64,
    ) -> Result<u64, NoMemory>
        requires left { left ≡ entry_at self.old thread id }
        requires few_bytes { size ≤ 2 ^ 32 }
        requires space { HasSpace self.old }
        ensures put { IfOk result (PutsBlock self.old self.new thread id size) }
        ensures same { OnErr result (IsSameHeap self.old self.new) }
        ensures end { self.new.end ≤ self.old.end + 2 ^ 33 }
    {
        self.live.reserve()?;
        self.free_place(left)?;
        let class = class_of(size);
        let address = self.take_address(class);
        self.live.insert(thread, id, LiveEntry { address, class })?;
        Ok(address)
    }

    /// Frees the live block of a thread's ID, and answers its address; 0 where there is none. On `NoMemory` the heap is as
    /// before.
    pub fn release(&mut self, thread: u32, id: u64) -> Result<u64, NoMemory>
        requires { HasSpace self.old }
        ensures freed { IfOk result (FreesBlock self.old self.new thread id) }
        ensures same { OnErr result (IsSameHeap self.old self.new) }
        ensures end { self.new.end ≡ self.old.end }
    {
        self.live.reserve()?;
        let Some(left) = self.live.remove(thread, id) else {
            return Ok(0);
        };
        match self.free.insert(left.class, left.address) {
            Ok(()) => Ok(left.address),
            Err(wanting) => {
                self.live.insert(thread, id, left)?;
                Err(wanting)
            }
        }
    }

    /// Takes the next address of a class, which is at most 2^33.
    fn take_address(&mut self, class: u64) -> u64
        requires few_bytes { class ≤ 2 ^ 33 }
        requires room { self.old.end + 2 ^ 33 ≤ 2 ^ 63 }
        ensures taken { TakesAddress self.old self.new class result }
        ensures live { self.new.live ≡ self.old.live }
        ensures end { self.new.end ≤ self.old.end + class }
    {
        match self.free.take_first(class) {
            Some(address) => address,
            None => {
                let address = self.end;
                self.end += class;
                address
            }
        }
    }

    /// Puts the place of a block that was live among those without a block, where there was one.
    fn free_place(&mut self, left: Option<LiveEntry>) -> Result<(), NoMemory>
        requires { IfSome left
            (λ entry. has_place self.old.free entry.class entry.address ≡ false) }
        ensures freed { OnOk result (PutsPlaceOf self.old.free self.new.free left) }
        ensures none { OnOk result (IfNone left (HasSamePlaces self.old.free self.new.free)) }
        ensures unchanged { OnErr result (HasSamePlaces self.old.free self.new.free) }
        ensures live { self.new.live ≡ self.old.live }
        ensures end { self.new.end ≡ self.old.end }
    {
        match left {
            Some(LiveEntry { address, class }) => self.free.insert(class, address),
            None => Ok(()),
        }
    }
}

/// The address at which a block lies, 0 where there is no block.
pub fn address(left: Option<LiveEntry>) -> u64
    ensures { IsAddressOf left result }
{
    match left {
        Some(entry) => entry.address,
        None => 0,
    }
}
