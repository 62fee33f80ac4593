//! The ledger of totals: the figures of a whole heap trace, and the blocks of each info, kept up event by event. The
//! figures of stacks are no part of it.
ghost use Rattle.std.specs.Prelude.{◌≡◌, ℕ, ◌+◌, ◌-◌, ◌^◌, ◌<◌, ◌≤◌, [], length, Some, map, slice_get, slice_index, IfNone, IfOk, IfSome, OnOk, OnErr};
ghost use Rattle.std.specs.Result.{result_err};
ghost use Rattle.live_ledger.specs.Changes.{ended_by_free};
ghost use Rattle.live_ledger.specs.Consistent.{info_of};
ghost use Rattle.live_ledger.specs.Faults.{fault_at};
ghost use Rattle.live_ledger.specs.ForEvents.{GoesOn, GoesOnWith, TellsFault};
ghost use Rattle.live_ledger.specs.GrownLedger.{answered_info};
ghost use Rattle.live_ledger.specs.InfoBlocks.{allocs_of};
ghost use Rattle.live_ledger.specs.LedgerState.{IsHeld};
ghost use Rattle.live_ledger.specs.Possible.{ArePossible};
ghost use Rattle.live_ledger.specs.StandsFor.{AreTotalsOf};
ghost use Rattle.live_ledger.specs.TotalsOf.{StandsForTotals};
ghost use Rattle.live_ledger.specs.TotalsState.{HasInfo, IsKept, ledger_of, no_events, state_after, with_block, with_info, with_stack, without_block};

use crate::event::{Event, EventFault};
use crate::sums::Sums;
use crate::totals::Totals;
use hp_num::NoMemory;
use std::alloc::Global;
use std::marker::Model;

/// The greatest sum of allocated sizes, in bytes.
const MAX_ALLOCATED: u64 = 0x4000_0000_0000_0000;

/// One info: the stack and the size of its blocks, how many of them are live, and how many were allocated.
/// The counts are apart for the reason that sums are.
#[derive(Clone, Copy)]
struct InfoEntry {
    blocks: u64,
    size: u64,
    calls: u64,
    stack: u32,
}

/// The live figures of a whole trace: it stands for the list of events that it was given.
///
/// Stacks and infos may be added at any moment between events.
#[derive(Drop)]
pub struct TotalsLedger {
    stacks: u32,
    infos: Vec<InfoEntry>,
    sums: Sums,
    last_allocated: Option<u32>,
}

impl Model for TotalsLedger {
    ghost use Rattle.live_ledger.specs.Consistent.{AreKept};
    ghost use Rattle.live_ledger.specs.TotalsState.{TotalsState};

    ghost Value = { TotalsState };

    ghost view = { λ ledger. record {
      stacks = ledger.stacks;
      infos = ledger.infos.items;
      sums = ledger.sums;
      last = ledger.last_allocated;
    } };

    ghost invariant = { λ ledger. AreKept ledger.stacks ledger.infos.items ledger.sums };
}

impl TotalsLedger {
    /// A ledger of no events, which holds stack 0 and no info. It takes no memory.
    pub fn new(alloc: Global) -> TotalsLedger
        ensures value { result ≡ no_events }
        ensures stands { StandsForTotals result [] }
        ensures sound { IsKept result }
    {
        TotalsLedger {
            stacks: 1,
            infos: Vec::new(alloc),
            sums: Sums::new(),
            last_allocated: None,
        }
    }

    /// Adds a stack: the first that is added is stack 1.
    pub fn grow_stack(&mut self)
        requires { self.old.stacks < 2 ^ 32 - 1 }
        ensures grown { self.new ≡ with_stack self.old }
        ensures stands { GoesOn (StandsForTotals self.old) (StandsForTotals self.new) }
        ensures sound { IsKept self.new }
    {
        self.stacks += 1;
    }

    /// Adds an info, for blocks of `size` bytes that are allocated in the held `stack`, and answers its
    /// number: infos are numbered from 0. On `NoMemory` the ledger is as before.
    pub fn grow_info(&mut self, stack: u32, size: u64) -> Result<u32, NoMemory>
        requires room { length self.old.infos < 2 ^ 32 - 1 }
        requires stack_held { stack < self.old.stacks }
        ensures number { IfOk result (λ number. number ≡ length self.old.infos) }
        ensures grown { OnOk result (self.new ≡ with_info self.old stack size) }
        ensures stands { GoesOn (StandsForTotals self.old) (StandsForTotals self.new) }
        ensures unchanged { OnErr result (self.new ≡ self.old) }
        ensures sound { IsKept self.new }
    {
        let number = self.infos.len() as u32;
        self.infos.push(InfoEntry {
            stack,
            size,
            blocks: 0,
            calls: 0,
        })?;
        Ok(number)
    }

    /// The answer that `apply` would give. The ledger stays as it is, and no memory is taken.
    ///
    /// The event names an info that is held, with that info's stack and size. `FreeOfNothing` comes exactly where a
    /// `Free`'s info has no live block, `CostTooLarge` exactly where an `Alloc` would make the sum of allocated sizes
    /// pass 2^62 bytes.
    pub fn check(&self, event: Event) -> Result<(), EventFault>
        requires held { IsHeld (ledger_of self.now) event }
        ensures by_figures { result_err result ≡ fault_at (ledger_of self.now) event }
        ensures fault { TellsFault (StandsForTotals self.now) event result }
        ensures possible { OnOk result (GoesOnWith event (StandsForTotals self.now) ArePossible) }
        ensures sound { IsKept self.now }
    {
        match event {
            Event::Alloc { size, .. } => {
                if size > MAX_ALLOCATED - self.sums.allocated {
                    return Err(EventFault::CostTooLarge);
                }
                Ok(())
            }
            Event::Free { info, .. } => {
                if self.infos[info as usize].blocks == 0 {
                    return Err(EventFault::FreeOfNothing);
                }
                Ok(())
            }
            Event::Tick { .. } => Ok(()),
        }
    }

    /// Takes the event in constant time, or answers why it can't come now and stays as it was.
    /// No memory is taken.
    ///
    /// What the event must be, and when each fault comes, is as in `check`; fewer than 2^32 events were taken
    /// before. A `Tick` changes nothing.
    /// The kind of the event is known at most calls.
    #[inline(always)]
    pub fn apply(&mut self, event: Event) -> Result<(), EventFault>
        requires held { IsHeld (ledger_of self.old) event }
        requires count { (ledger_of self.old).totals.events < 2 ^ 32 }
        ensures fault { TellsFault (StandsForTotals self.old) event result }
        ensures stands { OnOk result
            (GoesOnWith event (StandsForTotals self.old) (StandsForTotals self.new)) }
        ensures after { OnOk result (self.new ≡ state_after self.old event) }
        ensures infos { (ledger_of self.new).infos ≡ (ledger_of self.old).infos }
        ensures unchanged { OnErr result (self.new ≡ self.old) }
        ensures sound { IsKept self.new }
    {
        self.check(event)?;
        match event {
            Event::Alloc { info, size, .. } => self.allocate(info, size),
            Event::Free { info, size, .. } => {
                self.free(info, size);
            }
            Event::Tick { .. } => {}
        }
        Ok(())
    }

    /// Counts a block of the info as allocated.
    pub(crate) fn allocate(&mut self, info: u32, size: u64)
        requires fits { (ledger_of self.old).totals.allocated + size ≤ 2 ^ 62 }
        requires held { HasInfo self.old info size }
        requires count { (ledger_of self.old).totals.events < 2 ^ 32 }
        ensures after { self.new ≡ with_block self.old info size }
        ensures sound { IsKept self.new }
    {
        let entry = &mut self.infos[info as usize];
        entry.blocks += 1;
        entry.calls += 1;
        self.sums.allocate(size);
        self.last_allocated = Some(info);
    }

    /// Counts a live block of the info as freed, and answers how many temporary allocations that ends: one or none.
    pub(crate) fn free(&mut self, info: u32, size: u64) -> u64
        requires live { 0 < slice_index (ledger_of self.old).blocks info }
        requires held { HasInfo self.old info size }
        requires count { (ledger_of self.old).totals.events < 2 ^ 32 }
        ensures ended { result ≡ ended_by_free (ledger_of self.old) info }
        ensures after { self.new ≡ without_block self.old info size }
        ensures sound { IsKept self.new }
    {
        let ended = u64::from(self.last_allocated == Some(info));
        self.infos[info as usize].blocks -= 1;
        self.sums.free(size, ended);
        self.last_allocated = None;
        ended
    }

    /// The figures of the whole trace.
    pub fn totals(&self) -> Totals
        ensures value { result ≡ (ledger_of self.now).totals }
        ensures figures { GoesOn (StandsForTotals self.now) (AreTotalsOf result) }
        ensures sound { IsKept self.now }
    {
        self.sums.totals()
    }

    /// How many blocks of an info that is held were allocated.
    pub fn info_calls(&self, info: u32) -> u64
        requires { info < length self.now.infos }
        ensures value { result ≡ slice_index (ledger_of self.now).info_calls info }
        ensures calls { GoesOn (StandsForTotals self.now)
            (λ events. result ≡ allocs_of info events) }
        ensures within { result ≤ (ledger_of self.now).totals.calls }
    {
        self.infos[info as usize].calls
    }

    /// The size in bytes and the stack of an info; `None` exactly where there is no such info.
    pub fn info(&self, n: u32) -> Option<(u64, u32)>
        ensures none { IfNone result (length self.now.infos ≤ n) }
        ensures some { IfSome result
            (λ info. slice_get (map info_of self.now.infos) n ≡ Some (answered_info info)) }
        ensures stack_held { IfSome result (λ info. info.1 < self.now.stacks) }
    {
        match self.infos.get(n as usize) {
            Some(entry) => Some((entry.size, entry.stack)),
            None => None,
        }
    }

    /// How many stacks are held, stack 0 among them.
    pub fn stacks(&self) -> u32
        ensures value { result ≡ self.now.stacks }
        ensures sound { IsKept self.now }
    {
        self.stacks
    }

    /// How many infos are held.
    pub fn infos(&self) -> u32
        ensures { result ≡ length self.now.infos }
    {
        self.infos.len() as u32
    }
}
